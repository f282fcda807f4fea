//! The same events, played at once.
use crate::event::events_copy;
use crate::out::{Out, Stop};
use ent_core::{Core, Event, Played, Reply};
use ent_sql::parse_input;
use ent_tree::Input;
use ent_value::{Limited, Sequence};
use std::alloc::Global;

fn replies_of(played: Played) -> Sequence<Reply> {
    let Played { core, replies } = played;
    drop(core);
    replies
}

/// The replies to events that are played at once over an input.
fn play(alloc: Global, input: Input, events: Sequence<Event>) -> Option<Sequence<Reply>> {
    match Core::play(alloc, input, events) {
        Ok(played) => Some(replies_of(played)),
        Err(_) => None,
    }
}

/// An input without its opening rows.
fn without_rows(alloc: Global, input: Input) -> Input {
    let mut input = input;
    input.opening.rows = Limited::new(alloc);
    input
}

/// The input that a text is, with its opening rows or without them.
fn input_again(alloc: Global, text: &str, has_rows: bool) -> Option<Input> {
    match parse_input(alloc, text) {
        Ok(input) if has_rows => Some(input),
        Ok(input) => Some(without_rows(alloc, input)),
        Err(_) => None,
    }
}

/// The replies to events that are played at once over an input, with its opening rows or without them.
pub(crate) fn replies_at_once(
    alloc: Global,
    text: &str,
    has_rows: bool,
    events: &[Event],
    out: &mut Out,
) -> Sequence<Reply> {
    let played = match input_again(alloc, text, has_rows) {
        Some(input) => play(alloc, input, events_copy(alloc, events, out)),
        None => None,
    };
    or_stop(alloc, played, out)
}

fn or_stop(alloc: Global, played: Option<Sequence<Reply>>, out: &mut Out) -> Sequence<Reply> {
    match played {
        Some(replies) => replies,
        None => {
            out.stop(Stop::Play);
            Sequence::new(alloc)
        }
    }
}

//! A scenario of a core: an input, a line `== events`, and an event or a look-up a line.
use crate::close::close;
use crate::event::{event_copy, push_event, step};
use crate::input::{input_text, open};
use crate::line::{Handed, Line, read_line};
use crate::look_up::put_look_up;
use crate::out::{Out, Stop};
use crate::played::replies_at_once;
use crate::reply::{done_of, push_reply, put_last, put_replies};
use anyhow::Result;
use ent_core::{Core, Event, Reply};
use ent_eval::Done;
use ent_sql::parse_script;
use ent_value::{Refusal, Sequence};
use std::alloc::Global;

/// What a scenario is played with: the text of its input, the events that were made, and the replies.
#[derive(Drop)]
struct Stage<'a> {
    alloc: Global,
    text: &'a str,
    events: Sequence<Event>,
    replies: Sequence<Reply>,
}

impl Stage<'_> {
    /// The result that is handed in.
    fn done(&self, handed: Handed, out: &mut Out) -> Option<Done> {
        if handed.is_elsewhere {
            self.done_elsewhere(handed.job, out)
        } else {
            done_of(self.alloc, self.replies.as_slice(), handed.job, out)
        }
    }

    /// The result of the job that the same events lend over the same tables without their opening rows.
    fn done_elsewhere(&self, number: usize, out: &mut Out) -> Option<Done> {
        let events = self.events.as_slice();
        let replies = replies_at_once(self.alloc, self.text, false, events, out);
        done_of(self.alloc, replies.as_slice(), number, out)
    }

    /// A copy of the event that was kept last.
    fn last_event(&self, out: &mut Out) -> Option<Event> {
        let event = self.events.as_slice().last()?;
        match event_copy(self.alloc, event) {
            Ok(copy) => Some(copy),
            Err(_) => {
                out.stop(Stop::Memory);
                None
            }
        }
    }

    /// Keeps an event and makes it.
    fn make(&mut self, core: &mut Core, event: Event, out: &mut Out) {
        push_event(&mut self.events, event, out);
        if !out.is_stopped() {
            self.make_last(core, out);
        }
    }

    fn make_last(&mut self, core: &mut Core, out: &mut Out) {
        if let Some(event) = self.last_event(out) {
            let reply = step(core, event, out);
            self.note(reply, out);
        }
    }

    /// Keeps a reply and puts its line.
    fn note(&mut self, reply: Option<Reply>, out: &mut Out) {
        if let Some(reply) = reply {
            push_reply(&mut self.replies, reply, out);
            put_last(self.alloc, out, self.replies.as_slice());
        }
    }

    fn finish(&mut self, core: &mut Core, handed: Handed, out: &mut Out) {
        if let Some(done) = self.done(handed, out) {
            self.make(core, Event::Finish(done), out);
        }
    }

    fn join_answer(&mut self, core: &mut Core, handed: Handed, out: &mut Out) {
        if let Some(done) = self.done(handed, out) {
            self.make(core, Event::JoinAnswer(done), out);
        }
    }

    /// Submits the script that a text is; or puts the text's first fault.
    fn submit(&mut self, core: &mut Core, text: &str, out: &mut Out) {
        match parse_script(self.alloc, text) {
            Ok(script) => self.make(core, Event::Submit(script), out),
            Err(Refusal::Fault(fault)) => out.put_fault_line(fault.code(), fault.place()),
            Err(Refusal::Memory) => out.stop(Stop::Memory),
        }
    }

    /// Takes a line; the core is gone where it was closed.
    fn take(&mut self, core: Core, line: Line<'_>, out: &mut Out) -> Option<Core> {
        let mut core = core;
        match line {
            Line::Event(event) => self.make(&mut core, event, out),
            Line::Finish(handed) => self.finish(&mut core, handed, out),
            Line::JoinAnswer(handed) => self.join_answer(&mut core, handed, out),
            Line::Submit(text) => self.submit(&mut core, text, out),
            Line::LookUp(look_up) => put_look_up(self.alloc, out, &core, look_up),
            Line::Close => return close(self.alloc, core, out),
        }
        Some(core)
    }

    /// Takes a line where the core still stands.
    fn take_line(&mut self, stands: Option<Core>, line: Line<'_>, out: &mut Out) -> Option<Core> {
        match stands {
            Some(core) => self.take(core, line, out),
            None => {
                out.stop(Stop::Closed);
                None
            }
        }
    }

    /// Takes lines up to the end, or up to one that stops all.
    fn take_lines(&mut self, core: Core, lines: &str, out: &mut Out) {
        let mut stands = Some(core);
        for line in lines.lines() {
            out.next_line();
            if line.is_empty() || out.is_stopped() {
                continue;
            }
            match read_line(line) {
                Ok(line) => stands = self.take_line(stands, line, out),
                Err(stop) => out.stop(stop),
            }
        }
    }

    /// Plays the events at once over the same input; where a reply is another one, a line says to which event.
    fn put_difference(&self, out: &mut Out) {
        let events = self.events.as_slice();
        let replies = replies_at_once(self.alloc, self.text, true, events, out);
        let mut played = Out::new(self.alloc);
        put_replies(self.alloc, &mut played, replies.as_slice());
        let mut made = Out::new(self.alloc);
        put_replies(self.alloc, &mut made, self.replies.as_slice());
        put_difference(&played, &made, out);
    }
}

fn put_difference(played: &Out, made: &Out, out: &mut Out) {
    if played.is_stopped() || made.is_stopped() {
        out.stop(Stop::Memory);
    } else if played.bytes() != made.bytes() {
        let number = first_difference(played.bytes(), made.bytes());
        out.put_number("play replies otherwise to event", number);
        out.put("\n");
    }
}

/// The number of the first line, from 1, that isn't in both texts.
fn first_difference(one: &[u8], other: &[u8]) -> u64 {
    let mut number = 1u64;
    for (left, right) in one.iter().zip(other.iter()) {
        if left != right {
            break;
        }
        if *left == b'\n' {
            number = number.saturating_add(1);
        }
    }
    number
}

/// Puts the replies of a core, a line each; and whether those of play are others.
fn put_played(alloc: Global, text: &str, core: Core, lines: &str, out: &mut Out) {
    let mut stage = Stage {
        alloc,
        text,
        events: Sequence::new(alloc),
        replies: Sequence::new(alloc),
    };
    stage.take_lines(core, lines, out);
    stage.put_difference(out);
}

/// The lines before `== events`, and those behind it, where a scenario has this line.
pub(crate) fn parts(text: &str) -> Option<(&str, &str)> {
    match text.strip_prefix("== events\n") {
        Some(events) => Some(("", events)),
        None => text.split_once("\n== events\n"),
    }
}

/// The replies to events and look-ups over an input, a line each.
pub(crate) fn replies(alloc: Global, input: &str, events: &str) -> Result<String> {
    let input = input_text(alloc, input)?;
    let mut out = Out::new(alloc);
    if let Some(core) = open(alloc, input.as_str(), &mut out) {
        put_played(alloc, input.as_str(), core, events, &mut out);
    }
    out.into_text()
}

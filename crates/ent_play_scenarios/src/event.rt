//! Events: made once more, and made in a core.
ghost use Rattle.std.specs.Prelude.{◌≡◌, IfOk};

use crate::out::{Out, Stop};
use ent_core::{Core, Event, Reply};
use ent_tree::Duplicate;
use ent_value::Sequence;
use std::alloc::{AllocError, Global};

/// The same event.
pub(crate) fn event_copy(alloc: Global, event: &Event) -> Result<Event, AllocError>
    ensures { IfOk result (λ copy. copy ≡ event.now) }
{
    match event {
        Event::Submit(script) => Ok(Event::Submit(script.copy(alloc)?)),
        Event::StartRun => Ok(Event::StartRun),
        Event::Begin(tx) => Ok(Event::Begin(*tx)),
        Event::Finish(done) => Ok(Event::Finish(done.copy(alloc)?)),
        Event::Pick => Ok(Event::Pick),
        Event::JoinAnswer(done) => Ok(Event::JoinAnswer(done.copy(alloc)?)),
        Event::BreakCycle => Ok(Event::BreakCycle),
        Event::EndRun => Ok(Event::EndRun),
        Event::Recall => Ok(Event::Recall),
    }
}

/// The same events, where memory suffices.
pub(crate) fn events_copy(alloc: Global, events: &[Event], out: &mut Out) -> Sequence<Event> {
    let mut copies = Sequence::new(alloc);
    for event in events {
        match event_copy(alloc, event) {
            Ok(copy) => push_event(&mut copies, copy, out),
            Err(_) => out.stop(Stop::Memory),
        }
    }
    copies
}

pub(crate) fn push_event(events: &mut Sequence<Event>, event: Event, out: &mut Out) {
    if let Err(refused) = events.push(event) {
        drop(refused);
        out.stop(Stop::Memory);
    }
}

/// Makes an event. Where memory runs out, that is a line of its own, and the event, which came back, is made again.
pub(crate) fn step(core: &mut Core, event: Event, out: &mut Out) -> Option<Reply> {
    match core.step(event) {
        Ok(reply) => Some(reply),
        Err(refused) => step_again(core, refused.value, out),
    }
}

fn step_again(core: &mut Core, event: Event, out: &mut Out) -> Option<Reply> {
    out.put("E900\n");
    match core.step(event) {
        Ok(reply) => Some(reply),
        Err(refused) => {
            drop(refused);
            out.stop(Stop::Twice);
            None
        }
    }
}

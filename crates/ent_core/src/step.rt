//! An event, as a value, is made.
ghost use Rattle.std.specs.Prelude.{◌≡◌, IfErr, IfOk, IsErr, Ok, OnErr};
ghost use Rattle.ent_core.specs.Event.{MayWantMemory, event_seen};
ghost use Rattle.ent_core.specs.Reply.{reply_seen};
ghost use Rattle.ent_protocol.specs.Reached.{book_of};
ghost use Rattle.ent_protocol.specs.Step.{Step};
ghost use Rattle.ent_headline.specs.Resolved.{resolved_forms};
ghost use Rattle.ent_semantics.specs.Book.{IsLegal};

use crate::event::Event;
use crate::reached::Core;
use crate::reply::Reply;
use std::alloc::{AllocError, AllocFailed};

/// The reply; where memory ran out the event comes back.
fn or_back(made: Result<Reply, AllocError>, event: Event) -> Result<Reply, AllocFailed<Event>>
    ensures ok { IfOk result (λ reply. made ≡ Ok reply) }
    ensures err { OnErr result (IsErr made) }
    ensures returned { IfErr result (λ refused. refused.value ≡ event) }
{
    match made {
        Ok(reply) => {
            drop(event);
            Ok(reply)
        }
        Err(_) => Err(AllocFailed { value: event }),
    }
}

impl Core {
    /// Makes an event, as the call of its name does. Where memory runs out nothing changes, and the event comes back; a
    /// member that rolls back, a statement that failed, a cycle that is broken and a recall take none.
    pub fn step(&mut self, event: Event) -> Result<Reply, AllocFailed<Event>>
        ensures ok { IfOk result (λ reply.
            Step resolved_forms self.old (event_seen event) (reply_seen reply) self.new) }
        ensures err { OnErr result (self.new ≡ self.old) }
        ensures returned { IfErr result (λ refused. refused.value ≡ event) }
        ensures memory { IfErr result (λ refused. MayWantMemory self.old (event_seen event)) }
        ensures legal { IsLegal (book_of self.new) }
    {
        match event {
            Event::Submit(script) => match self.submit(script) {
                Ok(reply) => Ok(reply),
                Err(refused) => Err(AllocFailed {
                    value: Event::Submit(refused.value),
                }),
            },
            Event::StartRun => or_back(self.start_run(), Event::StartRun),
            Event::Begin(tx) => or_back(self.begin(tx), Event::Begin(tx)),
            Event::Finish(done) => match self.finish(done) {
                Ok(reply) => Ok(reply),
                Err(refused) => Err(AllocFailed {
                    value: Event::Finish(refused.value),
                }),
            },
            Event::Pick => or_back(self.pick(), Event::Pick),
            Event::JoinAnswer(done) => match self.join_answer(done) {
                Ok(reply) => Ok(reply),
                Err(refused) => Err(AllocFailed {
                    value: Event::JoinAnswer(refused.value),
                }),
            },
            Event::BreakCycle => Ok(self.break_cycle()),
            Event::EndRun => or_back(self.end_run(), Event::EndRun),
            Event::Recall => Ok(self.recall()),
        }
    }
}

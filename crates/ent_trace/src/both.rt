//! Two watchers that are told the same.
ghost use Rattle.ent_sched.specs.Passed.{reply_seen};
ghost use Rattle.ent_protocol.specs.Event.{Event};
ghost use Rattle.ent_sched.specs.Watching.{TellsOf, heard_of};

use ent_eval::Done;
use ent_sched::{Core, MadeEvent, Reply, Watcher};

/// Two watchers, each of which is told all.
#[derive(Drop)]
pub struct Both<A, B> {
    pub first: A,
    pub second: B,
}

/// What is told, with the mark of each of two watchers.
fn parted<A: Watcher, B: Watcher>(
    told: MadeEvent<(A::Mark, B::Mark)>,
) -> (MadeEvent<A::Mark>, MadeEvent<B::Mark>)
    ensures { (event : Event)
        → TellsOf (λ mark done. A.marks mark.0 done × B.marks mark.1 done) told event
        → TellsOf A.marks result.0 event × TellsOf B.marks result.1 event }
{
    match told {
        MadeEvent::StartRun => (MadeEvent::StartRun, MadeEvent::StartRun),
        MadeEvent::Begin(tx) => (MadeEvent::Begin(tx), MadeEvent::Begin(tx)),
        MadeEvent::Finish((first, second)) => (MadeEvent::Finish(first), MadeEvent::Finish(second)),
        MadeEvent::Pick => (MadeEvent::Pick, MadeEvent::Pick),
        MadeEvent::JoinAnswer((first, second)) => (
            MadeEvent::JoinAnswer(first),
            MadeEvent::JoinAnswer(second),
        ),
        MadeEvent::BreakCycle => (MadeEvent::BreakCycle, MadeEvent::BreakCycle),
        MadeEvent::EndRun => (MadeEvent::EndRun, MadeEvent::EndRun),
        MadeEvent::Recall => (MadeEvent::Recall, MadeEvent::Recall),
    }
}

impl<A: Watcher, B: Watcher> Watcher for Both<A, B> {
    type Mark = (A::Mark, B::Mark);

    ghost hears = { λ old heard new. A.hears old.first heard new.first × B.hears old.second heard new.second };

    ghost marks = { λ mark done. A.marks mark.0 done × B.marks mark.1 done };

    fn listens(&self) -> bool {
        let first = self.first.listens();
        let second = self.second.listens();
        first || second
    }

    fn mark(&self, done: &Done) -> (A::Mark, B::Mark) {
        (self.first.mark(done), self.second.mark(done))
    }

    fn tell(&mut self, told: MadeEvent<(A::Mark, B::Mark)>, reply: &Reply, core: &Core)
        ensures { (event : Event)
            → TellsOf (λ mark done. A.marks mark.0 done × B.marks mark.1 done) told event
            → A.hears self.old.first (heard_of event (reply_seen reply.now) core.now) self.new.first
            × B.hears self.old.second (heard_of event (reply_seen reply.now) core.now) self.new.second }
    {
        let (first, second) = parted::<A, B>(told);
        self.first.tell(first, reply, core);
        self.second.tell(second, reply, core);
    }
}

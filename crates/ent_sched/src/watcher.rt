//! Who is told of the events of a core.
ghost use Rattle.std.specs.Prelude.{◌≡◌, false};
ghost use Rattle.ent_core.specs.Reply.{reply_seen};
ghost use Rattle.ent_protocol.specs.Event.{Event};
ghost use Rattle.ent_protocol.specs.Job as jobs;
ghost use Rattle.ent_sched.specs.Watching.{Heard, TellsOf, heard_of};

use ent_core::{Core, Reply};
use ent_eval::Done;
use ent_group::Tx;

/// An event that was made. A result that was handed in is gone then; what is left of it is the mark that the watcher
/// made of it before.
#[derive(Drop)]
pub enum MadeEvent<M> {
    StartRun,
    Begin(Tx),
    Finish(M),
    Pick,
    JoinAnswer(M),
    BreakCycle,
    EndRun,
    Recall,
}

/// Is told each event of a core with its reply, as soon as it was made, and sees the core then. Contracts see of it
/// what it hears: how it may be behind an event, its reply and the state that these led to, from how it was before.
pub trait Watcher {
    /// What is kept of a result while it is handed in.
    type Mark: Drop;

    ghost hears: { Self → Heard → Self → Type 0 };

    ghost marks: { Self.Mark → jobs.Done → Type 0 };

    /// Whether it wants to be told. One that doesn't hears of any event without a change, and needn't be told of it.
    fn listens(&self) -> bool
        ensures { result ≡ false → (heard : Heard) → hears self.now heard self.now };

    /// A mark of a result that is about to be handed in.
    fn mark(&self, done: &Done) -> Self::Mark
        ensures { marks result done.now };

    /// An event was made, and replied to so, which left the core as it is now. It can't fail; a watcher that may has
    /// its own mark of that.
    fn tell(&mut self, told: MadeEvent<Self::Mark>, reply: &Reply, core: &Core)
        ensures { (event : Event)
            → TellsOf marks told event
            → hears self.old (heard_of event (reply_seen reply.now) core.now) self.new };
}

/// The watcher that wants to be told nothing.
#[derive(Clone, Copy, Debug)]
pub struct Silent;

impl Watcher for Silent {
    type Mark = ();

    ghost hears = { λ old heard new. new ≡ old };

    ghost marks = { λ mark done. Unit {0} };

    fn listens(&self) -> bool {
        false
    }

    fn mark(&self, _done: &Done) {}

    fn tell(&mut self, _told: MadeEvent<()>, _reply: &Reply, _core: &Core)
        ensures { self.new ≡ self.old }
    {}
}

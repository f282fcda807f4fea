//! What is asked of a core.
use ent_eval::Done;
use ent_group::Tx;
use ent_tree::Script;

/// What is asked of a core.
#[derive(Drop)]
pub enum Event {
    /// A script is handed in.
    Submit(Script),
    /// A run starts.
    StartRun,
    /// The member of this number begins its next statement, or ends.
    Begin(Tx),
    /// The result of a statement comes in.
    Finish(Done),
    /// A component is picked, to be answered together.
    Pick,
    /// The result of a component's statements comes in.
    JoinAnswer(Done),
    /// A deadlock is looked for, and broken.
    BreakCycle,
    /// The run ends.
    EndRun,
    /// No job is lent any more.
    Recall,
}

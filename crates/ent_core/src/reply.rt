//! What a core replies to an event.
use crate::packed_members::PackedMembers;
use ent_eval::Done;
use ent_form::FormFault;
use ent_group::Tx;
use ent_job::Job;
use ent_match::Unsafe;
use ent_semantics::{Answer, Failure};
use ent_tree::{Boxed, Script};
use ent_waits::Reason;

/// What a core replies to an event. After a refusal the core is as it was, and what was handed in comes back.
#[derive(Drop)]
pub enum Reply {
    /// The number of the script that was submitted.
    Submitted(u64),
    /// The members of the run that starts, by number.
    Started(PackedMembers),
    /// The least member that holds a use in conflict with one of those that are asked for.
    Blocked(Tx),
    /// A job, whose result is to come back.
    Lent(Job),
    /// The statement isn't posted, since a post of the pool would have heads of two statements.
    HeldBack(Unsafe),
    /// The statement is in the pool.
    Posted,
    /// The member waits for the others of its group.
    Prepared,
    /// The group committed: these members, in order of preparing, the first of them with this number in the journal
    /// and the others with the next ones.
    Committed { first: u64, members: PackedMembers },
    /// The group is rolled back: these members, by number.
    RolledBack(PackedMembers),
    /// The answer of the statement; its member is at the next one.
    Stepped(Answer),
    /// The statement can't be carried out; the group, these members by number, is rolled back.
    Failed(Failure, PackedMembers),
    /// No component is there to be picked.
    Nothing,
    /// The members of the joint job have their answers.
    Answered,
    /// The statements of the joint job have no coordinating choice.
    NoChoice,
    /// A deadlock, and the group of its first member, by number, which is rolled back.
    Broken(PackedMembers, PackedMembers),
    /// There is no deadlock.
    NoCycle,
    /// The run ended; these were its members, by number.
    Ended(PackedMembers),
    /// No job is lent any more.
    Recalled,
    /// E401: it is not there, no such member of the run, or no transaction for a run.
    Absent,
    /// E402: not at this time.
    NotNow,
    /// E403: the result isn't of a job that is lent, or its statements are no component now.
    Stale(Done),
    /// E404: the run can't end yet.
    Busy(Boxed<Reason>),
    /// E406: as many scripts as there may be were submitted before.
    Full(Script),
    /// The script has a fault of form, its first; the fault has its own number.
    Faulty(Script, FormFault),
}

//! A member as it is in a run.
ghost use Rattle.std.specs.Prelude.{◌≡◌, MatchOption};
ghost use Rattle.ent_group.specs.Groups.{group_of};
ghost use Rattle.ent_members.specs.Conflict.{IsConflict, NoConflict};
ghost use Rattle.ent_members.specs.InRun.{AreByNumber, in_run, label_or};

use crate::conflict::{Conflict, first_conflict};
use crate::progress::Progress;
use crate::table_use::Use;
use ent_closing::Environment;
use ent_group::{Groups, Tx};
use ent_lock::LockTable;
use ent_semantics::Answer;
use std::marker::Model;

/// A member of the present run: what it has itself, the locks that the run's lock table shows for it, and the label of
/// its group. It owns nothing.
#[derive(Drop)]
pub struct RunMember<'a> {
    own: &'a Progress,
    locks: &'a LockTable<usize>,
    groups: &'a Groups,
}

impl<'a> Model for RunMember<'a> {
    ghost use Rattle.ent_protocol.specs.State.{Member as Seen};
    ghost use Rattle.ent_members.specs.InRun.{AreByNumber, in_run};

    ghost Value = { Seen };

    ghost view = { λ m. in_run m.locks.now m.groups.now m.own.now };

    ghost invariant = { λ m. AreByNumber m.locks.now };
}

/// The label of a transaction's group; its own number, where it is in none.
pub fn label_in(groups: &Groups, tx: Tx) -> Tx
    ensures { result ≡ label_or tx (group_of groups.now tx) }
{
    match groups.group_of(tx) {
        Some(group) => group,
        None => tx,
    }
}

impl<'a> RunMember<'a> {
    /// A member of a run with this lock table and these groups.
    pub fn new(own: &'a Progress, locks: &'a LockTable<usize>, groups: &'a Groups) -> Self
        requires { AreByNumber locks.now }
        ensures { result ≡ in_run locks.now groups.now own.now }
    {
        RunMember { own, locks, groups }
    }

    pub fn tx(&self) -> Tx
        ensures { result ≡ self.now.tx }
    {
        self.own.tx()
    }

    /// The runs that it took part in, this one counted.
    pub fn attempt(&self) -> u64
        ensures { result ≡ self.now.attempt }
    {
        self.own.attempt()
    }

    /// The label of its group: members of one label are of one group.
    pub fn group(&self) -> Tx
        ensures { result ≡ self.now.group }
    {
        label_in(self.groups, self.own.tx())
    }

    /// The number of its next statement, from 1.
    pub fn place(&self) -> usize
        ensures { result ≡ self.now.place }
    {
        self.own.place()
    }

    /// What its host variables are bound to.
    pub fn environment(&self) -> &'a Environment
        ensures { result.now ≡ self.now.bound }
    {
        self.own.environment()
    }

    /// The answers of its statements so far.
    pub fn answers(&self) -> &'a [Answer]
        ensures { result.now ≡ self.now.answers }
    {
        self.own.answers()
    }

    /// Whether its next statement is in the pool.
    pub fn is_posted(&self) -> bool
        ensures { result ≡ self.now.posted }
    {
        self.own.is_posted()
    }

    /// The first of the uses that are asked for which is in conflict with one that it holds, with the first such that
    /// it holds. It takes no memory.
    pub fn first_conflict(&self, asked: &[Use]) -> Option<Conflict>
        ensures { MatchOption result (NoConflict asked.now self.now.uses) (IsConflict asked.now self.now.uses) }
    {
        first_conflict(self.locks, self.own.tx(), asked)
    }
}

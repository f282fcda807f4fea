//! The feed: the groups that are kept.
ghost use Rattle.std.specs.Prelude.{◌≡◌, ◌∷◌, ◌++◌, ◌+◌, ◌<◌, ◌^◌, ◌-◌, [], IfErr, OnErr, OnOk, length, min};
ghost use Rattle.ent_value.specs.declared.refusal.Refusal.TheVariants.{Fault};
ghost use Rattle.ent_feed.specs.Feed.{behind, from};
ghost use Rattle.ent_feed.specs.Group.{AreNumbered};

use crate::group::Group;
use ent_value::Refusal;
use std::alloc::{AllocError, Global};
use std::marker::Model;

/// The next group has the greatest number that there is.
#[derive(Clone, Copy, Debug, PartialEq, Eq)]
pub struct NoNumber;

/// The groups that weren't settled yet, in order of their numbers, each of which is one more than the one before.
#[derive(Drop)]
pub struct Feed {
    first: u64,
    next: u64,
    groups: Vec<Group>,
}

impl Model for Feed {
    ghost use Rattle.std.specs.Coded.{codes};
    ghost use Rattle.ent_feed.specs.Feed.{Feed};
    ghost use Rattle.ent_feed.specs.Group.{AreNumbered};

    ghost Value = { Feed };

    ghost view = { λ f. record { first = f.first; next = f.next; groups = f.groups.items } };

    ghost invariant = { λ f. AreNumbered f.first f.groups.items f.next };
}

impl Feed {
    /// A feed of no group, whose first one will have this number. It takes no memory.
    pub fn new(alloc: Global, next: u64) -> Self
        ensures { result ≡ record { first = next; next = next; groups = [] } }
    {
        Feed {
            first: next,
            next,
            groups: Vec::new(alloc),
        }
    }

    /// The number of the next group.
    pub fn next(&self) -> u64
        ensures { result ≡ self.now.next }
    {
        self.next
    }

    /// The groups from a number on that are kept, in order of their numbers.
    pub fn from(&self, number: u64) -> &[Group]
        ensures groups { result.now ≡ from number self.now.groups }
        ensures numbered { AreNumbered self.now.first self.now.groups self.now.next }
    {
        let skipped = self.skipped(number);
        &self.groups[skipped..]
    }

    /// How many of the groups that are kept have a number below this one.
    fn skipped(&self, number: u64) -> usize
        ensures { result ≡ min (number - self.now.first) (length self.now.groups) }
    {
        let below = number.saturating_sub(self.first);
        if below < self.groups.len() as u64 {
            below as usize
        } else {
            self.groups.len()
        }
    }

    /// How many of the groups that are kept have this number, or one below it.
    fn settled(&self, number: u64) -> usize
        ensures { result ≡ min (number + 1 - self.now.first) (length self.now.groups) }
    {
        let next = self.next;
        if next <= number {
            return self.groups.len();
        }
        self.skipped(number + 1)
    }

    /// Takes the next group in. At a refusal nothing changes.
    pub fn push(&mut self, group: Group) -> Result<(), Refusal<NoNumber>>
        requires { group.number ≡ self.old.next }
        ensures groups { OnOk result (self.new.groups ≡ self.old.groups ++ group ∷ []) }
        ensures next { OnOk result (self.new.next ≡ self.old.next + 1) }
        ensures first { self.new.first ≡ self.old.first }
        ensures err { OnErr result (self.new ≡ self.old) }
        ensures no_number { IfErr result (λ refusal. refusal ≡ Fault (record {}) → self.old.next + 1 ≡ 2 ^ 64) }
    {
        let Some(next) = self.next.checked_add(1) else {
            return Err(Refusal::Fault(NoNumber));
        };
        self.groups.push(group)?;
        self.next = next;
        Ok(())
    }

    /// Takes in groups that count on from the next number. Where memory runs out nothing changes.
    pub fn append(&mut self, groups: Vec<Group>) -> Result<(), AllocError>
        requires numbered { AreNumbered self.old.next groups.items (self.old.next + length groups.items) }
        requires fits { self.old.next + length groups.items < 2 ^ 64 }
        ensures ok { OnOk result (self.new ≡ record self.old {
          next = self.old.next + length groups.items;
          groups = self.old.groups ++ groups.items;
        }) }
        ensures err { OnErr result (self.new ≡ self.old) }
    {
        let count = groups.len() as u64;
        let mut groups = groups;
        self.groups.append(&mut groups)?;
        self.next += count;
        Ok(())
    }

    /// Keeps the groups up to this number no longer: they stand elsewhere.
    pub fn settled_through(&mut self, number: u64)
        ensures groups { self.new.groups ≡ behind number self.old.groups }
        ensures next { self.new.next ≡ self.old.next }
    {
        let settled = self.settled(number);
        let kept = self.groups.len() - settled;
        self.groups.rotate_left(settled);
        self.groups.truncate(kept);
        self.first += settled as u64;
    }
}

//! A member that asks for uses, and whom it passes.
ghost use Rattle.std.specs.Prelude.{◌≡◌, ℕ, Contains};
ghost use Rattle.ent_protocol.specs.State.{Member as Seen};
ghost use Rattle.ent_run.specs.Passing.{asker_of, passes};

use crate::member_list::MemberList;
use crate::search::is_among_from;
use ent_group::{Groups, Tx};
use ent_members::{RunMember, label_in};
use std::marker::Model;

/// A member that asks for uses, beside the members that are prepared. It passes those of its group among them, and
/// itself, if it isn't one of them.
#[derive(Drop)]
pub(crate) struct Asker<'a> {
    prepared: MemberList<'a>,
    groups: &'a Groups,
    /// The label of its group; any number, if nobody is prepared.
    group: Tx,
    tx: Tx,
}

impl<'a> Model for Asker<'a> {
    ghost use Rattle.ent_run.specs.Passing.{Asker as Seen};

    ghost Value = { Seen };

    ghost view = { λ a. record {
      prepared = a.prepared;
      groups = a.groups.now;
      group = a.group;
      tx = a.tx;
    } };
}

/// The label of a member's group, or any number, if nobody is prepared: then it is of no use, and takes no search.
fn label_beside(prepared: &MemberList, asker: &RunMember) -> Tx
    ensures { (other : Seen) → Contains prepared.now other → result ≡ asker.now.group }
{
    if prepared.is_empty() {
        asker.tx()
    } else {
        asker.group()
    }
}

impl<'a> Asker<'a> {
    /// A member that asks.
    pub(crate) fn new(asker: &RunMember, prepared: MemberList<'a>, groups: &'a Groups) -> Self
        ensures { (holder : ℕ) → passes result holder ≡ passes (asker_of asker.now prepared.entry groups.now) holder }
    {
        let group = label_beside(&prepared, asker);
        Asker {
            prepared,
            groups,
            group,
            tx: asker.tx(),
        }
    }

    /// Whether it passes a member of a number. Those of the prepared members mostly come in their order, so the next of
    /// them is tried first.
    pub(crate) fn passes(&self, holder: Tx, next: &mut usize) -> bool
        ensures { result ≡ passes self.now holder }
    {
        if is_among_from(&self.prepared, holder, next) {
            label_in(self.groups, holder) == self.group
        } else {
            holder == self.tx
        }
    }
}

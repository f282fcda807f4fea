//! Whether members are of a group, and members that are taken out for good.
ghost use Rattle.std.specs.Prelude.{◌≡◌, ◌≢◌, ◌+◌, ◌<◌, ◌≤◌, ◌++◌, ◌∷◌, [], ℕ, Contains, filter, is_some, length};
ghost use Rattle.std.specs.Prelude.{nat_eq};
ghost use Rattle.std.specs.List.{IsDistinct};
ghost use Rattle.std.specs.Vec.{vec_capacity, vec_len};
ghost use Rattle.slab.specs.Slab.{ContainsKey, get as value_at};
ghost use Rattle.ent_run.specs.InRuns.{is_labelled, is_otherwise_labelled};
ghost use Rattle.ent_run.specs.Moves.{is_not_of};
ghost use Rattle.ent_run.specs.UnderKeys.{AreThere, if_passing, member_under, members_under};

use ent_group::{Groups, Members, Tx};
use ent_members::{Progress, label_in};
use slab::Slab;

/// Whether a member is of the group with a label.
pub(crate) fn is_labelled(groups: &Groups, group: Tx, member: &Progress) -> bool
    ensures { result ≡ is_labelled groups.now group member.now }
{
    label_in(groups, member.tx()) == group
}

/// The members of these numbers leave the slab.
pub(crate) fn remove(live: &mut Slab<Progress>, numbers: &Members)
    ensures { (key : ℕ) → value_at live.new key ≡ if_passing (is_not_of numbers.now) (value_at live.old key) }
{
    live.retain(|_key, member| !numbers.contains(member.tx()));
}

/// If the member under a key is of the group with a label, it leaves the slab and comes to others, which have room.
fn take_one(
    live: &mut Slab<Progress>,
    key: usize,
    groups: &Groups,
    group: Tx,
    taken: &mut Vec<Progress>,
)
    requires there { ContainsKey live.old key }
    requires room { vec_len taken.old < vec_capacity taken.old }
    ensures taken { taken.new.items
        ≡ taken.old.items ++ filter (is_labelled groups.now group) (member_under live.old key ∷ []) }
    ensures own { value_at live.new key
        ≡ if_passing (is_otherwise_labelled groups.now group) (value_at live.old key) }
    ensures others { (other : ℕ) → other ≢ key → value_at live.new other ≡ value_at live.old other }
    ensures len { vec_len taken.new ≤ vec_len taken.old + 1 }
    ensures capacity { vec_capacity taken.new ≡ vec_capacity taken.old }
{
    if is_labelled(groups, group, &live[key]) {
        let member = live.remove(key);
        taken.push_reserved(member);
    }
}

/// The members of the group with a label, of those under these keys, leave the slab in this order, and come to others;
/// there is room for them.
pub(crate) fn take_group(
    live: &mut Slab<Progress>,
    keys: &[usize],
    groups: &Groups,
    group: Tx,
    taken: &mut Vec<Progress>,
)
    requires there { AreThere live.old keys.now }
    requires distinct { IsDistinct nat_eq keys.now }
    requires room { vec_len taken.old + length keys.now ≤ vec_capacity taken.old }
    ensures taken { taken.new.items
        ≡ taken.old.items ++ filter (is_labelled groups.now group) (members_under live.old keys.now) }
    ensures listed { (key : ℕ) → Contains keys.now key
        → value_at live.new key ≡ if_passing (is_otherwise_labelled groups.now group) (value_at live.old key) }
    ensures others { (key : ℕ) → ¬ Contains keys.now key → value_at live.new key ≡ value_at live.old key }
    ensures fewer { (key : ℕ) → ContainsKey live.new key → ContainsKey live.old key }
{
    let Some((first, rest)) = keys.split_first() else {
        return;
    };
    take_one(live, *first, groups, group, taken);
    take_group(live, rest, groups, group, taken);
}

/// The keys stay that have a member.
pub(crate) fn keep_there(keys: &mut Vec<usize>, live: &Slab<Progress>)
    ensures { keys.new.items ≡ filter (λ key. is_some (value_at live.now key)) keys.old.items }
{
    keys.retain(|key| live.get(*key).is_some());
}

//! Members that wait for each other in a cycle.
ghost use Rattle.std.specs.Prelude.{◌≡◌, ℕ, ◌+◌, ◌≤◌, ◌++◌, length, IfSome, IsNone, false};
ghost use Rattle.std.specs.List.{flat_map};
ghost use Rattle.ent_group.specs.Cycle.{NamesAtMost};
ghost use Rattle.ent_protocol.specs.State.{State};
ghost use Rattle.ent_protocol.specs.Waits.{IsDeadlock, NoDeadlock};
ghost use Rattle.ent_waits.specs.Waits.{gathered, pair_if_awaited, pairs_while_waiting, state_with};

use crate::cycle_search::may_have_cycle;
use crate::next_uses::next_uses;
use crate::pairs::{MOST_PAIRS, Pairs};
use crate::rows::rows_of;
use crate::waiting::is_waiting;
use ent_group::{MOST_MEMBERS, Members, cycle};
use ent_job::Job;
use ent_members::{RunMember, SubmittedScript, Use};
use ent_run::{Run, awaited_members_are_waited_for};

/// A cycle of members that wait for each other: each waits for the next, and the last for the first. The first is the
/// greatest transaction that stands on any cycle. There is none where nobody waits in a cycle. It takes no memory.
pub fn deadlock(run: &Run, submitted: &[SubmittedScript], lent: &[Job]) -> Option<Members>
    ensures found { (s : State) → IfSome result (IsDeadlock (state_with run.now submitted.now lent.now s)) }
    ensures none { (s : State) → IsNone result → NoDeadlock (state_with run.now submitted.now lent.now s) }
{
    if may_wait_on_cycle(run, submitted, lent) {
        greatest_cycle(run, submitted, lent)
    } else {
        None
    }
}

/// Whether members may wait in a cycle. Where this says no, which is quick, nobody does.
fn may_wait_on_cycle(run: &Run, submitted: &[SubmittedScript], lent: &[Job]) -> bool
    ensures { (s : State) → result ≡ false → NoDeadlock (state_with run.now submitted.now lent.now s) }
{
    awaited_members_are_waited_for();
    let count = run.active_len();
    let rows = rows_of(run, submitted, lent);
    may_have_cycle(&rows[..count])
}

/// The cycle as [`deadlock`] answers it, by all pairs of who waits and for whom. It has the room of these pairs to
/// itself: most looks end before.
#[inline(never)]
fn greatest_cycle(run: &Run, submitted: &[SubmittedScript], lent: &[Job]) -> Option<Members>
    ensures found { (s : State) → IfSome result (IsDeadlock (state_with run.now submitted.now lent.now s)) }
    ensures none { (s : State) → IsNone result → NoDeadlock (state_with run.now submitted.now lent.now s) }
{
    awaited_members_are_waited_for();
    let pairs = pairs_of(run, submitted, lent);
    cycle(pairs.as_slice())
}

/// Who waits for whom. Only members are named.
fn pairs_of(run: &Run, submitted: &[SubmittedScript], lent: &[Job]) -> Pairs
    ensures pairs { result ≡ gathered run.now submitted.now lent.now }
    ensures names { NamesAtMost MOST_MEMBERS result }
{
    let mut pairs = Pairs::new();
    for place in 0..run.active_len() {
        let asker = run.at(place);
        push_pairs(&mut pairs, run, submitted, lent, &asker);
    }
    pairs
}

/// Puts in whom a member waits for, while it waits.
fn push_pairs(
    pairs: &mut Pairs,
    run: &Run,
    submitted: &[SubmittedScript],
    lent: &[Job],
    asker: &RunMember,
)
    requires { length pairs.old + length run.now.active ≤ MOST_PAIRS }
    ensures pairs { pairs.new ≡ pairs.old ++ pairs_while_waiting run.now submitted.now lent.now asker.now }
    ensures bound { length pairs.new ≤ length pairs.old + length run.now.active }
{
    if is_waiting(lent, asker) {
        push_awaited(pairs, run, asker, next_uses(submitted, asker).as_slice());
    }
}

/// Puts in whom a member that asks for uses waits for.
fn push_awaited(pairs: &mut Pairs, run: &Run, asker: &RunMember, asked: &[Use])
    requires { length pairs.old + length run.now.active ≤ MOST_PAIRS }
    ensures pairs { pairs.new ≡ pairs.old ++ flat_map (pair_if_awaited run.now asker.now asked.now) run.now.active }
    ensures bound { length pairs.new ≤ length pairs.old + length run.now.active }
{
    for place in 0..run.active_len() {
        let other = run.at(place);
        push_pair(pairs, run, asker, asked, &other);
    }
}

/// Puts in the pair of a member and another, where it waits for that one.
fn push_pair(pairs: &mut Pairs, run: &Run, asker: &RunMember, asked: &[Use], other: &RunMember)
    requires { length pairs.old + 1 ≤ MOST_PAIRS }
    ensures pairs { pairs.new ≡ pairs.old ++ pair_if_awaited run.now asker.now asked.now other.now }
    ensures bound { length pairs.new ≤ length pairs.old + 1 }
{
    if run.awaits(asker, asked, other) {
        pairs.push((asker.tx(), other.tx()));
    }
}

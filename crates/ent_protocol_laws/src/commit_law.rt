//! Laws of commits. What holds is in the contracts; the bodies only call laws of lower crates.
ghost use Rattle.std.specs.Prelude.{◌≡◌, ◌≤◌, ℕ, ◌+◌, List, false, length};
ghost use Rattle.ent_group.specs.declared.members.TheConstants.{MOST_MEMBERS};
ghost use Rattle.ent_protocol.specs.Event.{Committed, Event, Reply};
ghost use Rattle.ent_protocol.specs.Play.{Plays};
ghost use Rattle.ent_protocol.specs.Reached.{IsReached, settled};
ghost use Rattle.ent_protocol.specs.Run.{Forms};
ghost use Rattle.ent_protocol.specs.State.{State, members};
ghost use Rattle.ent_protocol.specs.Step.{Step};
ghost use Rattle.ent_protocol_laws.specs.Faithful.{AreFaithful};
ghost use Rattle.ent_protocol_laws.specs.Commits.{GoesOnBy, NoneStarts, StartsAtMostFirst, commits_in, committed_by};
ghost use Rattle.ent_protocol_laws.specs.Commits.{entries_in, is_commit};

use crate::{steps_go_on, transactions_stand_once};
use ent_semantics::{closing_keeps_the_meaning, runs_go_on, statements_keep_to_their_uses};

/// Each commit takes at least one member out of the run. Over events that start no run, the commits and the members
/// that are left are together at most the members before. From a reached state, if only the first event may start a
/// run, there are at most as many commits as a run may have members.
pub fn commits_take_members<F>()
    ensures within { (forms : Forms F) (s last : State) (told : List (Event × Reply F))
        → Plays forms s told last
        → NoneStarts told
        → commits_in told + length (members last) ≤ length (members s) }
    ensures of_run { (forms : Forms F) (s last : State) (told : List (Event × Reply F))
        → IsReached forms s
        → Plays forms s told last
        → StartsAtMostFirst told
        → commits_in told ≤ MOST_MEMBERS }
{
    steps_go_on::<F>();
    transactions_stand_once::<F>();
}

/// The journal goes on by the entries of commits, of which each has one at least, with the numbers that the replies
/// give; and by nothing else.
pub fn journals_grow_by_commits<F>()
    ensures one { (forms : Forms F) (s : State) (event : Event) (reply : Reply F) (new : State)
        → Step forms s event reply new
        → GoesOnBy s new (committed_by reply) }
    ensures some { (forms : Forms F) (s : State) (event : Event) (entries : List (ℕ × ℕ)) (new : State)
        → Step forms s event (Committed entries) new
        → 1 ≤ length entries }
    ensures all { (forms : Forms F) (s last : State) (told : List (Event × Reply F))
        → Plays forms s told last
        → GoesOnBy s last (entries_in told) }
{}

/// Only a commit changes the settled tables: every other event of a reached state leaves each of them as it was.
pub fn only_commits_settle_tables<F>()
    ensures one { (forms : Forms F) (s : State) (event : Event) (reply : Reply F) (new : State)
        → AreFaithful forms s.opening
        → IsReached forms s
        → Step forms s event reply new
        → is_commit reply ≡ false
        → settled new ≡ settled s }
    ensures all { (forms : Forms F) (s last : State) (told : List (Event × Reply F))
        → AreFaithful forms s.opening
        → IsReached forms s
        → Plays forms s told last
        → commits_in told ≡ 0
        → settled last ≡ settled s }
{
    statements_keep_to_their_uses();
    runs_go_on();
    closing_keeps_the_meaning();
    steps_go_on::<F>();
}

//! Those who leave a run get their fates, or go to the end of those who wait.
ghost use Rattle.std.specs.Prelude.{◌≡◌, ◌+◌, ◌≤◌, ◌<◌, ◌^◌, ◌++◌, ◌∷◌, [], length, map, nat_eq, reverse};
ghost use Rattle.std.specs.List.{AllByRecursion, IsDistinct, filter_map};
ghost use Rattle.ent_members.specs.RunAttempts.{numbers_in};
ghost use Rattle.ent_protocol.specs.Commit.{commit_fates};
ghost use Rattle.ent_protocol.specs.Rollback.{dormant_by, fated_by};
ghost use Rattle.ent_members.specs.ByNumber.{IsNumbered};
ghost use Rattle.ent_members.specs.Cause.{cause_seen};
ghost use Rattle.ent_members.specs.Leaving.{IsWithin, as_member};
ghost use Rattle.ent_members.specs.TransactionTable.{IsAway};

use crate::cause::{Cause, fate_of};
use crate::transaction_table::TransactionTable;
use crate::{Entrant, Progress, RunAttempt, SubmittedScript};
use ent_semantics::{Fate, Fated};

/// One who leaves gets its fate, or waits before the others.
fn leave_one(
    table: &mut TransactionTable,
    run_attempt: RunAttempt,
    submitted: &[SubmittedScript],
    cause: Cause,
)
    requires room { length table.old.dormant + length table.old.fates < table.old.known }
    requires away { IsAway run_attempt.tx table.old }
    requires within { IsWithin submitted.now run_attempt }
    ensures dormant { table.new.dormant
        ≡ filter_map (λ own. dormant_by submitted.now (cause_seen cause) (as_member own)) (run_attempt ∷ [])
        ++ table.old.dormant }
    ensures fates { table.new.fates ≡ table.old.fates
        ++ filter_map (λ own. fated_by submitted.now (cause_seen cause) (as_member own)) (run_attempt ∷ []) }
    ensures known { table.new.known ≡ table.old.known }
    ensures room { length table.new.dormant + length table.new.fates
        ≤ length table.old.dormant + length table.old.fates + 1 }
{
    match fate_of(submitted, cause, run_attempt) {
        Some(fate) => table.finish(Fated {
            tx: run_attempt.tx,
            fate,
        }),
        None => table.wait_first(Entrant::new(run_attempt.tx, run_attempt.attempt)),
    }
}

/// Each who leaves gets its fate, or waits before the others, the last of them first.
fn leave_each(
    table: &mut TransactionTable,
    run_attempts: &[RunAttempt],
    submitted: &[SubmittedScript],
    cause: Cause,
)
    requires room { length table.old.dormant + length table.old.fates + length run_attempts.now ≤ table.old.known }
    requires numbers { AllByRecursion (λ own. IsNumbered table.old.known own.tx) run_attempts.now }
    requires within { AllByRecursion (IsWithin submitted.now) run_attempts.now }
    requires awake { IsDistinct nat_eq (map (λ own. own.tx) table.old.dormant ++ numbers_in run_attempts.now) }
    requires unfinished { IsDistinct nat_eq (map (λ fated. fated.tx) table.old.fates ++ numbers_in run_attempts.now) }
    ensures dormant { table.new.dormant
        ≡ reverse (filter_map (λ own. dormant_by submitted.now (cause_seen cause) (as_member own)) run_attempts.now)
        ++ table.old.dormant }
    ensures fates { table.new.fates ≡ table.old.fates
        ++ filter_map (λ own. fated_by submitted.now (cause_seen cause) (as_member own)) run_attempts.now }
    ensures known { table.new.known ≡ table.old.known }
{
    let Some((first, rest)) = run_attempts.split_first() else {
        return;
    };
    leave_one(table, *first, submitted, cause);
    leave_each(table, rest, submitted, cause);
}

/// Each who leaves gets its fate, or goes to the end of the dormant list.
pub(crate) fn leave(
    table: &mut TransactionTable,
    run_attempts: &[RunAttempt],
    submitted: &[SubmittedScript],
    cause: Cause,
)
    requires room { length table.old.dormant + length table.old.fates + length run_attempts.now ≤ table.old.known }
    requires numbers { AllByRecursion (λ own. IsNumbered table.old.known own.tx) run_attempts.now }
    requires within { AllByRecursion (IsWithin submitted.now) run_attempts.now }
    requires awake { IsDistinct nat_eq (map (λ own. own.tx) table.old.dormant ++ numbers_in run_attempts.now) }
    requires unfinished { IsDistinct nat_eq (map (λ fated. fated.tx) table.old.fates ++ numbers_in run_attempts.now) }
    ensures dormant { table.new.dormant ≡ table.old.dormant
        ++ filter_map (λ own. dormant_by submitted.now (cause_seen cause) (as_member own)) run_attempts.now }
    ensures fates { table.new.fates ≡ table.old.fates
        ++ filter_map (λ own. fated_by submitted.now (cause_seen cause) (as_member own)) run_attempts.now }
    ensures known { table.new.known ≡ table.old.known }
{
    let others = table.dormant_len();
    leave_each(table, run_attempts, submitted, cause);
    let back = table.dormant_len() - others;
    table.put_behind(back);
}

/// Each who commits gets its fate, the first with this number.
pub(crate) fn commit(table: &mut TransactionTable, number: u64, members: &[Progress])
    requires room { length table.old.dormant + length table.old.fates + length members.now ≤ table.old.known }
    requires numbers { AllByRecursion (λ member. IsNumbered table.old.known member.tx) members.now }
    requires places { number + length members.now < 2 ^ 64 }
    ensures { table.new ≡ record table.old { fates = table.old.fates ++ commit_fates number members.now } }
{
    let Some((first, rest)) = members.split_first() else {
        return;
    };
    table.finish(Fated {
        tx: first.tx(),
        fate: Fate::Committed {
            number,
            runs: first.attempt(),
        },
    });
    commit(table, number + 1, rest);
}

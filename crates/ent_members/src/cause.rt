//! What becomes of those who leave a run.
ghost use Rattle.std.specs.Prelude.{◌≡◌, ◌<◌, IsNone, false};
ghost use Rattle.ent_tree.specs.declared.limits.TheConstants.{MOST_RUNS};
ghost use Rattle.ent_protocol.specs.Rollback.{fate_of, is_last_run, own_fate};
ghost use Rattle.ent_members.specs.Cause.{cause_seen};
ghost use Rattle.ent_members.specs.Leaving.{IsWithin, as_member};

use crate::{RunAttempt, SubmittedScript, script_of};
use ent_group::Tx;
use ent_semantics::{Failure, Fate};

/// Why members are rolled back.
#[derive(Clone, Copy, Debug)]
pub enum Cause {
    /// For a partner's sake, or because the run ends.
    NoOne,
    /// The transaction of this number asked for it.
    Asked(Tx),
    /// A statement of the transaction of this number couldn't be carried out.
    Failing(Tx, Failure),
}

/// The fate that the cause gives one who leaves, where it is the one that asked or failed.
fn own_fate(cause: Cause, run_attempt: RunAttempt) -> Option<Fate>
    ensures { result ≡ own_fate (cause_seen cause) (as_member run_attempt) }
{
    match cause {
        Cause::NoOne => None,
        Cause::Asked(tx) => {
            if run_attempt.tx == tx {
                Some(Fate::RolledBack {
                    runs: run_attempt.attempt,
                })
            } else {
                None
            }
        }
        Cause::Failing(tx, failure) => {
            if run_attempt.tx == tx {
                Some(Fate::Failed {
                    failure,
                    runs: run_attempt.attempt,
                })
            } else {
                None
            }
        }
    }
}

/// Whether the runs that the script of one who leaves asks for are over.
fn is_last_run(submitted: &[SubmittedScript], run_attempt: RunAttempt) -> bool
    ensures last { result ≡ is_last_run submitted.now (as_member run_attempt) }
    ensures more { result ≡ false → IsWithin submitted.now run_attempt → run_attempt.attempt < MOST_RUNS }
{
    match script_of(submitted, run_attempt.tx) {
        Some(own) => run_attempt.attempt == own.within(),
        None => true,
    }
}

/// The fate of one who leaves; None where it goes on in another run.
pub(crate) fn fate_of(
    submitted: &[SubmittedScript],
    cause: Cause,
    run_attempt: RunAttempt,
) -> Option<Fate>
    ensures fate { result ≡ fate_of submitted.now (cause_seen cause) (as_member run_attempt) }
    ensures more { IsNone result → IsWithin submitted.now run_attempt → run_attempt.attempt < MOST_RUNS }
{
    if let Some(fate) = own_fate(cause, run_attempt) {
        return Some(fate);
    }
    if is_last_run(submitted, run_attempt) {
        return Some(Fate::GaveUp {
            runs: run_attempt.attempt,
        });
    }
    None
}

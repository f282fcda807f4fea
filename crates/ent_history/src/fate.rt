//! The line of a transaction: its number and its fate.
ghost use Rattle.std.specs.Prelude.{◌≡◌};
ghost use Rattle.ent_value.specs.Refusal.{Gives};
ghost use Rattle.ent_history.specs.Fates.{committed_at, failed_at, failure_at, fate_at, gave_up_at};
ghost use Rattle.ent_history.specs.Fates.{rolled_back_at, runs_at, transaction_at};

use ent_semantics::{Failure, Fate};
use ent_text::{LineFault, behind, number};
use ent_tree::MOST_RUNS;
use ent_value::Refusal;

/// How many runs, at the end of a line: 1 to [`MOST_RUNS`].
#[tactic(auto, unfolding(crate::specs::Fates::runs_at))]
fn runs(bytes: &[u8]) -> Result<u64, Refusal<LineFault>>
    ensures { Gives (λ runs. runs) result (runs_at bytes.now) }
{
    let rest = behind(b" after ", bytes)?;
    let (runs, end) = number(rest)?;
    if !end.is_empty() {
        return Err(Refusal::Fault(LineFault::Misfit));
    }
    if runs < 1 {
        return Err(Refusal::Fault(LineFault::Misfit));
    }
    if runs > MOST_RUNS {
        return Err(Refusal::Fault(LineFault::Misfit));
    }
    Ok(runs)
}

#[tactic(auto, unfolding(crate::specs::Fates::committed_at))]
fn committed(bytes: &[u8]) -> Result<Fate, Refusal<LineFault>>
    ensures { Gives (λ fate. fate) result (committed_at bytes.now) }
{
    let rest = behind(b"committed ", bytes)?;
    let (number, rest) = number(rest)?;
    let runs = runs(rest)?;
    Ok(Fate::Committed { number, runs })
}

#[tactic(auto, unfolding(crate::specs::Fates::gave_up_at))]
fn gave_up(bytes: &[u8]) -> Result<Fate, Refusal<LineFault>>
    ensures { Gives (λ fate. fate) result (gave_up_at bytes.now) }
{
    let rest = behind(b"gave up", bytes)?;
    let runs = runs(rest)?;
    Ok(Fate::GaveUp { runs })
}

#[tactic(auto, unfolding(crate::specs::Fates::rolled_back_at))]
fn rolled_back(bytes: &[u8]) -> Result<Fate, Refusal<LineFault>>
    ensures { Gives (λ fate. fate) result (rolled_back_at bytes.now) }
{
    let rest = behind(b"rolled back", bytes)?;
    let runs = runs(rest)?;
    Ok(Fate::RolledBack { runs })
}

/// Why it failed, and in how many runs it took part.
#[tactic(auto, unfolding(crate::specs::Fates::failure_at))]
fn failure(name: &[u8], failure: Failure, bytes: &[u8]) -> Result<Fate, Refusal<LineFault>>
    ensures { Gives (λ fate. fate) result (failure_at name.now failure bytes.now) }
{
    let rest = behind(name, bytes)?;
    let runs = runs(rest)?;
    Ok(Fate::Failed { failure, runs })
}

#[tactic(auto, unfolding(crate::specs::Fates::failed_at))]
fn failed(bytes: &[u8]) -> Result<Fate, Refusal<LineFault>>
    ensures { Gives (λ fate. fate) result (failed_at bytes.now) }
{
    if bytes.get(8).copied().unwrap_or(0) == b'1' {
        failure(b"failed F1", Failure::Overflow, bytes)
    } else {
        failure(b"failed F2", Failure::TableFull, bytes)
    }
}

/// What became of a transaction; its first letter tells.
#[tactic(auto, unfolding(crate::specs::Fates::fate_at))]
fn fate(bytes: &[u8]) -> Result<Fate, Refusal<LineFault>>
    ensures { Gives (λ fate. fate) result (fate_at bytes.now) }
{
    let first = bytes.get(0).copied().unwrap_or(0);
    if first == b'c' {
        committed(bytes)
    } else if first == b'g' {
        gave_up(bytes)
    } else if first == b'r' {
        rolled_back(bytes)
    } else {
        failed(bytes)
    }
}

/// The line of a transaction: its number, and what became of it. It has taken part in 1 to [`MOST_RUNS`] runs.
#[tactic(auto, unfolding(crate::specs::Fates::transaction_at))]
pub fn transaction(line: &[u8]) -> Result<(u64, Fate), Refusal<LineFault>>
    ensures { Gives (λ told. told) result (transaction_at line.now) }
{
    let rest = behind(b"tx ", line)?;
    let (tx, rest) = number(rest)?;
    let rest = behind(b" ", rest)?;
    let fate = fate(rest)?;
    Ok((tx, fate))
}

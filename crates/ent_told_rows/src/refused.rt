//! Shows that `run_rows` and `run_scenarios` say no. Each stored text is answered by itself; one row and one scenario
//! expect another answer. So both calls must be refused: the program writes what for, and fails where one isn't.
ghost use Rattle.std.specs.Prelude.{◌≡◌, IfOk, IsErr, OnOk};
ghost use Rattle.std.specs.String.{string_bytes};

use anyhow::{Context, Result, bail};
use ent_scenario_files::{run_rows, run_scenarios};
use std::alloc::Global;
use std::str;

/// Runs the rows and the scenarios of which one expects another answer, and writes what each call was refused for.
pub(crate) fn show_refusals(rt: &HostRuntime) -> Result<()> {
    let of_rows = run_rows(rt, "refused", same_row);
    tell_refusal(rt, "rows", of_rows)?;
    let of_scenarios = run_scenarios(rt, same_text);
    tell_refusal(rt, "scenarios", of_scenarios)
}

/// A row, as it is.
fn same_row(alloc: Global, input: &[u8]) -> Result<String>
    ensures { IfOk result (λ text. string_bytes text ≡ input.now) }
{
    let text = str::from_utf8(input).context("the row isn't UTF-8")?;
    same_text(alloc, text)
}

/// A text, as it is.
fn same_text(alloc: Global, text: &str) -> Result<String>
    ensures { IfOk result (λ copy. string_bytes copy ≡ text.now) }
{
    Ok(String::from_str(alloc, text)?)
}

/// Writes what a call was refused for. It is an error if it was content.
fn tell_refusal(rt: &HostRuntime, what: &str, outcome: Result<()>) -> Result<()>
    ensures refused { OnOk result (IsErr outcome) }
{
    let Err(refusal) = outcome else {
        bail!("the {what} aren't refused");
    };
    println!(rt; "the {what} are refused: {refusal:#}")?;
    Ok(())
}

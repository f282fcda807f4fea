//! Stored rows of what people are told: faults explained, reasons why transactions didn't commit, traces drawn. It
//! fails where something else is told of one than must be; and it shows that rows and scenarios that are wrong are
//! refused. With a word it tells of standard input: `fault` explains its fault, `reason` says why transactions didn't
//! commit, `draw` draws a trace, with the numbers of transactions behind the word.
#![tactic(auto)]

mod fault;
mod picture;
mod reason;
mod refused;
mod script;

use crate::fault::fault_told;
use crate::picture::{check_pictures, draw_input};
use crate::reason::reasons_told;
use crate::refused::show_refusals;
use anyhow::{Result, bail};
use ent_scenario_files::{run_rows, tell_row};
use std::env;

fn main(rt: HostRuntime) -> Result<()> {
    match env::args(&rt)?.nth(1) {
        None => check_all(&rt),
        Some(word) => tell(&rt, word.as_str()),
    }
}

/// Goes over all rows.
fn check_all(rt: &HostRuntime) -> Result<()> {
    run_rows(rt, "faults", fault_told)?;
    run_rows(rt, "reasons", reasons_told)?;
    check_pictures(rt)?;
    show_refusals(rt)
}

/// Tells of standard input what the word asks for.
fn tell(rt: &HostRuntime, word: &str) -> Result<()> {
    match word {
        "fault" => tell_row(rt, fault_told),
        "reason" => tell_row(rt, reasons_told),
        "draw" => draw_input(rt),
        _ => bail!("none of fault, reason, draw: {word}"),
    }
}

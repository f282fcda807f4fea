//! Plays scenarios of a core, of a driver, and of a room, which is a driver with a waiting room: an input, and lines of
//! events or calls. Without a word it goes over the stored ones and stops at the first reply that differs; with the word
//! `play` it reads one from standard input and writes the replies.
#![tactic(auto)]

mod close;
mod coming;
mod core_scenario;
mod driver_call;
mod driver_scenario;
mod event;
mod input;
mod line;
mod look_up;
mod out;
mod played;
mod reply;
mod room_call;
mod room_reply;
mod room_scenario;
mod room_stage;
mod rows;

use anyhow::{Context, Result};
use ent_scenario_files::run_scenarios;
use std::alloc::Global;

fn main(rt: HostRuntime) -> Result<()> {
    run_scenarios(&rt, replies)
}

/// The replies to a scenario: to events of a core; or to calls, of a room if the first one opens it, else of a driver.
fn replies(alloc: Global, text: &str) -> Result<String> {
    if let Some((input, events)) = core_scenario::parts(text) {
        return core_scenario::replies(alloc, input, events);
    }
    let (input, calls) = text
        .split_once("== calls\n")
        .context("there is no line == events or == calls")?;
    if calls.starts_with("open ") {
        room_scenario::replies(alloc, input, calls)
    } else {
        driver_scenario::replies(alloc, input, calls)
    }
}

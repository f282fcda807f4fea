//! Plays scenarios of tables, locks, groups, pools and choices: a line a call, the answer that is expected.
//! Without a word it goes over the stored ones and stops at the first reply that differs; with the word `play` it reads
//! one from standard input and writes the replies.
#![tactic(auto)]

mod atoms;
mod choice;
mod classes;
mod groups;
mod lists;
mod locks;
mod opening;
mod pool;
mod stage;
mod statement;
mod table;
mod undo;

use crate::stage::Stage;
use anyhow::Result;
use ent_scenario_files::{replies_of_parts, run_scenarios};
use std::alloc::Global;

/// The replies to a scenario's calls, a line each.
fn replies(alloc: Global, text: &str) -> Result<String> {
    replies_of_parts::<Stage>(alloc, text)
}

fn main(rt: HostRuntime) -> Result<()> {
    run_scenarios(&rt, replies)
}

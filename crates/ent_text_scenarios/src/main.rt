//! Plays scenarios of texts, statements, values, books and streams: a line a call, the answer that is expected.
//! Without a word it goes over the stored ones and stops at the first reply that differs; with the word `play` it reads
//! one from standard input and writes the replies.
#![tactic(auto)]

mod book;
mod counts;
mod entangled;
mod forms;
mod input;
mod prints;
mod resolved;
mod show;
mod stage;
mod streams;
mod tokens;
mod trees;
mod values;

use crate::stage::Stage;
use anyhow::Result;
use ent_scenario_files::{replies_of_parts, run_scenarios};
use std::alloc::Global;

/// The replies to a scenario's calls, a line each.
fn replies(alloc: Global, text: &str) -> Result<String> {
    replies_of_parts::<Stage>(alloc, text)
}

fn main(rt: HostRuntime) -> Result<()> {
    run_scenarios(&rt, replies)
}

//! Runs the command on machines that are made up for it, and stops at the first run that ends otherwise than it must:
//! over the worked rows and the examples, the longest input, and streams that fail.
#![tactic(auto)]

mod machine;
mod outcome;
mod rows;
mod streams;

use anyhow::Result;

fn main(rt: HostRuntime) -> Result<()> {
    rows::check_all(&rt, &rt)?;
    streams::check_all(&rt, &rt)
}

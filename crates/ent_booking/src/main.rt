//! A booking service whose clients come at different times: friends who want one flight, three who trade seats in a
//! ring, one whose partner never comes, and an ordinary buyer. Each has a thread and a session of its own, submits its
//! script, and waits for its fate; a thread of the service starts and ends the runs by the clock. What it prints is the
//! same whatever the schedule.
#![tactic(auto)]

mod client;
mod pace;
mod report;
mod roll;
mod service;
mod text;

use anyhow::{Context, Result};

fn main(rt: HostRuntime) -> Result<()> {
    let report = service::report(&rt, rt.alloc())?;
    print!(rt;
        "{}",
        String::from_utf8(report)
            .context("the report isn't UTF-8")?
            .as_str()
    )?;
    Ok(())
}

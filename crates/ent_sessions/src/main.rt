//! Sessions of a manager in threads: what gates hold, what a service does by itself, and a manager that goes on.
//!
//! Each check prints the same for every schedule:
//!
//! - sessions of two threads, each held at a gate until the other has come far enough; a manager that called the gate
//!   with the lock held would exceed the limit of polls. So a lent job waits at the gate with no lock held. A manager
//!   that took the lock behind the gate, for the evaluation, would go through all of this. And a job that is held at
//!   the gate is called back, and done by another session;
//! - a manager that is closed too early;
//! - a client that waits for 50 ms at most, and whose time runs out;
//! - a service that starts and ends its runs itself, and whose clients come at different times and wait for their
//!   fates; one event gives up three of them, and each is told;
//! - a manager that goes on where its book ends.
#![tactic(auto)]

mod close;
mod friends;
mod gates;
mod hold;
mod ledgers;
mod limit;
mod meet;
mod paced;
mod recall;
mod renewal;

use crate::ledgers::{Check, run};
use anyhow::{Context, Result};

/// All that is checked, in order.
const ALL: [Check; 9] = [
    Check::Hold,
    Check::Meet,
    Check::Close,
    Check::Recall,
    Check::Paced,
    Check::Friends,
    Check::Lonely,
    Check::Renewal,
    Check::Limit,
];

fn main(rt: HostRuntime) -> Result<()> {
    let alloc = rt.alloc();
    for check in &ALL {
        run(&rt, alloc, *check).context(check.name())?;
        println!(rt; "{}: ok", check.name())?;
    }
    Ok(())
}

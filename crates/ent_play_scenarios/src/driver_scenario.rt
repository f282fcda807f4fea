//! A scenario of a driver: an input, a line `== calls`, and a call a line.
use crate::driver_call::{Call, read_call};
use anyhow::{Context, Result};
use ent_book::ReportVersion;
use ent_driver::{Driver, DriverFault, Move, reply_text};
use std::alloc::Global;

/// The replies to the calls of a scenario, each a line or more.
pub(crate) fn replies(alloc: Global, input: &str, calls: &str) -> Result<String> {
    let mut out = Vec::new(alloc);
    match Driver::open(alloc, input.as_bytes()) {
        Ok(driver) => play(alloc, driver, calls, &mut out)?,
        Err(refusal) => put_fault(alloc, &mut out, DriverFault::from(refusal))?,
    }
    String::from_utf8(out).context("the replies aren't UTF-8")
}

fn play(alloc: Global, opened: Driver, calls: &str, out: &mut Vec<u8>) -> Result<()> {
    let mut driver = opened;
    for line in calls.lines() {
        let call = read_call(line)?;
        match reply_to(alloc, &mut driver, call) {
            Ok(text) => out.extend_from_slice(text.as_slice())?,
            Err(fault) => put_fault(alloc, out, fault)?,
        }
    }
    Ok(())
}

/// Makes a call. Its reply, with its end.
fn reply_to(alloc: Global, driver: &mut Driver, call: Call<'_>) -> Result<Vec<u8>, DriverFault> {
    match call {
        Call::Submit(script) => {
            let tx = driver.submit(alloc, script.as_bytes())?;
            let text = format!(in alloc; "number {tx}\n")?;
            Ok(text.into_bytes())
        }
        Call::Run => {
            driver.run(alloc)?;
            Ok(Vec::from_slice(alloc, b"ran\n")?)
        }
        Call::Make(asked) => made(alloc, driver, asked),
        Call::Why(tx) => driver.why(alloc, tx),
        Call::Answers(tx) => driver.answers(alloc, tx),
        Call::Table(name) => driver.table(alloc, name.as_bytes()),
        Call::Close => {
            driver.close()?;
            driver.report(alloc, ReportVersion::One)
        }
    }
}

fn made(alloc: Global, driver: &mut Driver, asked: Move) -> Result<Vec<u8>, DriverFault> {
    let reply = driver.make(alloc, asked)?;
    Ok(reply_text(alloc, &reply)?)
}

/// A fault by its number.
fn put_fault(alloc: Global, out: &mut Vec<u8>, fault: DriverFault) -> Result<()> {
    let line = match fault {
        DriverFault::Vacant => format!(in alloc; "vacant\n")?,
        _ => format!(in alloc; "E{}\n", fault.code())?,
    };
    out.extend_from_slice(line.as_bytes())?;
    Ok(())
}

//! Streams that move few bytes, or fail at a stated call.
//!
//! `STREAMS.tsv` names a row's input, a command line, the most bytes that a read moves and which read fails (0 for
//! none), the same of writes, and how the command must end: the exit status, the line on standard error (two with ` / `
//! between), and how many bytes of the row's output were written.
use crate::machine::Behaviour;
use crate::outcome::Outcome;
use anyhow::{Context, Result, bail, ensure};
use std::fs;
use std::sync::Wait;
use std::thread::Threads;

/// Checks the streams, and says how many there are.
pub(crate) fn check_all<T: Threads + Wait + Sync>(rt: &HostRuntime, threads: &T) -> Result<()> {
    let index = fs::read_to_string(rt, "rows/STREAMS.tsv")?;
    let mut count = 0usize;
    for line in index.lines().skip(1) {
        let fields: Vec<&str> = line.split('\t').collect(rt.alloc())?;
        check(rt, threads, fields.as_slice()).context(format_args!("streams {line}"))?;
        count = count.saturating_add(1);
    }
    println!(rt; "{count} streams")?;
    Ok(())
}

fn check<T: Threads + Wait + Sync>(rt: &HostRuntime, threads: &T, fields: &[&str]) -> Result<()> {
    let alloc = rt.alloc();
    let [
        name,
        words,
        read,
        failing_read,
        written,
        failing_write,
        status,
        line,
        length,
        _,
    ] = fields
    else {
        bail!("a line of another form");
    };
    let input = fs::read(rt, format!(in alloc; "rows/{name}.in")?)?;
    let report = fs::read(rt, format!(in alloc; "rows/{name}.out")?)?;
    let (reads, writes) = (
        behaviour(read, failing_read)?,
        behaviour(written, failing_write)?,
    );
    let ran = Outcome::of(alloc, threads, words, input.as_slice(), reads, writes)?;
    let length = number(length)?;
    ensure!(
        Some(ran.output()) == report.as_slice().get(..length),
        "another beginning of the report"
    );
    ran.check_end(alloc, status, line)
}

fn behaviour(most: &str, fails_at: &str) -> Result<Behaviour> {
    Ok(Behaviour {
        most: number(most)?,
        fails_at: number(fails_at)?,
    })
}

fn number(word: &str) -> Result<usize> {
    word.parse::<usize>().context("this is no number")
}

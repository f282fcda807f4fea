//! The worked rows, the examples and the longest input.
//!
//! A row is an input and a command line, and the report, the exit status and the line on standard error that they must
//! give; `INDEX.tsv` lists the rows. Where more than a line is said, the line is `@`, and a file `NAME.err` has all of
//! it. An example is an input and its report.
use crate::machine::Behaviour;
use crate::outcome::Outcome;
use anyhow::{Context, Result, bail, ensure};
use std::alloc::Global;
use std::fs;
use std::sync::Wait;
use std::thread::Threads;

/// The examples, each an input and its report.
const EXAMPLES: [&str; 14] = [
    "auction",
    "clerks",
    "concert",
    "doubleclick",
    "first",
    "flights",
    "friends",
    "library",
    "orders",
    "seats",
    "theatre",
    "trains",
    "transfers",
    "waitinglist",
];

/// Checks the rows, the examples and the longest input, and says how many there are.
pub(crate) fn check_all<T: Threads + Wait + Sync>(rt: &HostRuntime, threads: &T) -> Result<()> {
    let rows = check_rows(rt, threads)?;
    println!(rt; "{rows} rows")?;
    for name in EXAMPLES {
        check_example(rt, threads, name)?;
    }
    println!(rt; "{} examples", EXAMPLES.len())?;
    check_longest(rt.alloc(), threads)?;
    println!(rt; "the longest input, and one byte more")?;
    Ok(())
}

fn run_over<T: Threads + Wait + Sync>(
    alloc: Global,
    threads: &T,
    words: &str,
    input: &[u8],
) -> Result<Outcome> {
    Outcome::of(
        alloc,
        threads,
        words,
        input,
        Behaviour::FREE,
        Behaviour::FREE,
    )
}

/// Checks the rows, and answers how many they are.
fn check_rows<T: Threads + Wait + Sync>(rt: &HostRuntime, threads: &T) -> Result<usize> {
    let index = fs::read_to_string(rt, "rows/INDEX.tsv")?;
    let mut count = 0usize;
    for line in index.lines().skip(1) {
        let fields: Vec<&str> = line.split('\t').collect(rt.alloc())?;
        let [name, words, status, told, _] = fields.as_slice() else {
            bail!("the index has a line of another form: {line}");
        };
        check_row(rt, threads, name, words, status, told).context(format_args!("row {name}"))?;
        count = count.saturating_add(1);
    }
    Ok(count)
}

fn check_row<T: Threads + Wait + Sync>(
    rt: &HostRuntime,
    threads: &T,
    name: &str,
    words: &str,
    status: &str,
    line: &str,
) -> Result<()> {
    let alloc = rt.alloc();
    let input = fs::read(rt, format!(in alloc; "rows/{name}.in")?)?;
    let wanted = fs::read(rt, format!(in alloc; "rows/{name}.out")?)?;
    let ran = run_over(alloc, threads, words, input.as_slice())?;
    ensure!(ran.output() == wanted.as_slice(), "another report");
    if line == "@" {
        let said = fs::read(rt, format!(in alloc; "rows/{name}.err")?)?;
        return ran.check_said(alloc, status, said.as_slice());
    }
    ran.check_end(alloc, status, line)
}

fn check_example<T: Threads + Wait + Sync>(
    rt: &HostRuntime,
    threads: &T,
    name: &str,
) -> Result<()> {
    let alloc = rt.alloc();
    let input = fs::read(rt, format!(in alloc; "examples/{name}.sql")?)?;
    let wanted = fs::read(rt, format!(in alloc; "examples/{name}.report")?)?;
    let ran = run_over(alloc, threads, "run", input.as_slice())?;
    ensure!(
        ran.output() == wanted.as_slice(),
        "example {name} gives another report"
    );
    ran.check_end(alloc, "0", "")
}

/// The longest input, of white space alone, and one byte more.
fn check_longest<T: Threads + Wait + Sync>(alloc: Global, threads: &T) -> Result<()> {
    let mut spaces = vec![in alloc; b' '; 16_777_216]?;
    let longest = run_over(alloc, threads, "run", spaces.as_slice())?;
    ensure!(
        longest.output() == b"report 1\nend\n".as_slice(),
        "the longest input"
    );
    longest.check_end(alloc, "0", "")?;
    spaces.push(b' ')?;
    let longer = run_over(alloc, threads, "run", spaces.as_slice())?;
    ensure!(longer.output().is_empty(), "a longer input is answered");
    longer.check_end(alloc, "1", "E105")?;
    let explained = run_over(alloc, threads, "run --explain", spaces.as_slice())?;
    ensure!(explained.output().is_empty(), "a longer input is answered");
    explained.check_end(
        alloc,
        "1",
        "E105 / standard input has more than 16,777,216 bytes, the most of an input",
    )
}

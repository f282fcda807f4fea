//! Stored traces, drawn, and texts that are no traces, refused by their line.
use anyhow::{Context, Result, bail, ensure};
use ent_picture::draw;
use ent_value::Refusal;
use std::alloc::Global;
use std::{env, fs, io};

/// A row: a name, the trace that is drawn, the transactions that are picked, and the fault, if the trace is none.
#[derive(Clone, Copy)]
struct Row<'a> {
    name: &'a str,
    trace: &'a str,
    picked: &'a str,
    fault: &'a str,
}

impl<'a> Row<'a> {
    /// The row of a line of the index, four words with tabs between them.
    fn of(line: &'a str) -> Option<Self> {
        let (name, rest) = line.split_once('\t')?;
        let (trace, rest) = rest.split_once('\t')?;
        let (picked, fault) = rest.split_once('\t')?;
        Some(Row {
            name,
            trace,
            picked,
            fault,
        })
    }
}

/// The picture of a trace, with these transactions picked, a comma between each two; or the fault of a text that is
/// none.
fn drawn(alloc: Global, trace: &str, picked: &str) -> Result<Vec<u8>> {
    let picked = numbers(alloc, picked)?;
    match draw(alloc, trace, picked.as_slice()) {
        Ok(svg) => Ok(svg),
        Err(Refusal::Fault(fault)) => Ok(format!(in alloc; "{fault}")?.into_bytes()),
        Err(Refusal::Memory) => bail!("out of memory"),
    }
}

fn numbers(alloc: Global, words: &str) -> Result<Vec<u64>> {
    let mut numbers = Vec::new(alloc);
    if !words.is_empty() {
        for word in words.split(',') {
            numbers.push(word.parse::<u64>().context("no number")?)?;
        }
    }
    Ok(numbers)
}

/// Goes over the rows of the index, and says how many there are; it fails where a picture differs from the stored one,
/// or a text that is no trace isn't refused by its line.
pub(crate) fn check_pictures(rt: &HostRuntime) -> Result<()> {
    let index = fs::read_to_string(rt, "traces/INDEX.tsv")?;
    let mut count = 0usize;
    let mut wrong = 0usize;
    for line in index.lines().skip(1) {
        let Some(row) = Row::of(line) else {
            bail!("the index has a strange line: {line}");
        };
        if !check(rt, row).context(format_args!("row {}", row.name))? {
            println!(rt; "{} is drawn otherwise", row.name)?;
            wrong = wrong.saturating_add(1);
        }
        count = count.saturating_add(1);
    }
    ensure!(wrong == 0, "{wrong} of {count} rows are wrong");
    println!(rt; "traces: {count} rows")?;
    Ok(())
}

/// Whether a row's trace is drawn, or refused, as it must be.
fn check(rt: &HostRuntime, row: Row) -> Result<bool> {
    let alloc = rt.alloc();
    let trace = fs::read_to_string(rt, format!(in alloc; "traces/{}.trace", row.trace)?)?;
    let told = drawn(alloc, trace.as_str(), row.picked)?;
    if row.fault.is_empty() {
        let wanted = fs::read(rt, format!(in alloc; "traces/{}.svg", row.name)?)?;
        Ok(told.as_slice() == wanted.as_slice())
    } else {
        Ok(told.as_slice() == row.fault.as_bytes())
    }
}

/// Draws standard input, with the transactions picked that the second word names.
pub(crate) fn draw_input(rt: &HostRuntime) -> Result<()> {
    let alloc: Global = rt.alloc();
    let picked = env::args(rt)?.nth(2);
    let trace = io::read_to_string(alloc, rt.reader())?;
    let told = match picked {
        Some(word) => drawn(alloc, trace.as_str(), word.as_str())?,
        None => drawn(alloc, trace.as_str(), "")?,
    };
    rt.write_all(told.as_slice())?;
    Ok(())
}

//! Inputs of one text many times over: `== counts`, then how often, and the text.
use crate::trees::put_refusal;
use anyhow::{Context, Result};
use ent_scenario_files::replies::{Out, put, put_number};
use ent_scenario_files::words::index;
use ent_sql::parse_input;
use ent_tree::Input;
use std::alloc::Global;

fn put_counts(input: &Input, out: &mut Out) {
    put(out, "input; ");
    put_number(out, input.opening.tables.len());
    put(out, " tables, ");
    put_number(out, input.opening.rows.len());
    put(out, " rows, ");
    put_number(out, input.scripts.len());
    put(out, " scripts");
}

/// Replies how many tables, opening rows and scripts the input has.
pub(crate) fn reply(alloc: Global, line: &str, out: &mut Out) -> Result<()> {
    let (times, text) = line
        .split_once(' ')
        .context("a text is written behind how often")?;
    let mut input = String::new(alloc);
    for _ in 0..index(times)? {
        input.push_str(text)?;
    }
    let read = parse_input(alloc, input.as_str());
    drop(input);
    match read {
        Ok(input) => {
            put_counts(&input, out);
            drop(input);
        }
        Err(refusal) => put_refusal(&refusal, out),
    }
    Ok(())
}

//! Rows that are given where a room is opened: each is a line `row TABLE`, and below it its values, each a line.
use crate::room_call::integer;
use anyhow::{Result, bail, ensure};
use ent_prepare::{GivenRow, GivenValue};
use ent_scenario_files::words::name as name_of;
use ent_tree::MOST_PARTS;
use ent_value::Limited;
use std::alloc::Global;

/// Takes a line that begins a row, or that is a value of the row that was begun last; whether it is one of these.
pub(crate) fn take_row(alloc: Global, rows: &mut Vec<GivenRow>, line: &str) -> Result<bool> {
    let Some((word, about)) = line.split_once(' ') else {
        return Ok(false);
    };
    match word {
        "row" => begin(alloc, rows, about)?,
        "int" => add(rows, GivenValue::number(integer(about)?))?,
        "text" => add(rows, text_of(alloc, about)?)?,
        _ => return Ok(false),
    }
    Ok(true)
}

fn begin(alloc: Global, rows: &mut Vec<GivenRow>, table: &str) -> Result<()> {
    rows.push(GivenRow {
        table: name_of(alloc, table)?,
        values: Limited::new(alloc),
    })?;
    Ok(())
}

fn add(rows: &mut Vec<GivenRow>, value: GivenValue) -> Result<()> {
    let Some(row) = rows.last_mut() else {
        bail!("no row is begun")
    };
    ensure!(row.values.len() < MOST_PARTS, "a row has no more values");
    row.values.push(value)?;
    Ok(())
}

fn text_of(alloc: Global, text: &str) -> Result<GivenValue> {
    match GivenValue::text(alloc, text.as_bytes()) {
        Ok(value) => Ok(value),
        Err(_) => bail!("no row has this text"),
    }
}

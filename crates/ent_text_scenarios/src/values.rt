//! Values, rows and names: `== values`.
use crate::show::{Show, put_list};
use anyhow::{Result, bail};
use ent_scenario_files::replies::{Out, put, put_kind, put_number, yes_or_no};
use ent_scenario_files::words::{name, row, unescaped, value};
use ent_value::{Row, is_word};
use std::alloc::Global;
use std::cmp::Ordering;

pub(crate) fn reply(alloc: Global, call: &[&str], out: &mut Out) -> Result<()> {
    match call {
        ["print", word] => put_value(alloc, out, word),
        ["print_rows", words @ ..] => put_rows(alloc, out, words),
        ["kind", word] => put_kind_of(alloc, out, word),
        ["copy", word] => put_copy(alloc, out, word),
        ["copy_row", word] => put_copied_row(alloc, out, word),
        ["ascend", words @ ..] => put_order(alloc, out, words),
        _ => reply_of_names(alloc, call, out),
    }
}

fn reply_of_names(alloc: Global, call: &[&str], out: &mut Out) -> Result<()> {
    match call {
        ["copy_name", word] => put_copied_name(alloc, out, word),
        ["compare_names", left, right] => put_comparison(alloc, out, left, right),
        ["is_word", word] => put_is_word(alloc, out, word),
        _ => bail!("values know no such call"),
    }
}

fn put_value(alloc: Global, out: &mut Out, word: &str) -> Result<()> {
    let value = value(alloc, word)?;
    value.show(alloc, out);
    Ok(())
}

fn put_kind_of(alloc: Global, out: &mut Out, word: &str) -> Result<()> {
    let value = value(alloc, word)?;
    put_kind(out, value.kind());
    Ok(())
}

fn put_copy(alloc: Global, out: &mut Out, word: &str) -> Result<()> {
    let value = value(alloc, word)?;
    let copy = value.copy(alloc)?;
    copy.show(alloc, out);
    Ok(())
}

fn put_copied_row(alloc: Global, out: &mut Out, word: &str) -> Result<()> {
    let row = row(alloc, word)?;
    let copy = row.copy(alloc)?;
    copy.show(alloc, out);
    Ok(())
}

fn put_copied_name(alloc: Global, out: &mut Out, word: &str) -> Result<()> {
    let name = name(alloc, word)?;
    let copy = name.copy(alloc)?;
    copy.show(alloc, out);
    Ok(())
}

fn put_comparison(alloc: Global, out: &mut Out, left: &str, right: &str) -> Result<()> {
    let left = name(alloc, left)?;
    let right = name(alloc, right)?;
    put_ordering(out, left.cmp(&right), left == right);
    Ok(())
}

fn put_is_word(alloc: Global, out: &mut Out, word: &str) -> Result<()> {
    let text = unescaped(alloc, word)?;
    put(out, yes_or_no(is_word(text.as_bytes())));
    Ok(())
}

/// Rows of any kinds.
pub(crate) fn read_rows(alloc: Global, words: &[&str]) -> Result<Vec<Row>> {
    let mut rows = Vec::new(alloc);
    for word in words {
        rows.push(row(alloc, word)?)?;
    }
    Ok(rows)
}

fn put_rows(alloc: Global, out: &mut Out, words: &[&str]) -> Result<()> {
    let rows = read_rows(alloc, words)?;
    put_list(alloc, out, rows.as_slice(), "");
    Ok(())
}

fn put_ordering(out: &mut Out, ordering: Ordering, are_equal: bool) {
    put(
        out,
        match ordering {
            Ordering::Less => "less",
            Ordering::Equal => "equal",
            Ordering::Greater => "greater",
        },
    );
    put(out, if are_equal { ", the same" } else { "" });
}

/// Whether each row comes before those behind it, after those before it, and is equal to itself alone.
fn put_order(alloc: Global, out: &mut Out, words: &[&str]) -> Result<()> {
    let rows = read_rows(alloc, words)?;
    for (place, row) in rows.iter().enumerate() {
        for (other_place, other) in rows.iter().enumerate() {
            let is_so = row.cmp(other) == place.cmp(&other_place)
                && (row == other) == (place == other_place)
                && (row < other) == (place < other_place);
            if !is_so {
                put_pair(alloc, out, row, other);
                return Ok(());
            }
        }
    }
    put_number(out, rows.len());
    Ok(())
}

/// Two rows that aren't in the order that was given.
fn put_pair(alloc: Global, out: &mut Out, row: &Row, other: &Row) {
    put_list(alloc, out, &[row, other], " and ");
}

//! An input with its names resolved: `== forms`, then an input a line. A table is shown by its number, a column by its
//! number behind a `#`, a written variable by its number behind a `?`.
use crate::input::input_of;
use crate::resolved::put_script;
use crate::show::Show;
use anyhow::Result;
use ent_form::{Catalogue, FormFault, Plain, TableSchema, opening_rows, resolve};
use ent_scenario_files::replies::{Out, put, put_fault, put_kind, put_number};
use ent_scenario_files::words::unescaped;
use ent_tree::{Input, Opening, Script};
use ent_value::{Refusal, Row};
use std::alloc::Global;

pub(crate) fn reply(alloc: Global, line: &str, out: &mut Out) -> Result<()> {
    let text = unescaped(alloc, line)?;
    let read = input_of(alloc, text.as_str());
    drop(text);
    match read {
        Some(input) => put_forms(alloc, &input, out),
        None => put(out, "no sentence"),
    }
    Ok(())
}

fn put_forms(alloc: Global, input: &Input, out: &mut Out) {
    match Catalogue::of(alloc, &input.opening) {
        Ok(catalogue) => put_scripts(alloc, &catalogue, input, out),
        Err(refusal) => put_refusal(out, &refusal),
    }
}

fn put_scripts(alloc: Global, catalogue: &Catalogue, input: &Input, out: &mut Out) {
    match resolved(alloc, catalogue, input.scripts.as_slice()) {
        Ok(plain) => put_resolved(alloc, catalogue, input, plain.as_slice(), out),
        Err(refusal) => put_refusal(out, &refusal),
    }
}

/// The scripts with their names resolved, or the first fault of one.
fn resolved(
    alloc: Global,
    catalogue: &Catalogue,
    scripts: &[Script],
) -> Result<Vec<Plain>, Refusal<FormFault>> {
    let mut resolved = Vec::new(alloc);
    for script in scripts {
        resolved.push(resolve(alloc, catalogue, script)?)?;
    }
    Ok(resolved)
}

fn put_resolved(
    alloc: Global,
    catalogue: &Catalogue,
    input: &Input,
    scripts: &[Plain],
    out: &mut Out,
) {
    put(out, "forms;");
    put_catalogue(alloc, catalogue, input, out);
    for (script, plain) in input.scripts.as_slice().iter().zip(scripts) {
        put_script(alloc, out, script, plain);
    }
}

fn put_refusal(out: &mut Out, refusal: &Refusal<FormFault>) {
    match refusal {
        Refusal::Fault(fault) => put_fault(out, fault.code(), fault.place()),
        Refusal::Memory => put(out, "E900"),
    }
}

/// Each table as its name is looked up, and its rows at first.
fn put_catalogue(alloc: Global, catalogue: &Catalogue, input: &Input, out: &mut Out) {
    for create in input.opening.tables.as_slice() {
        let Some((number, table)) = catalogue.table_named(&create.name.name) else {
            return put(out, " no table;");
        };
        put_table(alloc, number, table, out);
        put_rows(alloc, catalogue, number, &input.opening, out);
    }
}

/// The opening rows of the table of a number, where there is one.
fn put_rows(alloc: Global, catalogue: &Catalogue, number: usize, opening: &Opening, out: &mut Out) {
    if number >= catalogue.tables.len() {
        return;
    }
    match opening_rows(alloc, catalogue, number, opening) {
        Ok(rows) => put_each_row(alloc, rows.as_slice(), out),
        Err(_) => out.stop(),
    }
}

fn put_each_row(alloc: Global, rows: &[Row], out: &mut Out) {
    for row in rows {
        put(out, " row ");
        row.show(alloc, out);
        put(out, ";");
    }
}

fn put_table(alloc: Global, number: usize, table: &TableSchema, out: &mut Out) {
    put(out, " table ");
    put_number(out, number);
    put(out, " ");
    table.name.show(alloc, out);
    for column in table.columns.as_slice() {
        put(out, " ");
        column.name.show(alloc, out);
        match table.column_named(&column.name) {
            Some((number, kind)) => {
                put(out, "=");
                put_number(out, number);
                put(out, ":");
                put_kind(out, kind);
            }
            None => put(out, " is missing"),
        }
    }
    put(out, ";");
}

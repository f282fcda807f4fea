//! Entangled statements as an input has them, resolved and closed.
use crate::opening::tables;
use anyhow::{Context, Result, bail};
use ent_closing::{Environment, closed};
use ent_form::{Catalogue, Plain, resolve};
use ent_rel::Table;
use ent_semantics::{Entangled, Statement};
use ent_sql::parse_input;
use ent_tree::{Input, Opening};
use ent_value::Value;
use std::alloc::Global;
use std::sync::Arc;

/// The input that a text is.
fn read_input(alloc: Global, text: &str) -> Result<Input> {
    parse_input(alloc, text).ok().context("this is no input")
}

fn catalogue_of(alloc: Global, opening: &Opening) -> Result<Catalogue> {
    Catalogue::of(alloc, opening)
        .ok()
        .context("these tables have a fault")
}

/// The tables that an opening declares, with its rows.
pub(crate) fn opening_tables(alloc: Global, opening: &str) -> Result<Vec<Arc<Table>>> {
    let input = read_input(alloc, opening)?;
    let found = tables_of(alloc, &input.opening);
    drop(input);
    found
}

fn tables_of(alloc: Global, opening: &Opening) -> Result<Vec<Arc<Table>>> {
    let catalogue = catalogue_of(alloc, opening)?;
    let found = tables(alloc, &catalogue, opening);
    drop(catalogue);
    found
}

/// The first script of an input, resolved.
fn first_form(alloc: Global, input: &Input) -> Result<Plain> {
    let script = input
        .scripts
        .as_slice()
        .first()
        .context("there is no script")?;
    let catalogue = catalogue_of(alloc, &input.opening)?;
    let plain = resolve(alloc, &catalogue, script);
    drop(catalogue);
    plain.ok().context("this statement has a fault")
}

/// The first statement of a resolved script, closed without host variables.
fn first_closed(alloc: Global, plain: &Plain) -> Result<Statement<Value>> {
    let first = plain
        .statements
        .as_slice()
        .first()
        .context("there is no statement")?;
    let environment = Environment::new(alloc);
    let statement = closed(alloc, first, &environment);
    drop(environment);
    Ok(statement?)
}

fn only_entangled(statement: Statement<Value>) -> Result<Entangled<Value>> {
    match statement {
        Statement::Entangled(entangled) => Ok(entangled),
        other => {
            drop(other);
            bail!("this is no entangled statement")
        }
    }
}

/// An entangled statement over the tables of an opening. It stands alone in its script, and uses no host variable.
pub(crate) fn entangled(alloc: Global, opening: &str, text: &str) -> Result<Entangled<Value>> {
    let whole = format!(in alloc; "{opening} BEGIN TRANSACTION; {text} COMMIT;")?;
    let input = read_input(alloc, whole.as_str());
    drop(whole);
    let input = input?;
    let plain = first_form(alloc, &input);
    drop(input);
    let plain = plain?;
    let statement = first_closed(alloc, &plain);
    drop(plain);
    only_entangled(statement?)
}

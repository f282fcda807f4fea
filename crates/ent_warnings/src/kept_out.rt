//! Scripts that a waiting statement keeps from writing a table.
ghost use Rattle.std.specs.Prelude.{◌≡◌};
ghost use Rattle.ent_semantics.specs.Uses.{changes};
ghost use Rattle.ent_warnings.specs.KeptOut.{writes};

use ent_tree::{Condition, Entangled, Identifier, Script, Statement};
use ent_value::Name;

/// A table that an entangled statement reads and a later script changes. As long as the statement waits, the script
/// is blocked.
#[derive(Clone, Copy)]
pub(crate) struct KeptOut<'a> {
    /// The table, where the first such statement names it.
    pub(crate) table: &'a Identifier,
    /// The number of the first later script that changes it.
    pub(crate) writer: usize,
}

impl<'a> KeptOut<'a> {
    /// The first statement of the scripts that reads a table while it waits, if a later script changes the table.
    pub(crate) fn of(scripts: &'a [Script], table: &Name) -> Option<Self> {
        for (place, script) in scripts.iter().enumerate() {
            if let Some(source) = source_in(script, table) {
                let later = scripts.get(place.saturating_add(1)..)?;
                let between = later.iter().position(|other| writes(table, other))?;
                return Some(KeptOut {
                    table: source,
                    writer: place.saturating_add(between).saturating_add(2),
                });
            }
        }
        None
    }
}

/// Where an entangled statement of a script reads a table first.
fn source_in<'a>(script: &'a Script, table: &Name) -> Option<&'a Identifier> {
    for statement in script.statements.as_slice() {
        if let Statement::Entangled(asked) = statement {
            let source = source_of(asked, table);
            if source.is_some() {
                return source;
            }
        }
    }
    None
}

/// Where an entangled statement reads a table first.
fn source_of<'a>(asked: &'a Entangled, table: &Name) -> Option<&'a Identifier> {
    for condition in asked.conditions.as_slice() {
        if let Condition::InSelect(_, select) = condition {
            for source in select.sources.as_slice() {
                if source.table.name == *table {
                    return Some(&source.table);
                }
            }
        }
    }
    None
}

/// Whether a statement changes a table.
fn changes(statement: &Statement, table: &Name) -> bool
    ensures { result ≡ changes statement.now table.now }
{
    match statement {
        Statement::Insert(insert) => insert.table.name == *table,
        Statement::Delete(delete) => delete.table.name == *table,
        Statement::Update(update) => update.table.name == *table,
        Statement::Select(_) | Statement::Entangled(_) | Statement::Set(_) => false,
    }
}

/// Whether a script writes a table.
fn writes(table: &Name, script: &Script) -> bool
    ensures { result ≡ writes table.now script.now }
{
    script
        .statements
        .as_slice()
        .iter()
        .any(|statement| changes(statement, table))
}

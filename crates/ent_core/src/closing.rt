//! A core is closed.
ghost use Rattle.std.specs.Prelude.{◌≡◌, ◌↔◌, ◌≤◌, [], IfOk, IsTrue, length, map, vec_capacity};
ghost use Rattle.std.specs.Arc.{arc_value};
ghost use Rattle.ent_book.specs.Tables.{book_seen, tables_database};
ghost use Rattle.ent_core.specs.Closing.{book_at_rest};
ghost use Rattle.ent_ordinary.specs.Tables.{rows_in};
ghost use Rattle.ent_form.specs.Catalogue.{names_of};
ghost use Rattle.ent_protocol.specs.Reached.{CanClose, named_tables, table_names};
ghost use Rattle.ent_protocol.specs.State.{by_number};

use crate::reached::Core;
use crate::store::Store;
use ent_book::NamedTable;
use ent_form::Catalogue;
use ent_members::SubmittedScript;
use ent_rel::Table;
use ent_semantics::{Book, Fated};
use ent_tree::Script;
use ent_value::{Refusal, Sequence};
use std::alloc::{AllocError, Global};
use std::sync::Arc;

/// E405: a run is on, or a transaction waits for one.
#[derive(Clone, Copy, Debug, PartialEq, Eq)]
pub struct NotDone;

/// A core that isn't closed, as it was, and why.
#[derive(Drop)]
pub struct NotClosed {
    pub core: Core,
    pub refusal: Refusal<NotDone>,
}

/// What a book takes memory for: the fates by number, the tables under their names, and room for the scripts.
#[derive(Drop)]
pub(crate) struct BookParts {
    pub(crate) fates: Vec<Fated>,
    pub(crate) database: Sequence<NamedTable>,
    pub(crate) scripts: Vec<Script>,
}

/// Whether no run is on and nobody waits for one.
pub(crate) fn can_close(store: &Store) -> bool
    ensures { IsTrue result ↔ CanClose store.now }
{
    !store.running && store.transaction_table.dormant_len() == 0
}

/// Tables under the names of the catalogue; none is copied row by row.
fn named(
    alloc: Global,
    catalogue: &Catalogue,
    tables: &[Arc<Table>],
) -> Result<Sequence<NamedTable>, AllocError>
    ensures { IfOk result (λ named. tables_database named
        ≡ named_tables (names_of catalogue.now.tables) (rows_in (map arc_value tables.now))) }
{
    let mut named = Sequence::new(alloc);
    for (number, schema) in catalogue.tables.as_slice().iter().enumerate() {
        let Some(table) = tables.get(number) else {
            return Ok(named);
        };
        named.push(NamedTable {
            name: schema.name.copy(alloc)?,
            table: table.clone()?,
        })?;
    }
    Ok(named)
}

/// What the book of a store takes memory for.
pub(crate) fn book_parts(store: &Store) -> Result<BookParts, AllocError>
    ensures fates { IfOk result (λ parts. parts.fates.items ≡ by_number (λ fated. fated.tx) store.now.fates) }
    ensures database { IfOk result (λ parts. tables_database parts.database
        ≡ named_tables (table_names store.now.opening) store.now.tables) }
    ensures scripts { IfOk result (λ parts. parts.scripts.items ≡ []) }
    ensures room { IfOk result (λ parts. length store.now.submitted ≤ vec_capacity parts.scripts) }
{
    let fates = store.transaction_table.fates_by_number(store.alloc)?;
    let database = named(store.alloc, &store.catalogue, store.tables.as_slice())?;
    let scripts = Vec::with_capacity(store.alloc, store.submitted.len())?;
    Ok(BookParts {
        fates,
        database,
        scripts,
    })
}

/// The scripts that were submitted, in a list that has room for them.
fn scripts_of(mut submitted: Vec<SubmittedScript>, mut scripts: Vec<Script>) -> Vec<Script>
    requires empty { scripts.items ≡ [] }
    requires room { length submitted.items ≤ vec_capacity scripts }
    ensures { result.items ≡ map (λ own. own.script) submitted.items }
{
    while let Some(own) = submitted.pop() {
        scripts.push_reserved(own.into_script());
    }
    scripts.reverse();
    scripts
}

/// The book of a store in which no run is on: its tables are settled, and its joint answers are of committed
/// transactions.
pub(crate) fn book(store: Store, parts: BookParts) -> Book<Sequence<NamedTable>>
    requires fates { parts.fates.items ≡ by_number (λ fated. fated.tx) store.fates }
    requires database { tables_database parts.database ≡ named_tables (table_names store.opening) store.tables }
    requires scripts { parts.scripts.items ≡ [] }
    requires room { length store.submitted ≤ vec_capacity parts.scripts }
    ensures { book_seen result ≡ book_at_rest store }
{
    let Store {
        opening,
        submitted,
        joints,
        journal,
        ..
    } = store;
    let BookParts {
        fates,
        database,
        scripts,
    } = parts;
    Book {
        opening,
        scripts: Sequence::from_vec(scripts_of(submitted, scripts)),
        journal: Sequence::from_vec(journal),
        joint_answers: Sequence::from_vec(joints),
        fates: Sequence::from_vec(fates),
        database,
    }
}

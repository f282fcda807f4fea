//! An opening of declarations and tables.
ghost use Rattle.std.specs.Prelude.{◌≡◌, ◌<◌, ◌≤◌, [], All, IfErr, IfOk, None, OnOk};
ghost use Rattle.ent_value.specs.declared.refusal.Refusal.TheVariants.{Fault};
ghost use Rattle.ent_semantics.specs.Kinds.{RowsHaveKinds};
ghost use Rattle.ent_book.specs.Tables.{tables_database};
ghost use Rattle.ent_form.specs.Catalogue.{table_schema};
ghost use Rattle.ent_form.specs.OpeningFault.{declarations_fault, opening_fault};
ghost use Rattle.ent_form.specs.TableKinds.{column_kinds};
ghost use Rattle.ent_protocol.specs.Reached.{opened};
ghost use Rattle.ent_renewal.specs.Renewal.{GoesOn, HoldsTablesOf, IsRenewed, drained, rows_together};
ghost use Rattle.ent_renewal.specs.Rows.{opening_rows};
ghost use Rattle.ent_renewal.specs.declared.opening.TooManyRows.{TooManyRows};

use crate::book::FinishedBook;
use crate::drained::Drained;
use crate::law::{drained_tables_are_held, finished_books_hold_their_tables};
use crate::named::TablesByName;
use crate::table::{push_table, rows_together};
use ent_tree::{Create, Duplicate, MOST_OPENING_ROWS, MOST_TABLES, Opening, OpeningRow};
use ent_value::{Limited, Name, Refusal};
use std::alloc::{AllocError, Global};

/// E407: more rows stand in the tables together than an opening has, which are [`MOST_OPENING_ROWS`].
#[derive(Clone, Copy, Debug, PartialEq, Eq)]
pub struct TooManyRows;

/// The rows of declared tables, one table after the other.
fn opening_rows<T: TablesByName>(
    alloc: Global,
    declared: &[Create],
    tables: &T,
) -> Result<Limited<OpeningRow, MOST_OPENING_ROWS>, AllocError>
    requires limit { rows_together declared.now (T.database tables.now) ≤ MOST_OPENING_ROWS }
    requires kinds { All (λ create. RowsHaveKinds (column_kinds (table_schema create))
        (T.database tables.now create.name.name)) declared.now }
    ensures { IfOk result (λ rows. rows ≡ opening_rows declared.now (T.database tables.now)) }
{
    let mut rows = Limited::new(alloc);
    for create in declared {
        push_table(alloc, &mut rows, create, tables)?;
    }
    Ok(rows)
}

/// An opening of these declarations whose rows are those of these tables.
fn opening_over<T: TablesByName>(
    alloc: Global,
    declared: &Limited<Create, MOST_TABLES>,
    tables: &T,
) -> Result<Opening, Refusal<TooManyRows>>
    requires formed { declarations_fault [] declared.now ≡ None }
    requires holds { HoldsTablesOf declared.now (T.database tables.now) }
    ensures ok { IfOk result (λ renewed. IsRenewed declared.now (T.database tables.now) renewed) }
    ensures limit { OnOk result (rows_together declared.now (T.database tables.now) ≤ MOST_OPENING_ROWS) }
    ensures fault { IfErr result (λ refusal. (fault : TooManyRows)
        → refusal ≡ Fault fault
        → MOST_OPENING_ROWS < rows_together declared.now (T.database tables.now)) }
{
    // Asked for its bound alone: so many tables have no more rows than can be counted.
    let _count = declared.len();
    if rows_together(declared.as_slice(), tables) > MOST_OPENING_ROWS {
        return Err(Refusal::Fault(TooManyRows));
    }
    Ok(Opening {
        tables: declared.copy(alloc)?,
        rows: opening_rows(alloc, declared.as_slice(), tables)?,
    })
}

/// An opening of the declarations of a book, whose rows are those of the tables that the book ends with: a core that is
/// opened over it goes on where they stand. The rows of the book's own opening are left out. Those of the new one stand
/// in no text, so their places are 0.
pub fn renewed_opening(alloc: Global, book: &FinishedBook) -> Result<Opening, Refusal<TooManyRows>>
    ensures renewed { IfOk result (λ renewed.
        IsRenewed book.now.opening.tables (tables_database book.now.database) renewed) }
    ensures goes_on { IfOk result (λ renewed.
        GoesOn book.now.opening.tables (tables_database book.now.database) (opened renewed)) }
    ensures limit { OnOk result
        (rows_together book.now.opening.tables (tables_database book.now.database) ≤ MOST_OPENING_ROWS) }
    ensures fault { IfErr result (λ refusal. (fault : TooManyRows)
        → refusal ≡ Fault fault
        → MOST_OPENING_ROWS < rows_together book.now.opening.tables (tables_database book.now.database)) }
{
    // A law: the tables hold rows of the kinds of their columns.
    finished_books_hold_their_tables();
    let book = book.book();
    opening_over(alloc, &book.opening.tables, &book.database)
}

/// An opening of the declarations of another, whose rows are those of these tables, but that the named tables are
/// empty: a core that is opened over it goes on where the others stand. Its rows stand in no text, so their places are
/// 0.
pub fn drained_opening<T: TablesByName>(
    alloc: Global,
    opening: &Opening,
    tables: &T,
    names: &[Name],
) -> Result<Opening, Refusal<TooManyRows>>
    requires formed { opening_fault opening.now ≡ None }
    requires holds { HoldsTablesOf opening.now.tables (T.database tables.now) }
    ensures renewed { IfOk result (λ renewed.
        IsRenewed opening.now.tables (drained names.now (T.database tables.now)) renewed) }
    ensures goes_on { IfOk result (λ renewed.
        GoesOn opening.now.tables (drained names.now (T.database tables.now)) (opened renewed)) }
    ensures limit { OnOk result
        (rows_together opening.now.tables (drained names.now (T.database tables.now)) ≤ MOST_OPENING_ROWS) }
    ensures fault { IfErr result (λ refusal. (fault : TooManyRows)
        → refusal ≡ Fault fault
        → MOST_OPENING_ROWS < rows_together opening.now.tables (drained names.now (T.database tables.now))) }
{
    // A law: tables that are empty hold rows of any kinds.
    drained_tables_are_held();
    opening_over(alloc, &opening.tables, &Drained { tables, names })
}

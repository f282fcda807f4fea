//! The rule of tables.
ghost use Rattle.std.specs.Prelude.{◌≡◌, ◌<◌, IfOk, length, map, slice_index_or};
ghost use Rattle.std.specs.Arc.{arc_value};
ghost use Rattle.ent_lists.specs.Sets as set;
ghost use Rattle.ent_form.specs.Tables.{database_of};
ghost use Rattle.ent_history.specs.Table.{tables_findings};
ghost use Rattle.ent_history.specs.Verdict.{first_of};
ghost use Rattle.ent_ordinary.specs.Tables.{no_table, rows_in};

use crate::Evidence;
use crate::alike::same_rows;
use ent_history::{Finding, Rule, Shown, Thing};
use ent_ordinary::table_at;
use ent_rel::Table;
use ent_tree::Create;
use ent_value::{Name, Row, Sequence};
use std::alloc::{AllocError, Global};
use std::sync::Arc;

/// The rows of the table of a number, ascending.
fn rows_at(alloc: Global, tables: &[Arc<Table>], number: usize) -> Result<Vec<Row>, AllocError>
    requires { number < length tables.now }
    ensures { IfOk result (λ rows. rows.items
        ≡ set.ascending (slice_index_or (map arc_value tables.now) number no_table).rows) }
{
    let table = table_at(tables, number)?;
    table.rows(alloc)
}

/// The rows of the table of a name, ascending; none where no such table is declared.
fn rows_named(
    alloc: Global,
    creates: &[Create],
    tables: &[Arc<Table>],
    name: &Name,
) -> Result<Vec<Row>, AllocError>
    requires { length tables.now ≡ length creates.now }
    ensures { IfOk result (λ rows. rows.items
        ≡ set.ascending (database_of creates.now (rows_in (map arc_value tables.now)) name.now)) }
{
    for (index, create) in creates.iter().enumerate() {
        let named = create.name.name == *name;
        if named {
            return rows_at(alloc, tables, index);
        }
    }
    Ok(Vec::new(alloc))
}

/// The first table that isn't shown as it stands. Its rows are noted. Tables are given in the order of their
/// declaration.
pub fn tables_finding(
    alloc: Global,
    creates: &[Create],
    tables: &[Arc<Table>],
    shown: &[Shown],
    evidence: &mut Option<Evidence>,
) -> Result<Option<Finding>, AllocError>
    requires { length tables.now ≡ length creates.now }
    ensures { IfOk result (λ finding. finding ≡ first_of
        (tables_findings 1 (database_of creates.now (rows_in (map arc_value tables.now))) shown.now)) }
{
    for (index, one) in shown.iter().enumerate() {
        let rows = rows_named(alloc, creates, tables, &one.name)?;
        let alike = same_rows(one.rows.as_slice(), rows.as_slice());
        if !alike {
            *evidence = Some(Evidence::Rows(Sequence::from_vec(rows)));
            return Ok(Some(Finding {
                rule: Rule::Table,
                thing: Thing::Table(index as u64 + 1),
            }));
        }
    }
    Ok(None)
}

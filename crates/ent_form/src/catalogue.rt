//! The tables that an input declares.
ghost use Rattle.std.specs.Prelude.{◌≡◌, IfOk};
ghost use Rattle.std.specs.Option.{option_map};
ghost use Rattle.ent_value.specs.Refusal.{Gives};
ghost use Rattle.ent_form.specs.AllFaults.{opening_faults};
ghost use Rattle.ent_form.specs.Catalogue.{column_schema, table_schema, schemas_of, table_named, column_named};
ghost use Rattle.ent_form.specs.FirstFault.{RefusedForFirst};
ghost use Rattle.ent_form.specs.OpeningFault.{opening_fault, unless};

use crate::declaration::declarations_fault;
use crate::fault::FormFault;
use crate::row::rows_fault;
use ent_tree::{Column, Create, MOST_PARTS, Opening};
use ent_value::{Kind, Limited, Name, Refusal, Sequence};
use std::alloc::{AllocError, Global};

/// A column: its name, and the kind of its values.
#[derive(Drop)]
pub struct ColumnSchema {
    pub name: Name,
    pub kind: Kind,
}

/// A table: its name, and its columns in the order of a row's values.
#[derive(Drop)]
pub struct TableSchema {
    pub name: Name,
    pub columns: Limited<ColumnSchema, MOST_PARTS>,
}

/// The tables that an input declares, in order.
#[derive(Drop)]
pub struct Catalogue {
    pub tables: Sequence<TableSchema>,
}

impl TableSchema {
    /// The first column of this name: its number, counted from 0, and its kind.
    pub fn column_named(&self, name: &Name) -> Option<(usize, Kind)>
        ensures { result ≡ column_named self.now.columns name.now }
    {
        for (number, column) in self.columns.as_slice().iter().enumerate() {
            if column.name == *name {
                return Some((number, column.kind));
            }
        }
        None
    }
}

impl Catalogue {
    /// The tables of an input whose declarations and opening rows have no fault; else the first of their faults, in the
    /// order in which `AllFaults` lists those that stand: those of the declarations before those of the rows. Where
    /// memory runs out nothing is answered.
    pub fn of(alloc: Global, opening: &Opening) -> Result<Catalogue, Refusal<FormFault>>
        ensures tables { Gives (λ catalogue. catalogue.tables) result
            (unless (opening_fault opening.now) (schemas_of opening.now.tables)) }
        ensures fault { RefusedForFirst (opening_faults opening.now) result }
    {
        declared(alloc, opening)
    }

    /// The first table of this name and its number, counted from 0.
    pub fn table_named(&self, name: &Name) -> Option<(usize, &TableSchema)>
        ensures { option_map (λ found. (found.0, found.1.now)) result ≡ table_named self.now.tables name.now }
    {
        for (number, table) in self.tables.as_slice().iter().enumerate() {
            if table.name == *name {
                return Some((number, table));
            }
        }
        None
    }
}

/// What is declared, unless a declaration or an opening row has a fault.
fn declared(alloc: Global, opening: &Opening) -> Result<Catalogue, Refusal<FormFault>>
    ensures { Gives (λ catalogue. catalogue.tables) result
        (unless (opening_fault opening.now) (schemas_of opening.now.tables)) }
{
    if let Some(fault) = declarations_fault(opening.tables.as_slice()) {
        return Err(Refusal::Fault(fault));
    }
    let catalogue = Catalogue {
        tables: schemas_of(alloc, opening.tables.as_slice())?,
    };
    if let Some(fault) = rows_fault(&catalogue, opening.rows.as_slice()) {
        return Err(Refusal::Fault(fault));
    }
    Ok(catalogue)
}

fn column_schema(alloc: Global, column: &Column) -> Result<ColumnSchema, AllocError>
    ensures { IfOk result (λ schema. schema ≡ column_schema column.now) }
{
    Ok(ColumnSchema {
        name: column.name.name.copy(alloc)?,
        kind: column.kind,
    })
}

/// A declared table, as statements are resolved against it: its name, and its columns as they are declared.
pub fn table_schema(alloc: Global, create: &Create) -> Result<TableSchema, AllocError>
    ensures { IfOk result (λ schema. schema ≡ table_schema create.now) }
{
    let _limit = create.columns.len();
    let mut columns = Limited::new(alloc);
    for column in create.columns.as_slice() {
        columns.push(column_schema(alloc, column)?)?;
    }
    Ok(TableSchema {
        name: create.name.name.copy(alloc)?,
        columns,
    })
}

fn schemas_of(alloc: Global, tables: &[Create]) -> Result<Sequence<TableSchema>, AllocError>
    ensures { IfOk result (λ schemas. schemas ≡ schemas_of tables.now) }
{
    let mut schemas = Vec::with_capacity(alloc, tables.len())?;
    for create in tables {
        schemas.push(table_schema(alloc, create)?)?;
    }
    Ok(Sequence::from_vec(schemas))
}

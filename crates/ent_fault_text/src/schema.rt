//! Declared tables, as their tokens say.
use crate::mark::{Mark, Sort};
use crate::valid::valid_text;
use ent_text::Keyword;
use ent_tree::{Create, Opening};
use ent_value::Kind;
use std::alloc::{AllocError, Global};

/// A column of a declared table.
#[derive(Clone, Copy)]
pub(crate) struct Column<'a> {
    pub(crate) name: &'a str,
    pub(crate) kind: Kind,
}

/// A declared table.
#[derive(Drop)]
pub(crate) struct Table<'a> {
    pub(crate) name: Mark<'a>,
    pub(crate) columns: Vec<Column<'a>>,
}

impl<'a> Table<'a> {
    /// Its column of this name.
    pub(crate) fn column(&self, name: &str) -> Option<Column<'a>> {
        for column in &self.columns {
            if column.name == name {
                return Some(*column);
            }
        }
        None
    }
}

/// The tables that an opening declares.
pub(crate) fn tables_of<'a>(
    alloc: Global,
    opening: &'a Opening,
) -> Result<Vec<Table<'a>>, AllocError> {
    let mut tables = Vec::new(alloc);
    for create in opening.tables.as_slice() {
        tables.push(table_of(alloc, create)?)?;
    }
    Ok(tables)
}

/// A table as it is declared.
fn table_of<'a>(alloc: Global, create: &'a Create) -> Result<Table<'a>, AllocError> {
    let mut columns = Vec::new(alloc);
    for column in create.columns.as_slice() {
        let name = valid_text(column.name.name.as_bytes());
        let kind = column.kind;
        columns.push(Column { name, kind })?;
    }
    let name = Mark {
        sort: Sort::Name,
        text: valid_text(create.name.name.as_bytes()),
        start: create.name.place,
    };
    Ok(Table { name, columns })
}

/// The kind that a token names.
fn kind_named(mark: &Mark<'_>) -> Option<Kind> {
    match mark.sort {
        Sort::Word(Keyword::Int) => Some(Kind::Int),
        Sort::Word(Keyword::Text) => Some(Kind::Text),
        _ => None,
    }
}

/// Takes a token of the declarations, and the one before it: a name behind TABLE is that of one more table, a kind
/// behind a name declares a column of the last one.
pub(crate) fn declare<'a>(
    alloc: Global,
    tables: &mut Vec<Table<'a>>,
    last: Option<Mark<'a>>,
    mark: Mark<'a>,
) -> Result<(), AllocError> {
    let Some(last) = last else {
        return Ok(());
    };
    if last.is_word(Keyword::Table) && mark.is_name() {
        let columns = Vec::new(alloc);
        tables.push(Table {
            name: mark,
            columns,
        })?;
        return Ok(());
    }
    let Some(kind) = kind_named(&mark) else {
        return Ok(());
    };
    if let Some(table) = tables.last_mut() {
        let name = last.text;
        table.columns.push(Column { name, kind })?;
    }
    Ok(())
}

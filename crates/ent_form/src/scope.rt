//! The sources of a statement, and the columns that it sees.
ghost use Rattle.std.specs.Prelude.{◌≡◌, ◌<◌, ◌++◌, IfOk, OnOk, length, map};
ghost use Rattle.ent_value.specs.Refusal.{Gives};
ghost use Rattle.ent_semantics.specs.Term.{source_name, refers_to};
ghost use Rattle.ent_semantics.specs.Database.{is_among};
ghost use Rattle.ent_form.specs.Scope.{visible, source_place, sources_in, column_in, referred_from, only_one};
ghost use Rattle.ent_form.specs.Scope.{no_source, table_scope, with_source};
ghost use Rattle.ent_form.specs.Seen.{seen, scope_of};

use crate::catalogue::{Catalogue, ColumnSchema, TableSchema};
use crate::fault::FormFault;
use ent_tree::{ColumnReference, MOST_SOURCES, Source};
use ent_value::{Kind, Limited, Name, Refusal};
use std::alloc::{AllocError, Global};

/// A column that a statement sees, under the name that its source goes by.
#[derive(Drop)]
pub(crate) struct SeenColumn<'a> {
    pub source: &'a Name,
    pub schema: &'a ColumnSchema,
}

/// SeenSources side by side: the numbers of their tables, the names that they go by, and their columns.
#[derive(Drop)]
pub(crate) struct SeenSources<'a> {
    pub tables: Limited<usize, MOST_SOURCES>,
    pub names: Vec<&'a Name>,
    pub columns: Vec<SeenColumn<'a>>,
}

/// The name that a source goes by.
fn source_name(source: &Source) -> &Name
    ensures { result.now ≡ source_name source.now }
{
    match &source.alias {
        Some(alias) => &alias.get().name,
        None => &source.table.name,
    }
}

/// Where the last name of a source stands.
fn source_place(source: &Source) -> usize
    ensures { result ≡ source_place source.now }
{
    match &source.alias {
        Some(alias) => alias.get().place,
        None => source.table.place,
    }
}

/// Whether one of these names is this one.
pub(crate) fn is_among(names: &[&Name], name: &Name) -> bool
    ensures { result ≡ is_among (map (λ other. other.now) names.now) name.now }
{
    for other in names {
        if **other == *name {
            return true;
        }
    }
    false
}

/// Whether a reference may mean a column.
fn refers_to(reference: &ColumnReference, column: &SeenColumn<'_>) -> bool
    ensures { result ≡ refers_to reference.now (seen column.now).column }
{
    if reference.column.name != column.schema.name {
        return false;
    }
    match &reference.qualifier {
        Some(qualifier) => qualifier.get().name == *column.source,
        None => true,
    }
}

/// The one column that a reference may mean.
fn only_column(
    columns: &[SeenColumn<'_>],
    reference: &ColumnReference,
) -> Result<(usize, Kind), FormFault>
    ensures { result ≡ only_one (referred_from 0 (map seen columns.now) reference.now) reference.now.column.place }
{
    let mut found = None;
    for (number, column) in columns.iter().enumerate() {
        if refers_to(reference, column) {
            if found.is_some() {
                return Err(FormFault::Ambiguous(reference.column.place));
            }
            found = Some((number, column.schema.kind));
        }
    }
    found.ok_or(FormFault::NoColumn(reference.column.place))
}

/// The number and the kind of the column that a reference means: its qualifier, where it has one, is there first.
pub(crate) fn column(
    sources: &SeenSources<'_>,
    reference: &ColumnReference,
) -> Result<(usize, Kind), FormFault>
    ensures { result ≡ column_in (scope_of sources.now) reference.now }
{
    if let Some(qualifier) = &reference.qualifier {
        let qualifier = qualifier.get();
        if !is_among(&sources.names, &qualifier.name) {
            return Err(FormFault::NoTable(qualifier.place));
        }
    }
    only_column(&sources.columns, reference)
}

/// The columns of one table more are seen, under the name that it goes by.
fn see_columns<'a>(
    columns: &mut Vec<SeenColumn<'a>>,
    source: &'a Name,
    table: &'a TableSchema,
) -> Result<(), AllocError>
    ensures { OnOk result (map seen columns.new.items
        ≡ map seen columns.old.items ++ map (visible source.now) table.now.columns) }
{
    for schema in table.columns.as_slice() {
        columns.push(SeenColumn { source, schema })?;
    }
    Ok(())
}

/// Puts one source more behind the others: the name that it goes by, and its table by number.
fn add_source<'a>(
    sources: &mut SeenSources<'a>,
    name: &'a Name,
    number: usize,
    table: &'a TableSchema,
) -> Result<(), AllocError>
    requires { length sources.old.tables < MOST_SOURCES }
    ensures { OnOk result (scope_of sources.new ≡ with_source (scope_of sources.old) name.now (number, table.now)) }
{
    sources.tables.push(number)?;
    sources.names.push(name)?;
    see_columns(&mut sources.columns, name, table)
}

fn no_source<'a>(alloc: Global) -> SeenSources<'a>
    ensures { scope_of result ≡ no_source }
{
    SeenSources {
        tables: Limited::new(alloc),
        names: Vec::new(alloc),
        columns: Vec::new(alloc),
    }
}

/// The sources of a SELECT, one by one: each is a table that is there, under a name that is new.
pub(crate) fn sources<'a>(
    alloc: Global,
    catalogue: &'a Catalogue,
    list: &'a Limited<Source, MOST_SOURCES>,
) -> Result<SeenSources<'a>, Refusal<FormFault>>
    ensures { Gives scope_of result (sources_in catalogue.now.tables list.now) }
{
    let _limit = list.len();
    let mut sources = no_source(alloc);
    for source in list.as_slice() {
        let Some((number, table)) = catalogue.table_named(&source.table.name) else {
            return Err(Refusal::Fault(FormFault::NoTable(source.table.place)));
        };
        let name = source_name(source);
        if is_among(&sources.names, name) {
            return Err(Refusal::Fault(FormFault::Ambiguous(source_place(source))));
        }
        add_source(&mut sources, name, number, table)?;
    }
    Ok(sources)
}

/// A table is the one source of a statement, under its own name.
pub(crate) fn table_source<'a>(
    alloc: Global,
    name: &'a Name,
    number: usize,
    table: &'a TableSchema,
) -> Result<SeenSources<'a>, AllocError>
    ensures { IfOk result (λ sources. scope_of sources ≡ table_scope name.now (number, table.now)) }
{
    let mut sources = no_source(alloc);
    add_source(&mut sources, name, number, table)?;
    Ok(sources)
}

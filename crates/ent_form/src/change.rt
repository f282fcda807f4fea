//! Statements that change a table or bind a host variable, resolved.
ghost use Rattle.std.specs.Prelude.{◌≡◌, ◌++◌, [], IfOk, OnOk, length, map};
ghost use Rattle.ent_value.specs.Refusal.{Gives};
ghost use Rattle.ent_form.specs.Bindings.{bound_in};
ghost use Rattle.ent_form.specs.Ordinary.{row_from, insert_in, delete_in, own_from, assignment_in, image_in};
ghost use Rattle.ent_form.specs.Ordinary.{update_in, set_in};
ghost use Rattle.ent_form.specs.Seen.{scope_of};

use crate::binding::Bindings;
use crate::catalogue::{Catalogue, ColumnSchema, TableSchema};
use crate::fault::FormFault;
use crate::lookup::{expression_place, operand_expression, value_expression, value_of_kind};
use crate::row::same_kind;
use crate::scope::{SeenSources, is_among, table_source};
use crate::select::tests;
use ent_semantics::{Known, Operand as ResolvedOperand, Statement as ResolvedStatement};
use ent_tree::{
    Assignment, Delete, Expression, Insert, MOST_PARTS, Set, Update, ValueSpecification,
};
use ent_value::{Limited, Name, Refusal, Sequence};
use std::alloc::{AllocError, Global};
use std::mem::replace;

/// Values side by side with columns, from left to right: each has its column's kind.
fn row(
    alloc: Global,
    bindings: &Bindings,
    columns: &[ColumnSchema],
    values: &Limited<ValueSpecification, MOST_PARTS>,
) -> Result<Limited<Known, MOST_PARTS>, Refusal<FormFault>>
    ensures { Gives (λ row. row) result (row_from (bound_in bindings.now) [] columns.now values.now) }
{
    let mut row = Limited::with_capacity(alloc, values.len())?;
    for (column, value) in columns.iter().zip(values.as_slice()) {
        row.push(value_of_kind(alloc, bindings, column.kind, value)?)?;
    }
    Ok(row)
}

/// An INSERT: its table, the number of its values, then each of them.
#[tactic(auto, unfolding(crate::specs::Ordinary::insert_in))]
pub(crate) fn insert(
    alloc: Global,
    catalogue: &Catalogue,
    bindings: &Bindings,
    insert: &Insert,
) -> Result<ResolvedStatement<Known>, Refusal<FormFault>>
    ensures { Gives (λ form. form) result (insert_in catalogue.now.tables (bound_in bindings.now) insert.now) }
{
    let Some((table, schema)) = catalogue.table_named(&insert.table.name) else {
        return Err(Refusal::Fault(FormFault::NoTable(insert.table.place)));
    };
    if insert.values.len() != schema.columns.len() {
        return Err(Refusal::Fault(FormFault::Arity(insert.place)));
    }
    let values = row(alloc, bindings, schema.columns.as_slice(), &insert.values)?;
    Ok(ResolvedStatement::Insert { table, values })
}

/// A DELETE: its table, then its WHERE.
#[tactic(auto, unfolding(crate::specs::Ordinary::delete_in))]
pub(crate) fn delete(
    alloc: Global,
    catalogue: &Catalogue,
    bindings: &Bindings,
    delete: &Delete,
) -> Result<ResolvedStatement<Known>, Refusal<FormFault>>
    ensures { Gives (λ form. form) result (delete_in catalogue.now.tables (bound_in bindings.now) delete.now) }
{
    let Some((table, schema)) = catalogue.table_named(&delete.table.name) else {
        return Err(Refusal::Fault(FormFault::NoTable(delete.table.place)));
    };
    let sources = table_source(alloc, &delete.table.name, table, schema)?;
    let tests = tests(alloc, &sources, bindings, &delete.tests)?;
    Ok(ResolvedStatement::Delete { table, tests })
}

/// Each column is its own.
fn own_image(
    alloc: Global,
    table: &TableSchema,
) -> Result<Vec<Expression<ResolvedOperand<Known>>>, AllocError>
    ensures { IfOk result (λ image. image.items ≡ own_from 0 table.now.columns) }
{
    let mut image = Vec::with_capacity(alloc, table.columns.len())?;
    for (number, _) in table.columns.as_slice().iter().enumerate() {
        image.push(Expression::Single(ResolvedOperand::Column(number)))?;
    }
    Ok(image)
}

/// An assignment behind those to earlier columns: its column is there and is new; then what is assigned to it, then
/// the kinds of both.
#[tactic(auto, unfolding(crate::specs::Ordinary::assignment_in))]
fn assign(
    alloc: Global,
    sources: &SeenSources<'_>,
    bindings: &Bindings,
    table: &TableSchema,
    earlier: &[&Name],
    image: &mut Vec<Expression<ResolvedOperand<Known>>>,
    assignment: &Assignment,
) -> Result<(), Refusal<FormFault>>
    requires { length image.old.items ≡ length table.now.columns }
    ensures assigned { let names = map (λ name. name.now) earlier.now in
        Gives (λ _. image.new.items) result
        (assignment_in (scope_of sources.now) (bound_in bindings.now) table.now.columns names image.old.items
        assignment.now) }
    ensures len { OnOk result (length image.new.items ≡ length image.old.items) }
{
    let column = &assignment.column;
    let Some((number, wanted)) = table.column_named(&column.name) else {
        return Err(Refusal::Fault(FormFault::NoColumn(column.place)));
    };
    if is_among(earlier, &column.name) {
        return Err(Refusal::Fault(FormFault::Repeated(column.place)));
    }
    let (expression, kind) = operand_expression(alloc, sources, bindings, &assignment.expression)?;
    if !same_kind(wanted, kind) {
        drop(expression);
        let place = expression_place(&assignment.expression);
        return Err(Refusal::Fault(FormFault::WrongKind(place)));
    }
    drop(replace(&mut image[number], expression));
    Ok(())
}

/// An expression for each column of the table, in order.
#[tactic(auto, using(crate::proofs::Columns::own_length), unfolding(crate::specs::Ordinary::image_in))]
fn image(
    alloc: Global,
    sources: &SeenSources<'_>,
    bindings: &Bindings,
    table: &TableSchema,
    assignments: &[Assignment],
) -> Result<Vec<Expression<ResolvedOperand<Known>>>, Refusal<FormFault>>
    ensures { Gives (λ image. image.items) result
        (image_in (scope_of sources.now) (bound_in bindings.now) table.now.columns assignments.now) }
{
    let mut earlier = Vec::new(alloc);
    let mut image = own_image(alloc, table)?;
    for assignment in assignments {
        assign(
            alloc, sources, bindings, table, &earlier, &mut image, assignment,
        )?;
        earlier.push(&assignment.column.name)?;
    }
    Ok(image)
}

/// An UPDATE: its table, then its WHERE, then its assignments.
#[tactic(auto, unfolding(crate::specs::Ordinary::update_in))]
pub(crate) fn update(
    alloc: Global,
    catalogue: &Catalogue,
    bindings: &Bindings,
    update: &Update,
) -> Result<ResolvedStatement<Known>, Refusal<FormFault>>
    ensures { Gives (λ form. form) result (update_in catalogue.now.tables (bound_in bindings.now) update.now) }
{
    let Some((table, schema)) = catalogue.table_named(&update.table.name) else {
        return Err(Refusal::Fault(FormFault::NoTable(update.table.place)));
    };
    let sources = table_source(alloc, &update.table.name, table, schema)?;
    let tests = tests(alloc, &sources, bindings, &update.tests)?;
    let image = image(
        alloc,
        &sources,
        bindings,
        schema,
        update.assignments.as_slice(),
    )?;
    Ok(ResolvedStatement::Update {
        table,
        image: Sequence::from_vec(image),
        tests,
    })
}

/// A SET, which is bound from then on.
#[tactic(auto, unfolding(crate::specs::Ordinary::set_in))]
pub(crate) fn set(
    alloc: Global,
    bindings: &mut Bindings,
    set: &Set,
) -> Result<ResolvedStatement<Known>, Refusal<FormFault>>
    ensures { Gives (λ form. (form, bound_in bindings.new)) result (set_in (bound_in bindings.old) set.now) }
{
    let bound = set.variable.name.copy(alloc)?;
    let variable = set.variable.name.copy(alloc)?;
    let (expression, kind) = value_expression(alloc, bindings, &set.expression)?;
    if let Err(fault) = bindings.bind(bound, kind) {
        drop(expression);
        return Err(Refusal::from(fault));
    }
    Ok(ResolvedStatement::Set {
        variable,
        expression,
    })
}

//! Terms of ordinary statements, looked up: their form and their kind, or the fault where they aren't there.
ghost use Rattle.std.specs.Prelude.{◌≡◌};
ghost use Rattle.ent_value.specs.Refusal.{Gives};
ghost use Rattle.ent_form.specs.Bindings.{bound_in};
ghost use Rattle.ent_form.specs.Lookup.{value_in, values_in, reference_place, operand_place, operand_in};
ghost use Rattle.ent_form.specs.Lookup.{operands_in, kind_in, test_in, expression_in, expression_place};
ghost use Rattle.ent_form.specs.Seen.{scope_of};

use crate::binding::Bindings;
use crate::fault::FormFault;
use crate::row::same_kind;
use crate::scope::{SeenSources, column};
use ent_semantics::{Known, Operand as ResolvedOperand};
use ent_tree::{Boxed, ColumnReference, Expression, Operand, Test, ValueSpecification};
use ent_value::{Kind, Refusal};
use std::alloc::Global;

/// A column stands where its qualifier does, if it has one.
fn reference_place(reference: &ColumnReference) -> usize
    ensures { result ≡ reference_place reference.now }
{
    match &reference.qualifier {
        Some(qualifier) => qualifier.get().place,
        None => reference.column.place,
    }
}

fn operand_place(operand: &Operand) -> usize
    ensures { result ≡ operand_place operand.now }
{
    match operand {
        Operand::Value(value) => value.place(),
        Operand::Column(reference) => reference_place(reference),
    }
}

/// A value that is written, or a host variable that is bound.
pub(crate) fn value(
    alloc: Global,
    bindings: &Bindings,
    value: &ValueSpecification,
) -> Result<(Known, Kind), Refusal<FormFault>>
    ensures { Gives (λ found. found) result (value_in (bound_in bindings.now) value.now) }
{
    match value {
        ValueSpecification::Literal(literal) => Ok((
            Known::Constant(literal.value.copy(alloc)?),
            literal.value.kind(),
        )),
        ValueSpecification::HostVariable(variable) => {
            let Some(kind) = bindings.kind_of(&variable.name) else {
                return Err(Refusal::Fault(FormFault::NoHostVariable(variable.place)));
            };
            Ok((Known::HostVariable(variable.name.copy(alloc)?), kind))
        }
    }
}

/// A value of this kind.
pub(crate) fn value_of_kind(
    alloc: Global,
    bindings: &Bindings,
    wanted: Kind,
    term: &ValueSpecification,
) -> Result<Known, Refusal<FormFault>>
    ensures { Gives (λ known. known) result (kind_in (values_in (bound_in bindings.now)) wanted term.now) }
{
    let (known, kind) = value(alloc, bindings, term)?;
    if !same_kind(wanted, kind) {
        return Err(Refusal::Fault(FormFault::WrongKind(term.place())));
    }
    Ok(known)
}

/// A value, or a column of the sources.
pub(crate) fn operand(
    alloc: Global,
    sources: &SeenSources<'_>,
    bindings: &Bindings,
    operand: &Operand,
) -> Result<(ResolvedOperand<Known>, Kind), Refusal<FormFault>>
    ensures { Gives (λ found. found) result (operand_in (scope_of sources.now) (bound_in bindings.now) operand.now) }
{
    match operand {
        Operand::Value(term) => {
            let (known, kind) = value(alloc, bindings, term)?;
            Ok((ResolvedOperand::Known(known), kind))
        }
        Operand::Column(reference) => match column(sources, reference) {
            Ok((number, kind)) => Ok((ResolvedOperand::Column(number), kind)),
            Err(fault) => Err(Refusal::Fault(fault)),
        },
    }
}

/// An operand of this kind.
fn operand_of_kind(
    alloc: Global,
    sources: &SeenSources<'_>,
    bindings: &Bindings,
    wanted: Kind,
    term: &Operand,
) -> Result<ResolvedOperand<Known>, Refusal<FormFault>>
    ensures { let lookup = operands_in (scope_of sources.now) (bound_in bindings.now) in
        Gives (λ found. found) result (kind_in lookup wanted term.now) }
{
    let (found, kind) = operand(alloc, sources, bindings, term)?;
    if !same_kind(wanted, kind) {
        return Err(Refusal::Fault(FormFault::WrongKind(operand_place(term))));
    }
    Ok(found)
}

/// Both sides of a test are looked up before their kinds are compared.
#[tactic(auto, unfolding(crate::specs::Lookup::test_in))]
pub(crate) fn test(
    alloc: Global,
    sources: &SeenSources<'_>,
    bindings: &Bindings,
    test: &Test<Operand>,
) -> Result<Test<ResolvedOperand<Known>>, Refusal<FormFault>>
    ensures { let lookup = operands_in (scope_of sources.now) (bound_in bindings.now) in
        Gives (λ form. form) result (test_in lookup test.now) }
{
    let (left, left_kind) = operand(alloc, sources, bindings, &test.left)?;
    let (right, right_kind) = operand(alloc, sources, bindings, &test.right)?;
    if !same_kind(left_kind, right_kind) {
        return Err(Refusal::Fault(FormFault::WrongKind(operand_place(&test.right))));
    }
    Ok(Test {
        left,
        comparison: test.comparison,
        right,
    })
}

/// The right side of a SET, and its kind.
pub(crate) fn value_expression(
    alloc: Global,
    bindings: &Bindings,
    expression: &Expression<ValueSpecification>,
) -> Result<(Expression<Known>, Kind), Refusal<FormFault>>
    ensures { Gives (λ found. found) result (expression_in (values_in (bound_in bindings.now)) expression.now) }
{
    match expression {
        Expression::Single(term) => {
            let (known, kind) = value(alloc, bindings, term)?;
            Ok((Expression::Single(known), kind))
        }
        Expression::Sum(left, right) => {
            let left = value_of_kind(alloc, bindings, Kind::Int, left)?;
            let right = value_of_kind(alloc, bindings, Kind::Int, right.get())?;
            let right = Boxed::new(alloc, right)?;
            Ok((Expression::Sum(left, right), Kind::Int))
        }
        Expression::Difference(left, right) => {
            let left = value_of_kind(alloc, bindings, Kind::Int, left)?;
            let right = value_of_kind(alloc, bindings, Kind::Int, right.get())?;
            let right = Boxed::new(alloc, right)?;
            Ok((Expression::Difference(left, right), Kind::Int))
        }
    }
}

/// The right side of an assignment, and its kind.
pub(crate) fn operand_expression(
    alloc: Global,
    sources: &SeenSources<'_>,
    bindings: &Bindings,
    expression: &Expression<Operand>,
) -> Result<(Expression<ResolvedOperand<Known>>, Kind), Refusal<FormFault>>
    ensures { let lookup = operands_in (scope_of sources.now) (bound_in bindings.now) in
        Gives (λ found. found) result (expression_in lookup expression.now) }
{
    match expression {
        Expression::Single(term) => {
            let (found, kind) = operand(alloc, sources, bindings, term)?;
            Ok((Expression::Single(found), kind))
        }
        Expression::Sum(left, right) => {
            let left = operand_of_kind(alloc, sources, bindings, Kind::Int, left)?;
            let right = operand_of_kind(alloc, sources, bindings, Kind::Int, right.get())?;
            let right = Boxed::new(alloc, right)?;
            Ok((Expression::Sum(left, right), Kind::Int))
        }
        Expression::Difference(left, right) => {
            let left = operand_of_kind(alloc, sources, bindings, Kind::Int, left)?;
            let right = operand_of_kind(alloc, sources, bindings, Kind::Int, right.get())?;
            let right = Boxed::new(alloc, right)?;
            Ok((Expression::Difference(left, right), Kind::Int))
        }
    }
}

/// Where the right side of an assignment stands.
pub(crate) fn expression_place(expression: &Expression<Operand>) -> usize
    ensures { result ≡ expression_place operand_place expression.now }
{
    match expression {
        Expression::Single(term) | Expression::Sum(term, _) | Expression::Difference(term, _) => {
            operand_place(term)
        }
    }
}

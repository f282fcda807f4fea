//! The written variables of an entangled statement.
ghost use Rattle.std.specs.Prelude.{◌≡◌, OnOk, IfOk, map};
ghost use Rattle.ent_semantics.specs.Database.{index_of};
ghost use Rattle.ent_form.specs.Entangled.{noted, noted_terms, noted_items, noted_condition};
ghost use Rattle.ent_form.specs.Entangled.{noted_conditions, variables_of};

use crate::scope::is_among;
use ent_tree::{Condition, Entangled, EntangledItem, Term};
use ent_value::Name;
use std::alloc::{AllocError, Global};

/// How many names stand before the first such one: all, where there is none.
pub(crate) fn number_of(names: &[&Name], name: &Name) -> usize
    ensures { result ≡ index_of (map (λ other. other.now) names.now) name.now }
{
    for (number, other) in names.iter().enumerate() {
        if **other == *name {
            return number;
        }
    }
    names.len()
}

/// The variable that a term is goes behind the others, where it isn't there.
fn note<'a>(names: &mut Vec<&'a Name>, term: &'a Term) -> Result<(), AllocError>
    ensures { OnOk result (map (λ other. other.now) names.new.items
        ≡ noted (map (λ other. other.now) names.old.items) term.now) }
{
    if let Term::Variable(variable) = term {
        if !is_among(names, &variable.name) {
            names.push(&variable.name)?;
        }
    }
    Ok(())
}

fn note_terms<'a>(names: &mut Vec<&'a Name>, terms: &'a [Term]) -> Result<(), AllocError>
    ensures { OnOk result (map (λ other. other.now) names.new.items
        ≡ noted_terms (map (λ other. other.now) names.old.items) terms.now) }
{
    for term in terms {
        note(names, term)?;
    }
    Ok(())
}

fn note_items<'a>(names: &mut Vec<&'a Name>, items: &'a [EntangledItem]) -> Result<(), AllocError>
    ensures { OnOk result (map (λ other. other.now) names.new.items
        ≡ noted_items (map (λ other. other.now) names.old.items) items.now) }
{
    for item in items {
        note(names, &item.term)?;
    }
    Ok(())
}

fn note_condition<'a>(names: &mut Vec<&'a Name>, condition: &'a Condition) -> Result<(), AllocError>
    ensures { OnOk result (map (λ other. other.now) names.new.items
        ≡ noted_condition (map (λ other. other.now) names.old.items) condition.now) }
{
    match condition {
        Condition::InSelect(tuple, _) => note_terms(names, tuple.terms.as_slice()),
        Condition::InAnswer(tuple, _) => note_terms(names, tuple.terms.as_slice()),
        Condition::Test(test) => {
            note(names, &test.left)?;
            note(names, &test.right)
        }
    }
}

fn note_conditions<'a>(
    names: &mut Vec<&'a Name>,
    conditions: &'a [Condition],
) -> Result<(), AllocError>
    ensures { OnOk result (map (λ other. other.now) names.new.items
        ≡ noted_conditions (map (λ other. other.now) names.old.items) conditions.now) }
{
    for condition in conditions {
        note_condition(names, condition)?;
    }
    Ok(())
}

/// The written variables of a statement, in order of their first appearance: the select list comes first.
pub(crate) fn variables<'a>(
    alloc: Global,
    entangled: &'a Entangled,
) -> Result<Vec<&'a Name>, AllocError>
    ensures { IfOk result (λ names. map (λ other. other.now) names.items ≡ variables_of entangled.now) }
{
    let mut names = Vec::new(alloc);
    note_items(&mut names, entangled.items.as_slice())?;
    note_conditions(&mut names, entangled.conditions.as_slice())?;
    Ok(names)
}

//! The written variables of entangled statements.
ghost use Rattle.std.specs.Prelude.{[], ◌≡◌, ◌++◌, ◌∷◌, IfOk, List, OnOk, map, ℕ};
ghost use Rattle.std.specs.List.{flat_map};
ghost use Rattle.ent_semantics.specs.Entangled.{condition_terms, first_of_each, head_terms, term_variables};
ghost use Rattle.ent_semantics.specs.Entangled.{written_variables};

use ent_tree::{Condition, Entangled, EntangledItem, Term};
use ent_value::Name;
use std::alloc::{AllocError, Global};

fn push_variables(alloc: Global, names: &mut Vec<Name>, term: &Term) -> Result<(), AllocError>
    ensures { OnOk result (names.new.items ≡ names.old.items ++ term_variables term.now) }
{
    match term {
        Term::Value(_) => Ok(()),
        Term::Variable(variable) => {
            names.push(variable.name.copy(alloc)?)?;
            Ok(())
        }
    }
}

fn push_of_terms(alloc: Global, names: &mut Vec<Name>, terms: &[Term]) -> Result<(), AllocError>
    ensures { OnOk result (names.new.items ≡ names.old.items ++ flat_map term_variables terms.now) }
{
    for term in terms {
        push_variables(alloc, names, term)?;
    }
    Ok(())
}

fn push_of_items(
    alloc: Global,
    names: &mut Vec<Name>,
    items: &[EntangledItem],
) -> Result<(), AllocError>
    ensures { OnOk result (names.new.items
        ≡ names.old.items ++ flat_map term_variables (map (λ item. item.term) items.now)) }
{
    for item in items {
        push_variables(alloc, names, &item.term)?;
    }
    Ok(())
}

fn push_of_condition(
    alloc: Global,
    names: &mut Vec<Name>,
    condition: &Condition,
) -> Result<(), AllocError>
    ensures { OnOk result (names.new.items
        ≡ names.old.items ++ flat_map term_variables (condition_terms condition.now)) }
{
    match condition {
        Condition::InSelect(tuple, _) => push_of_terms(alloc, names, tuple.terms.as_slice()),
        Condition::InAnswer(tuple, _) => push_of_terms(alloc, names, tuple.terms.as_slice()),
        Condition::Test(test) => {
            push_variables(alloc, names, &test.left)?;
            push_variables(alloc, names, &test.right)
        }
    }
}

fn push_of_conditions(
    alloc: Global,
    names: &mut Vec<Name>,
    conditions: &[Condition],
) -> Result<(), AllocError>
    ensures { OnOk result (names.new.items
        ≡ names.old.items ++ flat_map term_variables (flat_map condition_terms conditions.now)) }
{
    for condition in conditions {
        push_of_condition(alloc, names, condition)?;
    }
    Ok(())
}

/// Puts a name at the end of those that come first, where it isn't there yet.
fn push_new(firsts: &mut Vec<Name>, name: Name) -> Result<(), AllocError>
    ensures { OnOk result ((names : List (List ℕ)) → firsts.old.items ≡ first_of_each names
        → firsts.new.items ≡ first_of_each (names ++ name ∷ [])) }
{
    if !firsts.contains(&name) {
        firsts.push(name)?;
    }
    Ok(())
}

/// Each name where it comes first.
fn first_of_each(alloc: Global, names: Vec<Name>) -> Result<Vec<Name>, AllocError>
    ensures { IfOk result (λ firsts. firsts.items ≡ first_of_each names.items) }
{
    let mut firsts = Vec::new(alloc);
    for name in names {
        push_new(&mut firsts, name)?;
    }
    Ok(firsts)
}

/// The written variables of an entangled statement, in order of their first appearance: the select list comes first.
pub fn written_variables(alloc: Global, entangled: &Entangled) -> Result<Vec<Name>, AllocError>
    ensures { IfOk result (λ names. names.items ≡ written_variables entangled.now) }
{
    let mut names = Vec::new(alloc);
    push_of_items(alloc, &mut names, entangled.items.as_slice())?;
    push_of_conditions(alloc, &mut names, entangled.conditions.as_slice())?;
    first_of_each(alloc, names)
}

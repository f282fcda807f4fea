//! The classes of a unifier, as a reply shows them.
use anyhow::Result;
use ent_scenario_files::replies::{Out, put, put_number, put_value};
use ent_unify::{Representative, Unifier, Variable};
use ent_value::Kind;
use std::alloc::Global;

/// Whether the same stands for two variables.
fn are_one_class(unifier: &Unifier, one: Variable, other: Variable) -> bool {
    match (unifier.constant_of(one), unifier.constant_of(other)) {
        (Some(value), Some(second)) => value == second,
        (None, None) => standing_for(unifier, one) == standing_for(unifier, other),
        _ => false,
    }
}

/// The variable that stands for a variable's class, where no value does.
fn standing_for(unifier: &Unifier, variable: Variable) -> Variable {
    match unifier.class_of(variable) {
        Some(Representative::Variable(other)) => *other,
        _ => variable,
    }
}

/// The members' variables, each of its kind.
fn variables_of(alloc: Global, kinds: &[&[Kind]]) -> Result<Vec<Variable>> {
    let mut found = Vec::new(alloc);
    for (member, of_member) in kinds.iter().enumerate() {
        for (index, kind) in of_member.iter().enumerate() {
            let kind = *kind;
            found.push(Variable {
                member,
                index,
                kind,
            })?;
        }
    }
    Ok(found)
}

/// The variables of a class, and its value where there is one, as `0.0 1.1='a'`.
fn put_class(
    alloc: Global,
    unifier: &Unifier,
    variables: &[Variable],
    first: Variable,
    out: &mut Out,
) {
    let mut before = "";
    for variable in variables {
        if are_one_class(unifier, first, *variable) {
            put(out, before);
            put_number(out, variable.member);
            put(out, ".");
            put_number(out, variable.index);
            before = " ";
        }
    }
    if let Some(value) = unifier.constant_of(first) {
        put(out, "=");
        put_value(alloc, out, value);
    }
}

/// Whether a variable is the first of its class.
fn is_first(unifier: &Unifier, variables: &[Variable], variable: Variable) -> bool {
    for other in variables {
        if are_one_class(unifier, *other, variable) {
            return *other == variable;
        }
    }
    false
}

/// The classes, each where its first variable stands.
pub(crate) fn put_classes(
    alloc: Global,
    unifier: &Unifier,
    kinds: &[&[Kind]],
    out: &mut Out,
) -> Result<()> {
    let variables = variables_of(alloc, kinds)?;
    put_each_class(alloc, unifier, variables.as_slice(), out);
    Ok(())
}

fn put_each_class(alloc: Global, unifier: &Unifier, variables: &[Variable], out: &mut Out) {
    let mut before = "classes ";
    for variable in variables {
        if is_first(unifier, variables, *variable) {
            put(out, before);
            put_class(alloc, unifier, variables, *variable, out);
            before = "; ";
        }
    }
    if variables.is_empty() {
        put(out, "equal");
    }
}

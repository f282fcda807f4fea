//! The classes of variables that have one value, by number.
ghost use Rattle.std.specs.Prelude.{◌≡◌, ◌<◌, [], IfOk, MatchOption, length, slice_index_or};
ghost use Rattle.ent_unify.specs.Unifier.{kinds_seen};
ghost use Rattle.ent_plan.specs.Classes.{AreClasses, AreSlotRows, IsNewTo, IsNumberOf, IsNumbered, IsSlotRow, IsSlot};
ghost use Rattle.ent_plan.specs.declared.slot.Slot.TheVariants.{Class as Numbered};

use crate::slot::Slot;
use ent_unify::{Representative, Unifier, Variable};
use ent_value::{Kind, Sequence};
use std::alloc::{AllocError, Global};

/// A class of variables: what stands for it, and the first of its variables.
#[derive(Clone, Copy)]
pub struct Class {
    pub representative: Variable,
    pub first: Variable,
}

/// The number of the class that a variable stands for.
fn number_of(classes: &[Class], representative: Variable) -> Option<usize>
    ensures { MatchOption result (IsNewTo classes.now representative) (IsNumberOf classes.now representative) }
{
    for (number, class) in classes.iter().enumerate() {
        if class.representative == representative {
            return Some(number);
        }
    }
    None
}

/// The number of a variable's class, which is the next one where the class has none.
fn numbered(
    classes: &mut Vec<Class>,
    representative: Variable,
    variable: Variable,
) -> Result<usize, AllocError>
    ensures { IfOk result (IsNumbered representative variable classes.old.items classes.new.items) }
{
    if let Some(number) = number_of(classes.as_slice(), representative) {
        return Ok(number);
    }
    let number = classes.len();
    classes.push(Class {
        representative,
        first: variable,
    })?;
    Ok(number)
}

/// What a variable is: the value that its class must have, or the number of its class.
fn slot_of(
    alloc: Global,
    classes: &mut Vec<Class>,
    unifier: &Unifier,
    variable: Variable,
) -> Result<Slot, AllocError>
    ensures { IfOk result (IsSlot unifier.now variable classes.old.items classes.new.items) }
{
    match unifier.class_of(variable) {
        Some(Representative::Constant(value)) => Ok(Slot::Fixed(value.copy(alloc)?)),
        Some(Representative::Variable(other)) => {
            let number = numbered(classes, *other, variable)?;
            Ok(Slot::Class(number))
        }
        None => {
            let number = numbered(classes, variable, variable)?;
            Ok(Slot::Class(number))
        }
    }
}

/// What each variable of a member is.
fn row_of(
    alloc: Global,
    classes: &mut Vec<Class>,
    unifier: &Unifier,
    kinds: &[&[Kind]],
    member: usize,
) -> Result<Sequence<Slot>, AllocError>
    requires member { member < length kinds.now }
    requires classes { AreClasses unifier.now (kinds_seen kinds.now) classes.old.items }
    ensures { IfOk result (IsSlotRow unifier.now (kinds_seen kinds.now) member classes.old.items classes.new.items) }
{
    let mut slots = Sequence::new(alloc);
    let variables = kinds[member];
    for (index, kind) in variables.iter().enumerate() {
        let variable = Variable {
            member,
            index,
            kind: *kind,
        };
        let slot = slot_of(alloc, classes, unifier, variable)?;
        slots.push(slot)?;
    }
    Ok(slots)
}

/// What each variable of each member is.
pub(crate) fn rows_of(
    alloc: Global,
    classes: &mut Vec<Class>,
    unifier: &Unifier,
    kinds: &[&[Kind]],
) -> Result<Vec<Sequence<Slot>>, AllocError>
    requires { classes.old.items ≡ [] }
    ensures { IfOk result (λ rows. AreSlotRows unifier.now (kinds_seen kinds.now) classes.new.items rows.items) }
{
    let mut rows = Vec::new(alloc);
    for member in 0..kinds.len() {
        let row = row_of(alloc, classes, unifier, kinds, member)?;
        rows.push(row)?;
    }
    Ok(rows)
}

//! Marks of places, and room for them.
ghost use Rattle.std.specs.Prelude.{◌≡◌, ◌<◌, ◌≤◌, true, IfOk, List, Bool, OnOk, length};
ghost use Rattle.std.specs.List.{AllByRecursion};
ghost use Rattle.ent_match.specs.Links.{IsMarked};
ghost use Rattle.ent_join.specs.Reason.{AreMarkedIn};
ghost use Rattle.ent_join.specs.Dead.{IsNoneBefore};

use std::alloc::{AllocError, Global};
use std::marker::Model;

/// Marks a place, where there is one.
pub(crate) fn mark(marks: &mut [bool], place: usize)
    ensures kept { AreMarkedIn marks.old marks.new }
    ensures marked { place < length marks.old → IsMarked marks.new place }
{
    if place < marks.len() {
        marks[place] = true;
    }
}

/// Marks places, where they are.
pub(crate) fn mark_each(marks: &mut [bool], places: &[usize])
    ensures kept { AreMarkedIn marks.old marks.new }
    ensures marked { AllByRecursion (λ place. place < length marks.old → IsMarked marks.new place) places.now }
{
    if let [place, places @ ..] = places {
        mark(marks, *place);
        mark_each(marks, places);
    }
}

/// Marks the places that are marked in `more`.
pub(crate) fn add_all(marks: &mut [bool], more: &[bool])
    requires { length marks.old ≡ length more.now }
    ensures kept { AreMarkedIn marks.old marks.new }
    ensures more { AreMarkedIn more.now marks.new }
{
    for place in 0..marks.len() {
        if more[place] {
            marks[place] = true;
        }
    }
}

/// Marks the places that are marked in `from`, and no others.
pub(crate) fn set_all(marks: &mut [bool], from: &[bool])
    requires { length marks.old ≡ length from.now }
    ensures { AreMarkedIn from.now marks.new }
{
    for place in 0..marks.len() {
        marks[place] = from[place];
    }
}

/// Whether no place before one is marked.
pub(crate) fn is_none_before(marks: &[bool], place: usize) -> bool
    requires { place ≤ length marks.now }
    ensures { result ≡ true → IsNoneBefore marks.now place }
{
    for before in 0..place {
        if marks[before] {
            return false;
        }
    }
    true
}

/// Takes all marks away.
pub(crate) fn clear(marks: &mut [bool]) {
    for mark in marks.iter_mut() {
        *mark = false;
    }
}

/// Room for marks that nobody uses now. Contracts see how many places marks have.
#[derive(Drop)]
pub(crate) struct Rooms {
    width: usize,
    spare: Vec<Vec<bool>>,
}

impl Model for Rooms {
    ghost use Rattle.std.specs.Prelude.{◌≡◌, ℕ, length};
    ghost use Rattle.std.specs.List.{AllByRecursion};

    ghost Value = { ℕ };

    ghost view = { λ r. r.width };

    ghost invariant = { λ r. AllByRecursion (λ marks. length marks.items ≡ r.width) r.spare.items };
}

impl Rooms {
    /// None yet, for marks of so many places.
    pub(crate) fn new(alloc: Global, width: usize) -> Self
        ensures { result ≡ width }
    {
        let spare = Vec::new(alloc);
        Rooms { width, spare }
    }

    /// Marks of no place, in room that was given back where there is some.
    pub(crate) fn take(&mut self, alloc: Global) -> Result<Vec<bool>, AllocError>
        ensures width { IfOk result (λ marks. length marks.items ≡ self.old) }
        ensures same { self.new ≡ self.old }
    {
        match self.spare.pop() {
            None => Ok(vec![in alloc; false; self.width]?),
            Some(mut marks) => {
                clear(marks.as_mut_slice());
                Ok(marks)
            }
        }
    }

    /// Takes back the room of marks.
    pub(crate) fn give_back(&mut self, marks: Vec<bool>) -> Result<(), AllocError>
        requires { length marks.items ≡ self.old }
        ensures { self.new ≡ self.old }
    {
        self.spare.push(marks)?;
        Ok(())
    }
}

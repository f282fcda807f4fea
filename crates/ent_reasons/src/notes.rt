//! The notes of all transactions.
ghost use Rattle.std.specs.Prelude.{◌≡◌, ◌<◌, ◌∷◌, [], ℕ, OnOk, false, true, length};
ghost use Rattle.ent_reasons.specs.Noted.{IsNoted, each, note_of};

use crate::note::{Change, Note};
use ent_group::Tx;
use std::alloc::{AllocError, Global};
use std::marker::Model;

/// The notes of all transactions. Where memory runs out for one, it is marked that they aren't whole.
#[derive(Drop)]
pub struct Notes {
    /// By number; there is no transaction 0.
    notes: Vec<Note>,
    is_whole: bool,
}

impl Model for Notes {
    ghost use Rattle.ent_reasons.specs.Noted.{Noted};

    ghost Value = { Noted };

    ghost view = { λ n. record { notes = n.notes.items; is_whole = n.is_whole } };
}

impl Notes {
    /// Nothing is noted yet.
    pub fn new(alloc: Global) -> Self
        ensures { result ≡ record { notes = []; is_whole = true } }
    {
        Notes {
            notes: Vec::new(alloc),
            is_whole: true,
        }
    }

    /// Whether all that was told is noted.
    pub fn is_whole(&self) -> bool
        ensures { result ≡ self.now.is_whole }
    {
        self.is_whole
    }

    /// Marks that something was told which isn't noted.
    pub fn lose(&mut self)
        ensures { self.new ≡ record { notes = self.old.notes; is_whole = false } }
    {
        self.is_whole = false;
    }

    /// The notes by number, from 0, which is no transaction's. Behind the last nobody was in a run.
    pub fn by_number(&self) -> &[Note]
        ensures { result.now ≡ self.now.notes }
    {
        self.notes.as_slice()
    }

    /// Changes the notes of some transactions, each in its turn.
    pub fn change_each(&mut self, members: &[Tx], change: &Change)
        ensures { IsNoted members.now change.now self.old self.new }
    {
        if change_all(&mut self.notes, members, change).is_err() {
            self.is_whole = false;
        }
    }
}

/// Makes notes up to that of a transaction. Where memory runs out some may be made.
fn extend_to(notes: &mut Vec<Note>, place: usize) -> Result<(), AllocError>
    ensures same { (tx : ℕ) → note_of notes.new.items tx ≡ note_of notes.old.items tx }
    ensures ok { OnOk result (place < length notes.new.items) }
{
    while notes.len() <= place {
        notes.push(Note::new())?;
    }
    Ok(())
}

/// Changes the note of a transaction. Where memory runs out nothing is said.
fn change_one(notes: &mut Vec<Note>, tx: Tx, change: &Change) -> Result<(), AllocError>
    ensures { OnOk result ((other : ℕ) →
        note_of notes.new.items other ≡ each (tx ∷ []) change.now other (note_of notes.old.items other)) }
{
    let place = tx as usize;
    extend_to(notes, place)?;
    notes[place].change(change);
    Ok(())
}

/// Changes the notes of some transactions, each in its turn. Where memory runs out nothing is said.
fn change_all(notes: &mut Vec<Note>, members: &[Tx], change: &Change) -> Result<(), AllocError>
    ensures { OnOk result ((tx : ℕ) →
        note_of notes.new.items tx ≡ each members.now change.now tx (note_of notes.old.items tx)) }
{
    for tx in members {
        change_one(notes, *tx, change)?;
    }
    Ok(())
}

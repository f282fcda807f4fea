//! Rows of tables, collected value by value.
ghost use Rattle.std.specs.Prelude.{◌≡◌, ◌⊎◌, ◌++◌, ◌∷◌, [], true, IfErr, IfOk, OnErr, OnOk, length};
ghost use Rattle.ent_bound.specs.Bindable.{IsBindableText};
ghost use Rattle.ent_prepare.specs.Givable.{IsGivable};
ghost use Rattle.ent_tree.specs.declared.limits.TheConstants.{MOST_PARTS};
ghost use Rattle.ent_value.specs.Name.{is_word};
ghost use Rattle.ent_value.specs.declared.value.Value.TheVariants.{Text};
ghost use Rattle.ent_room_calls.specs.Rows.{AddsTo, HasNoPlace, with_row};
ghost use Rattle.ent_room_calls.specs.Values.{IsNoText, IsNotAdded};
ghost use Rattle.ent_room_calls.specs.declared.fault.RoomFault.TheVariants.{Memory, TooManyValues};

use crate::fault::RoomFault;
use ent_prepare::{GivenRow, GivenValue};
use ent_tree::MOST_PARTS;
use ent_value::{Limited, Name, Refusal, is_word};
use std::alloc::Global;
use std::marker::Model;

/// Rows of tables, in the order in which they were begun; at least one. Contracts see the list.
#[derive(Drop)]
pub struct GivenRows {
    list: Vec<GivenRow>,
}

impl Model for GivenRows {
    ghost use Rattle.std.specs.Prelude.{List, length, ◌<◌};
    ghost use Rattle.ent_prepare.specs.declared.row.GivenRow.{GivenRow as Row};

    ghost Value = { List Row };

    ghost view = { λ rows. rows.list.items };

    ghost invariant = { λ rows. 0 < length rows.list.items };
}

/// A row of this table, without a value yet.
fn row_of(alloc: Global, table: &[u8]) -> Result<GivenRow, RoomFault>
    ensures row { IfOk result (λ row. row ≡ record { table = table.now; values = [] }) }
    ensures word { OnOk result (is_word table.now ≡ true) }
    ensures refused { IfErr result (λ fault. IsNotAdded table.now fault) }
{
    if !is_word(table) {
        return Err(RoomFault::NoName);
    }
    Ok(GivenRow {
        table: Name::new(alloc, table)?,
        values: Limited::new(alloc),
    })
}

/// Adds a value to a row. At a refusal nothing changes.
fn add_to(row: &mut GivenRow, value: GivenValue) -> Result<(), RoomFault>
    ensures ok { OnOk result (row.new ≡ record row.old { values = row.old.values ++ value ∷ [] }) }
    ensures err { OnErr result (row.new ≡ row.old) }
    ensures refused { IfErr result (λ fault. (fault ≡ Memory)
        ⊎ ((fault ≡ TooManyValues) × (length row.old.values ≡ MOST_PARTS))) }
{
    if row.values.len() == MOST_PARTS {
        return Err(RoomFault::TooManyValues);
    }
    row.values.push(value)?;
    Ok(())
}

impl GivenRows {
    /// A row of this table alone, without a value yet.
    pub fn of(alloc: Global, table: &[u8]) -> Result<Self, RoomFault>
        ensures rows { IfOk result (λ rows. rows ≡ with_row table.now []) }
        ensures word { OnOk result (is_word table.now ≡ true) }
        ensures refused { IfErr result (λ fault. IsNotAdded table.now fault) }
    {
        let mut list = Vec::new(alloc);
        list.push(row_of(alloc, table)?)?;
        Ok(GivenRows { list })
    }

    /// The rows, in the order in which they were begun.
    pub fn as_slice(&self) -> &[GivenRow]
        ensures { result.now ≡ self.now }
    {
        self.list.as_slice()
    }

    /// Begins a row of this table behind those that there are. At a refusal nothing changes.
    pub fn begin(&mut self, alloc: Global, table: &[u8]) -> Result<(), RoomFault>
        ensures ok { OnOk result (self.new ≡ with_row table.now self.old) }
        ensures word { OnOk result (is_word table.now ≡ true) }
        ensures err { OnErr result (self.new ≡ self.old) }
        ensures refused { IfErr result (λ fault. IsNotAdded table.now fault) }
    {
        let row = row_of(alloc, table)?;
        self.list.push(row)?;
        Ok(())
    }

    /// Adds a value to the row that was begun last. At a refusal nothing changes.
    pub fn add(&mut self, value: GivenValue) -> Result<(), RoomFault>
        ensures ok { OnOk result (AddsTo value self.old self.new) }
        ensures fits { IsGivable value }
        ensures err { OnErr result (self.new ≡ self.old) }
        ensures refused { IfErr result (λ fault. HasNoPlace self.old fault) }
    {
        // Asked for its invariant alone.
        let _value = value.get();
        let Some(mut last) = self.list.pop() else {
            unreachable!()
        };
        match add_to(&mut last, value) {
            Ok(()) => {
                self.list.push_reserved(last);
                Ok(())
            }
            Err(fault) => {
                self.list.push_reserved(last);
                Err(fault)
            }
        }
    }
}

/// A text as a value of a row.
pub fn given_text(alloc: Global, text: &[u8]) -> Result<GivenValue, RoomFault>
    ensures ok { IfOk result (λ value. (value ≡ Text text.now) × IsBindableText text.now) }
    ensures refused { IfErr result (λ fault. IsNoText text.now fault) }
{
    match GivenValue::text(alloc, text) {
        Ok(value) => Ok(value),
        Err(Refusal::Memory) => Err(RoomFault::Memory),
        Err(Refusal::Fault(fault)) => Err(RoomFault::Value(fault)),
    }
}

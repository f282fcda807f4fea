//! Values for host variables, by their bytes.
ghost use Rattle.std.specs.Prelude.{◌≡◌, [], true, IfErr, IfOk, OnErr, OnOk};
ghost use Rattle.ent_bound.specs.Bindable.{IsBindable};
ghost use Rattle.ent_value.specs.Name.{is_word};
ghost use Rattle.ent_value.specs.declared.value.Value.TheVariants.{Int, Text};
ghost use Rattle.ent_room_calls.specs.Values.{IsNoNumber, IsNoText, IsNotAdded, with_value};

use crate::fault::RoomFault;
use ent_bound::{BoundValue, BoundVariable};
use ent_value::{Name, Refusal, is_word};
use std::alloc::Global;
use std::marker::Model;

/// Values for host variables, in the order in which they were added. Contracts see the list.
#[derive(Drop)]
pub struct BoundValues {
    list: Vec<BoundVariable>,
}

impl Model for BoundValues {
    ghost use Rattle.std.specs.Prelude.{List};
    ghost use Rattle.ent_bound.specs.declared.variable.BoundVariable.{BoundVariable as Variable};

    ghost Value = { List Variable };

    ghost view = { λ values. values.list.items };
}

impl BoundValues {
    /// None yet.
    pub fn new(alloc: Global) -> Self
        ensures { result ≡ [] }
    {
        BoundValues {
            list: Vec::new(alloc),
        }
    }

    /// The values, in the order in which they were added.
    pub fn as_slice(&self) -> &[BoundVariable]
        ensures { result.now ≡ self.now }
    {
        self.list.as_slice()
    }

    /// Adds a value for the host variable of this name, which goes without the `@`. At a refusal nothing changes.
    pub fn add(&mut self, alloc: Global, name: &[u8], value: BoundValue) -> Result<(), RoomFault>
        ensures ok { OnOk result (self.new ≡ with_value name.now value self.old) }
        ensures word { OnOk result (is_word name.now ≡ true) }
        ensures err { OnErr result (self.new ≡ self.old) }
        ensures refused { IfErr result (λ fault. IsNotAdded name.now fault) }
    {
        if !is_word(name) {
            return Err(RoomFault::NoName);
        }
        let name = Name::new(alloc, name)?;
        self.list.push(BoundVariable { name, value })?;
        Ok(())
    }
}

/// A number as a value that can be bound.
pub fn bound_number(number: i64) -> Result<BoundValue, RoomFault>
    ensures ok { IfOk result (λ value. value ≡ Int number) }
    ensures refused { IfErr result (λ fault. IsNoNumber number fault) }
{
    match BoundValue::number(number) {
        Ok(value) => Ok(value),
        Err(fault) => Err(RoomFault::Value(fault)),
    }
}

/// A text as a value that can be bound.
pub fn bound_text(alloc: Global, text: &[u8]) -> Result<BoundValue, RoomFault>
    ensures ok { IfOk result (λ value. (value ≡ Text text.now) × IsBindable (Text text.now)) }
    ensures refused { IfErr result (λ fault. IsNoText text.now fault) }
{
    match BoundValue::text(alloc, text) {
        Ok(value) => Ok(value),
        Err(Refusal::Memory) => Err(RoomFault::Memory),
        Err(Refusal::Fault(fault)) => Err(RoomFault::Value(fault)),
    }
}

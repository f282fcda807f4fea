//! Values that no list that passes has at their places.
ghost use Rattle.std.specs.Prelude.{◌≡◌, ◌<◌, ◌⊎◌, [], IfOk, OnOk, List, true, length};
ghost use Rattle.std.specs.List.{AllByRecursion};
ghost use Rattle.std.specs.List.Sorted.{IsSearchInRange};
ghost use Rattle.ent_value.specs.declared.value.Value.{Value as Held};
ghost use Rattle.ent_join.specs.Cursor.{IsAmong};
ghost use Rattle.ent_join.specs.Dead.{HasLearnt, dead_at};

use crate::reason::is_none_before;
use ent_value::Value;
use std::alloc::{AllocError, Global};
use std::marker::Model;

/// For each place values that are dead there: no list that passes has them at it. Contracts see these values.
#[derive(Drop)]
pub(crate) struct Dead {
    places: Vec<Vec<Value>>,
}

impl Model for Dead {
    ghost use Rattle.std.specs.Prelude.{List, map};
    ghost use Rattle.ent_value.specs.declared.value.Value.{Value as Held};

    ghost Value = { List (List Held) };

    ghost view = { λ d. map (λ values. values.items) d.places.items };
}

impl Dead {
    /// None yet, of so many places.
    pub(crate) fn new(alloc: Global, count: usize) -> Result<Self, AllocError>
        ensures { IfOk result (λ dead. AllByRecursion (λ values. values ≡ []) dead) }
    {
        let mut places = Vec::new(alloc);
        for _place in 0..count {
            places.push(Vec::new(alloc))?;
        }
        Ok(Dead { places })
    }

    /// Whether a value is dead at a place.
    pub(crate) fn has(&self, place: usize, value: &Value) -> bool
        ensures { result ≡ true → IsAmong value.now (dead_at self.now place) }
    {
        match self.places.get(place) {
            None => false,
            Some(values) => place_of(values.as_slice(), value).is_ok(),
        }
    }

    /// Keeps a value of a place as dead where no place before it is marked among those for which the value fails. The
    /// first place isn't tried again, and so none is kept of it.
    pub(crate) fn learn(
        &mut self,
        alloc: Global,
        place: usize,
        value: &Value,
        reason: &[bool],
    ) -> Result<(), AllocError>
        requires { place < length reason.now }
        ensures { OnOk result (HasLearnt self.old self.new place value.now reason.now) }
    {
        if place > 0 && place < self.places.len() && is_none_before(reason, place) {
            insert(alloc, &mut self.places[place], value)?;
        }
        Ok(())
    }
}

/// Where a value stands in a list in ascending order, or where it would go.
fn place_of(values: &[Value], value: &Value) -> Result<usize, usize>
    ensures within { IsSearchInRange result (length values.now) }
    ensures found { IfOk result (λ _. IsAmong value.now values.now) }
{
    values.binary_search_by(|other| other.cmp(value))
}

/// Puts a value into a list in ascending order.
fn insert(alloc: Global, values: &mut Vec<Value>, value: &Value) -> Result<(), AllocError>
    ensures { OnOk result ((other : Held) → IsAmong other values.new.items
        → IsAmong other values.old.items ⊎ (other ≡ value.now)) }
{
    if let Err(index) = place_of(values.as_slice(), value) {
        values.insert(index, value.copy(alloc)?)?;
    }
    Ok(())
}

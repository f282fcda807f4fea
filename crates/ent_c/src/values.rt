//! Values for host variables that a caller of C collects.
ghost use Rattle.std.specs.Prelude.{◌≡◌, IfErr, OnErr, OnOk};
ghost use Rattle.std.specs.declared.option.Option.TheVariants.{None, Some};
ghost use Rattle.ent_value.specs.declared.value.Value.TheVariants.{Int, Text};
ghost use Rattle.ent_room_calls.specs.Values.{IsNoNumber, IsNoText, IsNotAdded, with_value};
ghost use Rattle.ent_c.specs.Bound.{AddsValue};
ghost use Rattle.ent_c.specs.Rooms.{bound_in};

use crate::room_told::tell;
use crate::values_handle::ValuesHandle;
use ent_bound::BoundValue;
use ent_room_calls::{BoundValues, RoomFault, bound_number, bound_text};
use std::alloc::Global;

/// Adds a value to those behind a handle, or begins with it where the handle is null.
fn add(
    alloc: Global,
    handle: &mut ValuesHandle,
    name: &[u8],
    value: BoundValue,
) -> Result<(), RoomFault>
    ensures ok { OnOk result (handle.new.held ≡ Some (with_value name.now value (bound_in handle.old.held))) }
    ensures err { OnErr result (handle.new.held ≡ handle.old.held) }
    ensures refused { IfErr result (λ fault. IsNotAdded name.now fault) }
{
    match handle.take(alloc) {
        Some(mut values) => {
            let added = values.add(alloc, name, value);
            handle.put(values);
            added
        }
        None => {
            let mut values = Box::new(alloc, BoundValues::new(alloc))?;
            values.add(alloc, name, value)?;
            handle.put(values);
            Ok(())
        }
    }
}

/// Adds a number for the host variable of this name.
#[unsafe(no_mangle)]
pub extern "C" fn ent_c_values_int(
    alloc: Global,
    handle: &mut ValuesHandle,
    name: &[u8],
    number: i64,
    refusal: &mut u32,
) -> i32
    ensures { AddsValue name.now (Int number) (IsNoNumber number) handle.old.held handle.new.held refusal.new result }
{
    let added = match bound_number(number) {
        Ok(value) => add(alloc, handle, name, value),
        Err(fault) => Err(fault),
    };
    tell(added, refusal)
}

/// Adds a text for the host variable of this name.
#[unsafe(no_mangle)]
pub extern "C" fn ent_c_values_text(
    alloc: Global,
    handle: &mut ValuesHandle,
    name: &[u8],
    text: &[u8],
    refusal: &mut u32,
) -> i32
    ensures { AddsValue name.now (Text text.now) (IsNoText text.now) handle.old.held handle.new.held refusal.new
        result }
{
    let added = match bound_text(alloc, text) {
        Ok(value) => add(alloc, handle, name, value),
        Err(fault) => Err(fault),
    };
    tell(added, refusal)
}

/// Frees values, and leaves null; a null handle stays so.
#[unsafe(no_mangle)]
pub extern "C" fn ent_c_values_free(alloc: Global, handle: &mut ValuesHandle)
    ensures { handle.new.held ≡ None }
{
    drop(handle.take(alloc));
}

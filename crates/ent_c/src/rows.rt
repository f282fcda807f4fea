//! Rows of tables that a caller of C collects.
ghost use Rattle.std.specs.Prelude.{◌≡◌, ◌⊎◌, IfErr, OnErr, OnOk, true};
ghost use Rattle.std.specs.declared.option.Option.TheVariants.{None, Some};
ghost use Rattle.ent_prepare.specs.Givable.{IsGivable};
ghost use Rattle.ent_room_calls.specs.Rows.{AddsTo, HasNoPlace, with_row};
ghost use Rattle.ent_room_calls.specs.Values.{IsNoText, IsNotAdded};
ghost use Rattle.ent_value.specs.Name.{is_word};
ghost use Rattle.ent_value.specs.declared.value.Value.TheVariants.{Int, Text};
ghost use Rattle.ent_c.specs.Given.{AddsToRow, BeginsRow};
ghost use Rattle.ent_c.specs.Rooms.{given_in};

use crate::MISUSED;
use crate::room_told::tell;
use crate::rows_handle::RowsHandle;
use ent_prepare::GivenValue;
use ent_room_calls::{GivenRows, RoomFault, given_text};
use std::alloc::Global;

/// Begins a row behind those behind a handle, or begins with it where the handle is null.
fn begin(alloc: Global, handle: &mut RowsHandle, table: &[u8]) -> Result<(), RoomFault>
    ensures ok { OnOk result (handle.new.held ≡ Some (with_row table.now (given_in handle.old.held))) }
    ensures word { OnOk result (is_word table.now ≡ true) }
    ensures err { OnErr result (handle.new.held ≡ handle.old.held) }
    ensures refused { IfErr result (λ fault. IsNotAdded table.now fault) }
{
    match handle.take(alloc) {
        Some(mut rows) => {
            let begun = rows.begin(alloc, table);
            handle.put(rows);
            begun
        }
        None => {
            let rows = Box::new(alloc, GivenRows::of(alloc, table)?)?;
            handle.put(rows);
            Ok(())
        }
    }
}

/// Begins a row of the table of this name.
#[unsafe(no_mangle)]
pub extern "C" fn ent_c_rows_begin(
    alloc: Global,
    handle: &mut RowsHandle,
    table: &[u8],
    refusal: &mut u32,
) -> i32
    ensures { BeginsRow table.now handle.old.held handle.new.held refusal.new result }
{
    let begun = begin(alloc, handle, table);
    tell(begun, refusal)
}

/// Adds a text to the row that was begun last.
fn add_text(alloc: Global, rows: &mut GivenRows, text: &[u8]) -> Result<(), RoomFault>
    ensures ok { OnOk result (AddsTo (Text text.now) rows.old rows.new) }
    ensures fits { OnOk result (IsGivable (Text text.now)) }
    ensures err { OnErr result (rows.new ≡ rows.old) }
    ensures refused { IfErr result (λ fault. IsNoText text.now fault ⊎ HasNoPlace rows.old fault) }
{
    let value = given_text(alloc, text)?;
    rows.add(value)
}

/// Adds a number to the row that was begun last.
#[unsafe(no_mangle)]
pub extern "C" fn ent_c_rows_int(
    alloc: Global,
    handle: &mut RowsHandle,
    number: i64,
    refusal: &mut u32,
) -> i32
    ensures { AddsToRow (Int number) (λ fault. ⊥) handle.old.held handle.new.held refusal.old refusal.new result }
{
    let Some(mut rows) = handle.take(alloc) else {
        return MISUSED;
    };
    let added = rows.add(GivenValue::number(number));
    handle.put(rows);
    tell(added, refusal)
}

/// Adds a text to the row that was begun last.
#[unsafe(no_mangle)]
pub extern "C" fn ent_c_rows_text(
    alloc: Global,
    handle: &mut RowsHandle,
    text: &[u8],
    refusal: &mut u32,
) -> i32
    ensures { AddsToRow (Text text.now) (IsNoText text.now) handle.old.held handle.new.held refusal.old refusal.new
        result }
{
    let Some(mut rows) = handle.take(alloc) else {
        return MISUSED;
    };
    let added = add_text(alloc, &mut rows, text);
    handle.put(rows);
    tell(added, refusal)
}

/// Frees rows, and leaves null; a null handle stays so.
#[unsafe(no_mangle)]
pub extern "C" fn ent_c_rows_free(alloc: Global, handle: &mut RowsHandle)
    ensures { handle.new.held ≡ None }
{
    drop(handle.take(alloc));
}

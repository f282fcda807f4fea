//! An epoch turns, by the names of the tables that are drained.
ghost use Rattle.std.specs.Prelude.{◌≡◌, ◌⊎◌, ◌<◌, ◌++◌, ◌∷◌, [], length, true, false};
ghost use Rattle.std.specs.Prelude.{IfErr, IfOk, IfSome, MatchOption, OnErr, OnOk};
ghost use Rattle.std.specs.List.{filter, list_all, position_from};
ghost use Rattle.ent_room_calls.specs.Turning.{IsNotTurned, Turns, are_tables, has_bytes, is_space, is_table};
ghost use Rattle.ent_room_calls.specs.Turning.{pieces, words};
ghost use Rattle.ent_room_calls.specs.declared.fault.RoomFault.TheVariants.{Absent, Memory};

use crate::fault::RoomFault;
use ent_room::{NotTurned, Room};
use ent_value::{Name, Refusal, is_word};
use std::alloc::Global;

/// The name of one of the room's tables.
fn table_name(alloc: Global, room: &Room, word: &[u8]) -> Result<Name, RoomFault>
    ensures name { IfOk result (λ name. name ≡ word.now) }
    ensures table { IfOk result (λ name. is_table room.now word.now ≡ true) }
    ensures refused { IfErr result (λ fault. (fault ≡ Memory)
        ⊎ ((fault ≡ Absent) × (is_table room.now word.now ≡ false))) }
{
    if !is_word(word) {
        return Err(RoomFault::Absent);
    }
    let name = Name::new(alloc, word)?;
    match room.table(&name) {
        Some(_) => Ok(name),
        None => Err(RoomFault::Absent),
    }
}

/// Adds the name of one of the room's tables, if there is one.
fn add_name(alloc: Global, room: &Room, word: &[u8], names: &mut Vec<Name>) -> Result<(), RoomFault>
    ensures added { OnOk result (names.new.items ≡ names.old.items ++ filter has_bytes (word.now ∷ [])) }
    ensures tables { OnOk result (list_all (is_table room.now) (filter has_bytes (word.now ∷ [])) ≡ true) }
    ensures refused { IfErr result (λ fault. (fault ≡ Memory)
        ⊎ ((fault ≡ Absent) × (list_all (is_table room.now) (filter has_bytes (word.now ∷ [])) ≡ false))) }
{
    if word.is_empty() {
        return Ok(());
    }
    let name = table_name(alloc, room, word)?;
    names.push(name)?;
    Ok(())
}

/// Where the first space stands.
fn space_in(text: &[u8]) -> Option<usize>
    ensures first { result ≡ position_from is_space 0 text.now }
    ensures within { IfSome result (λ place. place < length text.now) }
{
    text.iter().position(|byte| *byte == b' ')
}

/// What stands before the first space, and behind it.
fn cut(text: &[u8]) -> Option<(&[u8], &[u8])>
    ensures cut { MatchOption result (pieces text.now ≡ text.now ∷ [])
        (λ cut. pieces text.now ≡ cut.0.now ∷ pieces cut.1.now) }
    ensures shorter { IfSome result (λ cut. length cut.1.now < length text.now) }
{
    match space_in(text) {
        Some(place) => Some((&text[..place], &text[place + 1..])),
        None => None,
    }
}

/// The names of the room's tables that stand in a text, separated by spaces.
fn table_names(alloc: Global, room: &Room, text: &[u8]) -> Result<Vec<Name>, RoomFault>
    ensures names { IfOk result (λ names. names.items ≡ words text.now) }
    ensures tables { IfOk result (λ names. are_tables room.now text.now ≡ true) }
    ensures refused { IfErr result (λ fault. (fault ≡ Memory)
        ⊎ ((fault ≡ Absent) × (are_tables room.now text.now ≡ false))) }
{
    let mut names = Vec::new(alloc);
    let mut rest = text;
    while let Some((word, more)) = cut(rest) {
        add_name(alloc, room, word, &mut names)?;
        rest = more;
    }
    add_name(alloc, room, rest, &mut names)?;
    Ok(names)
}

/// Ends the epoch, and begins the next one over its tables, of which those are empty whose names stand in this text,
/// separated by spaces. At a refusal nothing changes.
pub fn turn(alloc: Global, room: &mut Room, drained: &[u8]) -> Result<(), RoomFault>
    ensures ok { OnOk result (Turns drained.now room.old room.new) }
    ensures err { OnErr result (room.new ≡ room.old) }
    ensures refused { IfErr result (λ fault. IsNotTurned drained.now room.old fault) }
{
    let names = table_names(alloc, room, drained)?;
    match room.turn(names.as_slice()) {
        Ok(()) => Ok(()),
        Err(Refusal::Memory) => Err(RoomFault::Memory),
        Err(Refusal::Fault(NotTurned::Busy)) => Err(RoomFault::Busy),
        Err(Refusal::Fault(NotTurned::TooManyRows)) => Err(RoomFault::TooManyRows),
        Err(Refusal::Fault(NotTurned::NoNumber)) => Err(RoomFault::NoNumber),
    }
}

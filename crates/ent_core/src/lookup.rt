//! What is told of a core without an event. No look-up takes memory.
ghost use Rattle.std.specs.Prelude.{◌≡◌, MatchOption, length, slice_get};
ghost use Rattle.std.specs.Arc.{arc_value};
ghost use Rattle.std.specs.Option.{option_copied, option_map};
ghost use Rattle.ent_core.specs.Kinds.{kinds_of_table};
ghost use Rattle.ent_protocol.specs.Lookup.{answers_of, dormant_at, entry_at, group_of, present_rows};
ghost use Rattle.ent_protocol.specs.Lookup.{running_members};
ghost use Rattle.ent_protocol.specs.Member.{pool};
ghost use Rattle.ent_protocol.specs.Reached.{scripts_of, settled};
ghost use Rattle.ent_semantics.specs.Serial.{numbered};
ghost use Rattle.ent_match.specs.Place.{HasNoneOf};
ghost use Rattle.ent_tables.specs.Stored.{kinds_declared, kinds_of, rows_of};
ghost use Rattle.ent_core.specs.Obstacle.{IsOf};

use crate::obstacle::posted_of;
use crate::store::Store;
use ent_group::{Members, Tx};
use ent_match::Posted;
use ent_members::{Entrant, script_of};
use ent_rel::Table;
use ent_semantics::{Answer, Entry, element};
use ent_tree::Script;
use ent_value::Name;
use std::sync::Arc;

/// The transaction at a place of the dormant list, from 1.
pub(crate) fn dormant(store: &Store, place: usize) -> Option<&Entrant>
    ensures { option_copied result ≡ dormant_at store.now place }
{
    if place == 0 {
        return None;
    }
    store.transaction_table.dormant_at(place - 1)
}

/// The journal's entry of a number, from 1.
pub(crate) fn entry(store: &Store, number: usize) -> Option<&Entry>
    ensures { option_copied result ≡ entry_at store.now number }
{
    element(store.journal.as_slice(), number as u64)
}

/// The script of a transaction, as it was submitted.
pub(crate) fn script(store: &Store, tx: Tx) -> Option<&Script>
    ensures { option_copied result ≡ numbered (scripts_of store.now) tx }
{
    match script_of(store.submitted.as_slice(), tx) {
        Some(own) => Some(own.script()),
        None => None,
    }
}

/// The table of a name as it stands, where one is declared.
pub(crate) fn table<'a>(store: &'a Store, name: &Name) -> Option<&'a Table>
    ensures rows { option_map (λ table. table.now.rows) result ≡ present_rows store.now name.now }
    ensures kinds { option_map (λ table. table.now.kinds) result ≡ kinds_of_table store.now.opening name.now }
{
    match store.catalogue.table_named(name) {
        Some((number, _)) => store.tables.table(number),
        None => None,
    }
}

/// The table of a number as it stood before the first change of it by a member, else as it stands, where there is one.
pub(crate) fn settled_table(store: &Store, number: usize) -> Option<&Arc<Table>>
    ensures rows { option_map (λ table. rows_of (arc_value table.now)) result ≡ slice_get (settled store.now) number }
    ensures kinds { option_map (λ table. kinds_of (arc_value table.now)) result
        ≡ slice_get (kinds_declared store.now.opening.tables) number }
{
    store.tables.settled(number)
}

/// How many tables there are.
pub(crate) fn table_count(store: &Store) -> usize
    ensures declared { result ≡ length store.now.opening.tables }
    ensures settled { result ≡ length (settled store.now) }
{
    store.tables.len()
}

/// The members of the run, by number.
pub(crate) fn members(store: &Store) -> Members
    ensures { result ≡ running_members store.now }
{
    store.run.numbers()
}

/// The group of a member, by number; nobody where it is no member.
pub(crate) fn group(store: &Store, tx: Tx) -> Members
    ensures { result ≡ group_of store.now tx }
{
    match store.run.member(tx) {
        Some(member) => store.run.group_numbers(member.group()),
        None => Members::new(),
    }
}

/// The posted statement of a transaction, where there is one.
pub(crate) fn posted(store: &Store, tx: Tx) -> Option<&Posted>
    ensures { MatchOption result (HasNoneOf (pool store.now) tx) (λ query. IsOf (pool store.now) tx query.now) }
{
    posted_of(store.pool.members(), tx)
}

/// The answers of a member's statements so far; none where it is no member.
pub(crate) fn answers(store: &Store, tx: Tx) -> &[Answer]
    ensures { result.now ≡ answers_of store.now tx }
{
    match store.run.member(tx) {
        Some(member) => member.answers(),
        None => &[],
    }
}

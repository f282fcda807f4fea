//! The keys of a table's rows, and changes of them row by row.
ghost use Rattle.std.specs.Prelude.{◌≡◌, ◌≤◌, IfOk, map, All};
ghost use Rattle.ent_lists.specs.Sets as set;
ghost use Rattle.ent_value.specs.Refusal.{Gives};
ghost use Rattle.ent_value.specs.Value.{row_cmp, kinds_of};
ghost use Rattle.ent_page.specs.Key.{key_of, AreStorable};
ghost use Rattle.ent_rel.specs.Relation.{bounded};
ghost use Rattle.ent_rel.specs.Change.{changed_rows};
ghost use Rattle.ent_rel.specs.Kept.{rows_of, HoldRows, RemovesRows};

use crate::fault::TableFull;
use crate::kinds::have_kinds;
use ent_page::{Key, KeySet};
use ent_value::{Kind, MOST_ROWS, Refusal, Row};
use std::alloc::{AllocError, Global};

/// So many rows at most are taken out or put in one by one.
const FEW_ROWS: usize = 4;

/// The keys of rows.
fn keys_of(alloc: Global, rows: &[Row]) -> Result<Vec<Key>, AllocError>
    ensures keys { IfOk result (λ keys. keys.items ≡ map key_of rows.now) }
    ensures stored { IfOk result (λ keys. All AreStorable rows.now) }
{
    let mut keys = Vec::with_capacity(alloc, rows.len())?;
    for row in rows {
        keys.push(Key::of(alloc, row.values())?)?;
    }
    Ok(keys)
}

/// The set of the keys of rows; `TableFull` where there would be too many.
pub(crate) fn keys_loaded(
    alloc: Global,
    kinds: &[Kind],
    rows: &[Row],
) -> Result<KeySet, Refusal<TableFull>>
    requires { All (λ row. kinds_of row ≡ kinds.now) rows.now }
    ensures rows { let all = set.from_list {R = row_cmp} rows.now in
        Gives (λ keys. rows_of kinds.now keys) result (bounded all all) }
    ensures hold { IfOk result (λ keys. HoldRows kinds.now keys) }
    ensures limit { IfOk result (λ keys. set.len keys ≤ MOST_ROWS) }
{
    let keys = KeySet::from_keys(alloc, keys_of(alloc, rows)?)?;
    if keys.len() > MOST_ROWS {
        return Err(Refusal::Fault(TableFull));
    }
    Ok(keys)
}

/// Keys without those of some rows.
fn keys_without(
    alloc: Global,
    kinds: &[Kind],
    keys: KeySet,
    rows: &[Row],
) -> Result<KeySet, AllocError>
    requires { HoldRows kinds.now keys }
    ensures rows { IfOk result (λ left. rows_of kinds.now left ≡ set.without_all (rows_of kinds.now keys) rows.now) }
    ensures hold { IfOk result (λ left. HoldRows kinds.now left) }
{
    let mut keys = keys;
    for row in rows {
        if have_kinds(row.values(), kinds) {
            let key = Key::of(alloc, row.values())?;
            keys = keys.without(alloc, &key)?;
        }
    }
    Ok(keys)
}

/// Keys with those of some rows put in; `TableFull` where there would be too many.
fn keys_with(
    alloc: Global,
    kinds: &[Kind],
    keys: KeySet,
    rows: &[Row],
) -> Result<KeySet, Refusal<TableFull>>
    requires hold { HoldRows kinds.now keys }
    requires kinds { All (λ row. kinds_of row ≡ kinds.now) rows.now }
    ensures rows { let after = set.insert_all (rows_of kinds.now keys) rows.now in
        Gives (λ grown. rows_of kinds.now grown) result (bounded after after) }
    ensures hold { IfOk result (λ grown. HoldRows kinds.now grown) }
    ensures limit { IfOk result (λ grown. set.len grown ≤ MOST_ROWS) }
{
    let mut keys = keys;
    for row in rows {
        if keys.len() > MOST_ROWS {
            return Err(Refusal::Fault(TableFull));
        }
        let key = Key::of(alloc, row.values())?;
        keys = keys.with(alloc, &key)?;
    }
    if keys.len() > MOST_ROWS {
        return Err(Refusal::Fault(TableFull));
    }
    Ok(keys)
}

/// The keys of those rows that have these kinds: no other row stands in a table.
fn keys_to_remove(alloc: Global, kinds: &[Kind], rows: &[Row]) -> Result<Vec<Key>, AllocError>
    ensures { IfOk result (λ keys. RemovesRows kinds.now keys.items rows.now) }
{
    let mut keys = Vec::with_capacity(alloc, rows.len())?;
    for row in rows {
        if have_kinds(row.values(), kinds) {
            keys.push(Key::of(alloc, row.values())?)?;
        }
    }
    Ok(keys)
}

/// Keys with those of some rows put in, row by row; `TableFull` where there would be too many.
fn keys_added(
    alloc: Global,
    kinds: &[Kind],
    keys: &KeySet,
    rows: &[Row],
) -> Result<KeySet, Refusal<TableFull>>
    requires hold { HoldRows kinds.now keys.now }
    requires limit { set.len keys.now ≤ MOST_ROWS }
    requires kinds { All (λ row. kinds_of row ≡ kinds.now) rows.now }
    ensures rows { let after = set.insert_all (rows_of kinds.now keys.now) rows.now in
        Gives (λ grown. rows_of kinds.now grown) result (bounded after after) }
    ensures hold { IfOk result (λ grown. HoldRows kinds.now grown) }
    ensures limit { IfOk result (λ grown. set.len grown ≤ MOST_ROWS) }
{
    match rows {
        [] => keys_with(alloc, kinds, keys.copy(alloc)?, rows),
        [first, others @ ..] => {
            // The list of pages is shared once for the first row, and not a second time for a copy before it.
            let key = Key::of(alloc, first.values())?;
            keys_with(alloc, kinds, keys.with(alloc, &key)?, others)
        }
    }
}

/// Keys without those of some rows and then with those of others, in one pass.
fn keys_merged(
    alloc: Global,
    kinds: &[Kind],
    keys: &KeySet,
    removed: &[Row],
    added: &[Row],
) -> Result<KeySet, Refusal<TableFull>>
    requires hold { HoldRows kinds.now keys.now }
    requires limit { set.len keys.now ≤ MOST_ROWS }
    requires kinds { All (λ row. kinds_of row ≡ kinds.now) added.now }
    ensures rows { let after = changed_rows (rows_of kinds.now keys.now) removed.now added.now in
        Gives (λ made. rows_of kinds.now made) result (bounded after after) }
    ensures hold { IfOk result (λ made. HoldRows kinds.now made) }
    ensures limit { IfOk result (λ made. set.len made ≤ MOST_ROWS) }
{
    let gone = keys_to_remove(alloc, kinds, removed)?;
    let come = keys_of(alloc, added)?;
    let made = keys.changed(alloc, gone, come)?;
    if made.len() > MOST_ROWS {
        return Err(Refusal::Fault(TableFull));
    }
    Ok(made)
}

/// Keys without those of some rows and then with those of others; `TableFull` where there would be too many. A few rows
/// are searched for one by one, and many are put in order and found in one pass.
pub(crate) fn keys_changed(
    alloc: Global,
    kinds: &[Kind],
    keys: &KeySet,
    removed: &[Row],
    added: &[Row],
) -> Result<KeySet, Refusal<TableFull>>
    requires hold { HoldRows kinds.now keys.now }
    requires limit { set.len keys.now ≤ MOST_ROWS }
    requires kinds { All (λ row. kinds_of row ≡ kinds.now) added.now }
    ensures rows { let after = changed_rows (rows_of kinds.now keys.now) removed.now added.now in
        Gives (λ made. rows_of kinds.now made) result (bounded after after) }
    ensures hold { IfOk result (λ made. HoldRows kinds.now made) }
    ensures limit { IfOk result (λ made. set.len made ≤ MOST_ROWS) }
{
    if removed.len() > FEW_ROWS || added.len() > FEW_ROWS {
        return keys_merged(alloc, kinds, keys, removed, added);
    }
    if removed.is_empty() {
        return keys_added(alloc, kinds, keys, added);
    }
    let left = keys_without(alloc, kinds, keys.copy(alloc)?, removed)?;
    keys_with(alloc, kinds, left, added)
}

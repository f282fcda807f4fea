//! The uses of each table, by key.
ghost use Rattle.std.specs.Prelude.{◌≡◌, ℕ, ◌↔◌, not, OnOk, OnErr, IfOk, IfErr, Contains};
ghost use Rattle.std.specs.FinSet as set;
ghost use Rattle.ent_lock.specs.Use.{with_uses, Holds, keyed};
ghost use Rattle.ent_lock.specs.Layout.{held_in, IsByKey, IsAt, IsGapFor, is_use_of_none};

use crate::holders::{Holder, drop_holders, is_held, remove_holder};
use crate::mode::Mode;
use crate::table_key::TableKey;
use ent_group::{Members, Tx};
use std::alloc::{AllocError, Global};

/// The holders of one table.
#[derive(Drop)]
pub struct TableUses<T> {
    pub table: T,
    pub holders: Vec<Holder>,
}

/// Where a table's uses stand, or where they would go.
pub fn place_of<T: TableKey>(tables: &[TableUses<T>], table: &T) -> Result<usize, usize>
    requires { IsByKey T.key tables.now }
    ensures found { IfOk result (IsAt T.key tables.now (T.key table.now)) }
    ensures missing { IfErr result (IsGapFor T.key tables.now (T.key table.now)) }
{
    tables.binary_search_by(|uses| uses.table.compare(table))
}

/// The holders of a table.
pub fn holders_of<'a, T: TableKey>(tables: &'a [TableUses<T>], table: &T) -> &'a [Holder]
    requires { IsByKey T.key tables.now }
    ensures { (tx : ℕ) (mode : Mode)
        → Contains result.now (record { holder = tx; mode = mode })
        ↔ Holds (held_in T.key tables.now) tx (T.key table.now) mode }
{
    match place_of(tables, table) {
        Ok(at) => tables[at].holders.as_slice(),
        Err(_) => &[],
    }
}

/// Adds a use, and answers whether it is new. Where memory runs out nothing is changed.
pub fn add_use<T: TableKey>(
    tables: &mut Vec<TableUses<T>>,
    alloc: Global,
    tx: Tx,
    table: &T,
    mode: Mode,
) -> Result<bool, AllocError>
    requires { IsByKey T.key tables.old.items }
    ensures by_key { IsByKey T.key tables.new.items }
    ensures ok { OnOk result (held_in T.key tables.new.items
        ≡ set.insert (held_in T.key tables.old.items) (record { holder = tx; table = T.key table.now; mode = mode })) }
    ensures is_new { IfOk result (λ is_new. is_new
        ≡ not (set.contains (held_in T.key tables.old.items)
        (record { holder = tx; table = T.key table.now; mode = mode }))) }
    ensures err { OnErr result (held_in T.key tables.new.items ≡ held_in T.key tables.old.items) }
{
    let holder = Holder { holder: tx, mode };
    match place_of(tables, table) {
        Ok(at) => {
            if is_held(&tables[at].holders, tx, mode) {
                return Ok(false);
            }
            tables[at].holders.push(holder)?;
        }
        Err(at) => {
            let holders = Vec::from_slice(alloc, &[holder])?;
            let table = table.copy(alloc)?;
            tables.insert(at, TableUses { table, holders })?;
        }
    }
    Ok(true)
}

/// Takes a use out.
pub fn remove_use<T: TableKey>(tables: &mut Vec<TableUses<T>>, tx: Tx, table: &T, mode: Mode)
    requires { IsByKey T.key tables.old.items }
    ensures by_key { IsByKey T.key tables.new.items }
    ensures held { held_in T.key tables.new.items
        ≡ set.remove (held_in T.key tables.old.items) (record { holder = tx; table = T.key table.now; mode = mode }) }
{
    if let Ok(at) = place_of(tables, table) {
        remove_holder(&mut tables[at].holders, tx, mode);
    }
}

/// Adds all uses that a transaction asks for. Where memory runs out nothing is changed.
pub fn add_all<T: TableKey>(
    tables: &mut Vec<TableUses<T>>,
    alloc: Global,
    tx: Tx,
    asked: &[(T, Mode)],
) -> Result<(), AllocError>
    requires { IsByKey T.key tables.old.items }
    ensures by_key { IsByKey T.key tables.new.items }
    ensures ok { OnOk result (held_in T.key tables.new.items
        ≡ with_uses (held_in T.key tables.old.items) tx (keyed T.key asked.now)) }
    ensures err { OnErr result (held_in T.key tables.new.items ≡ held_in T.key tables.old.items) }
{
    let Some((first, rest)) = asked.split_first() else {
        return Ok(());
    };
    let is_new = add_use(tables, alloc, tx, &first.0, first.1)?;
    let added = add_all(tables, alloc, tx, rest);
    if added.is_err() && is_new {
        remove_use(tables, tx, &first.0, first.1);
    }
    added
}

/// Takes out all uses of some transactions.
pub fn drop_members<T: TableKey>(tables: &mut [TableUses<T>], members: &Members)
    requires { IsByKey T.key tables.old }
    ensures by_key { IsByKey T.key tables.new }
    ensures held { held_in T.key tables.new ≡ set.retain (held_in T.key tables.old) (is_use_of_none members.now) }
{
    for uses in tables.iter_mut() {
        drop_holders(&mut uses.holders, members);
    }
}

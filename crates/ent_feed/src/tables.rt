//! The net changes of tables, by name.
ghost use Rattle.std.specs.Prelude.{◌≡◌, ◌∷◌, ◌++◌, [], IfOk, OnOk, length};
ghost use Rattle.std.specs.List.{IsDistinct, filter};
ghost use Rattle.ent_semantics.specs.Database.{same_name};
ghost use Rattle.ent_protocol.specs.Reached.{table_names};
ghost use Rattle.ent_feed.specs.Group.{changes_between, has_rows};
ghost use Rattle.ent_feed.specs.Tables.{database_in};

use crate::difference::net_change;
use crate::group::TableChange;
use ent_rel::{Delta, Table};
use ent_tree::{Create, Opening};
use ent_value::Sequence;
use std::alloc::{AllocError, Global};
use std::sync::Arc;

/// Whether a row went or came.
fn has_rows(delta: &Delta) -> bool
    ensures { result ≡ has_rows delta.now }
{
    !delta.removed.is_empty() || !delta.added.is_empty()
}

/// Puts the change of a table behind others, if a row went or came.
fn put_change(
    alloc: Global,
    changes: &mut Sequence<TableChange>,
    create: &Create,
    delta: Delta,
) -> Result<(), AllocError>
    ensures { OnOk result (changes.new ≡ changes.old
        ++ filter (λ change. has_rows change.delta) (record { table = create.now.name.name; delta = delta } ∷ [])) }
{
    if has_rows(&delta) {
        let table = create.name.name.copy(alloc)?;
        changes.push(TableChange { table, delta })?;
    }
    Ok(())
}

/// The net changes of the declared tables. These are given in the order of their declaration, as they stood before and
/// as they stand afterwards. A table in which nothing changed isn't among them.
pub fn table_changes(
    alloc: Global,
    opening: &Opening,
    before: &[Arc<Table>],
    after: &[Arc<Table>],
) -> Result<Sequence<TableChange>, AllocError>
    requires distinct { IsDistinct same_name (table_names opening.now) }
    requires len { length before.now ≡ length opening.now.tables }
    requires len_after { length after.now ≡ length opening.now.tables }
    ensures { IfOk result (λ changes. changes ≡ changes_between (table_names opening.now)
        (database_in opening.now before.now) (database_in opening.now after.now)) }
{
    let mut changes = Sequence::new(alloc);
    let declared = opening.tables.as_slice();
    for index in 0..declared.len() {
        let delta = net_change(alloc, &before[index], &after[index])?;
        put_change(alloc, &mut changes, &declared[index], delta)?;
    }
    Ok(changes)
}

//! Pieces of a line: transactions, tables and demands.
ghost use Rattle.std.specs.Prelude.{◌≡◌, ◌<◌, ◌++◌, OnOk};
ghost use Rattle.std.specs.Option.{option_copied};
ghost use Rattle.ent_driver.specs.Why.{both_text, mode_text, more_txs_text, numbered_demand, table_name, tx_text};
ghost use Rattle.ent_driver.specs.Why.{txs_text};
ghost use Rattle.ent_tree.specs.declared.limits.TheConstants.{MOST_PARTS};

use ent_book::append_number;
use ent_group::Tx;
use ent_lock::Mode;
use ent_reasons::append_demand;
use ent_semantics::Atom;
use ent_tree::Opening;
use ent_value::Value;
use std::alloc::{AllocError, Global};

pub(crate) fn append_tx(alloc: Global, out: &mut Vec<u8>, tx: Tx) -> Result<(), AllocError>
    ensures { OnOk result (out.new.items ≡ out.old.items ++ tx_text tx) }
{
    out.extend_from_slice(b"tx ")?;
    append_number(alloc, out, tx)
}

/// Transactions after the first, each behind a comma and a space.
fn append_more_txs(alloc: Global, out: &mut Vec<u8>, more: &[Tx]) -> Result<(), AllocError>
    ensures { OnOk result (out.new.items ≡ out.old.items ++ more_txs_text more.now) }
{
    for tx in more {
        out.extend_from_slice(b", ")?;
        append_tx(alloc, out, *tx)?;
    }
    Ok(())
}

pub(crate) fn append_txs(alloc: Global, out: &mut Vec<u8>, members: &[Tx]) -> Result<(), AllocError>
    ensures { OnOk result (out.new.items ≡ out.old.items ++ txs_text members.now) }
{
    if let [first, more @ ..] = members {
        append_tx(alloc, out, *first)?;
        append_more_txs(alloc, out, more)?;
    }
    Ok(())
}

pub(crate) fn append_both(
    alloc: Global,
    out: &mut Vec<u8>,
    first: Tx,
    second: Tx,
) -> Result<(), AllocError>
    ensures { OnOk result (out.new.items ≡ out.old.items ++ both_text first second) }
{
    append_tx(alloc, out, first)?;
    out.extend_from_slice(b" and ")?;
    append_tx(alloc, out, second)
}

/// How a table is used.
pub(crate) fn append_mode(out: &mut Vec<u8>, mode: Mode) -> Result<(), AllocError>
    ensures { OnOk result (out.new.items ≡ out.old.items ++ mode_text mode) }
{
    match mode {
        Mode::Shared => out.extend_from_slice(b"shared"),
        Mode::Exclusive => out.extend_from_slice(b"exclusively"),
    }
}

/// The name of the table of a number.
pub(crate) fn append_table_name(
    out: &mut Vec<u8>,
    opening: &Opening,
    table: usize,
) -> Result<(), AllocError>
    ensures { OnOk result (out.new.items ≡ out.old.items ++ table_name opening.now table) }
{
    match opening.tables.get(table) {
        Some(create) => out.extend_from_slice(create.name.name.as_bytes()),
        None => out.extend_from_slice(b".."),
    }
}

/// The demand of an index, by its number and as it is written.
pub(crate) fn append_numbered_demand(
    alloc: Global,
    out: &mut Vec<u8>,
    index: usize,
    post: Option<&Atom<Value>>,
) -> Result<(), AllocError>
    requires { index < MOST_PARTS }
    ensures { OnOk result (out.new.items ≡ out.old.items ++ numbered_demand index (option_copied post.entry)) }
{
    match post {
        Some(post) => {
            append_number(alloc, out, index as u64 + 1)?;
            out.extend_from_slice(b", ")?;
            append_demand(alloc, out, &post.relation, post.terms.as_slice())
        }
        None => out.extend_from_slice(b".."),
    }
}

//! Pools: `== pool`. Statements are posted to a pool and withdrawn, and it tells its components, and the plans and
//! least choices of its statements.
ghost use Rattle.std.specs.Prelude.{IsTrue};
ghost use Rattle.ent_match.specs.Posting.{HasNone};

use crate::choice::{put_choice, put_plan};
use crate::statement::{entangled, opening_tables};
use anyhow::{Result, bail};
use ent_group::Tx;
use ent_match::{Pool, PostFault, Posted};
use ent_rel::Table;
use ent_scenario_files::replies::{Out, put, put_number, put_shown};
use ent_scenario_files::words::{first_word, number, numbers_in};
use ent_value::Sequence;
use std::alloc::Global;
use std::sync::Arc;

/// A pool, and the tables that its statements are over, with their declarations.
#[derive(Drop)]
pub(crate) struct PoolStage {
    opening: String,
    tables: Vec<Arc<Table>>,
    pool: Pool,
}

impl PoolStage {
    pub(crate) fn new(alloc: Global) -> Self {
        PoolStage {
            opening: String::new(alloc),
            tables: Vec::new(alloc),
            pool: Pool::new(alloc),
        }
    }

    pub(crate) fn reply(&mut self, alloc: Global, line: &str, out: &mut Out) -> Result<()> {
        let (call, rest) = first_word(line);
        match call {
            "tables" => self.declare(alloc, rest, out)?,
            "post" => self.post(alloc, rest, out)?,
            "withdraw" => {
                self.pool.withdraw(number(rest)?);
                put_members(&self.pool, out);
            }
            "members" => put_members(&self.pool, out),
            "components" => put_components(alloc, &self.pool, out)?,
            "plan" => self.show_plan(alloc, rest, out)?,
            "first" => self.put_first(alloc, rest, false, out)?,
            "first_with" => self.put_first(alloc, rest, true, out)?,
            _ => bail!("pools know no such call"),
        }
        Ok(())
    }

    fn declare(&mut self, alloc: Global, text: &str, out: &mut Out) -> Result<()> {
        self.tables = opening_tables(alloc, text)?;
        self.opening = text.to_string(alloc)?;
        put_number(out, self.tables.len());
        Ok(())
    }

    fn show_plan(&self, alloc: Global, rest: &str, out: &mut Out) -> Result<()> {
        let txs = numbers_in(alloc, rest)?;
        put_plan(alloc, &self.pool, txs.as_slice(), out)
    }

    fn put_first(&self, alloc: Global, rest: &str, with_ticks: bool, out: &mut Out) -> Result<()> {
        let txs = numbers_in(alloc, rest)?;
        let tables = self.tables.as_slice();
        put_choice(alloc, &self.pool, tables, txs.as_slice(), with_ticks, out)
    }

    fn post(&mut self, alloc: Global, rest: &str, out: &mut Out) -> Result<()> {
        let (tx, text) = first_word(rest);
        let tx = number(tx)?;
        let statement = entangled(alloc, self.opening.as_str(), text)?;
        let statement = Arc::new(alloc, statement)?;
        post_to(&mut self.pool, Posted::new(tx, 1, 1, statement), out)
    }
}

/// Whether no statement of the member's transaction is there.
fn has_none(members: &[Posted], member: &Posted) -> bool
    ensures { IsTrue result → HasNone members.now member.now }
{
    for other in members {
        if other.tx() == member.tx() {
            return false;
        }
    }
    true
}

fn post_to(pool: &mut Pool, member: Posted, out: &mut Out) -> Result<()> {
    if !has_none(pool.members(), &member) {
        put(out, "there already");
        return Ok(());
    }
    match pool.post(member) {
        Ok(()) => {
            put(out, "posted");
            Ok(())
        }
        Err((member, why)) => {
            let tx = member.tx();
            drop(member);
            put_fault(why, tx, out)
        }
    }
}

/// The post and its two least heads, and whose statement comes back.
fn put_fault(why: PostFault, back: Tx, out: &mut Out) -> Result<()> {
    let PostFault::Unsafe(fault) = why else {
        bail!("no memory");
    };
    put(out, "unsafe: post ");
    put_shown(out, &fault.post());
    put(out, " of ");
    put_shown(out, &fault.asker());
    put(out, ", heads of ");
    put_shown(out, &fault.first());
    put(out, " and ");
    put_shown(out, &fault.second());
    put(out, "; ");
    put_shown(out, &back);
    put(out, " comes back");
    Ok(())
}

fn put_members(pool: &Pool, out: &mut Out) {
    if pool.members().is_empty() {
        return put(out, "nobody");
    }
    put_transactions(pool.members(), out);
}

/// The transactions of some statements.
fn put_transactions(members: &[Posted], out: &mut Out) {
    let mut before = "";
    for member in members {
        put(out, before);
        put_shown(out, &member.tx());
        before = " ";
    }
}

fn put_components(alloc: Global, pool: &Pool, out: &mut Out) -> Result<()> {
    let components = pool.components(alloc)?;
    put_each_component(components.as_slice(), out);
    Ok(())
}

fn put_each_component(components: &[Sequence<Posted>], out: &mut Out) {
    if components.is_empty() {
        return put(out, "none");
    }
    let mut before = "";
    for component in components {
        put(out, before);
        put_transactions(component.as_slice(), out);
        before = "; ";
    }
}

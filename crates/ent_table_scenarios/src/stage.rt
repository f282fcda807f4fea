//! What the calls of a scenario speak of.
use crate::atoms::Sides;
use crate::groups::{reply_to_cycles, reply_to_groups, reply_to_members};
use crate::lists::Lists;
use crate::pool::PoolStage;
use crate::undo::Tables;
use crate::{locks, table, undo};
use anyhow::{Result, bail};
use ent_group::{Groups, Members};
use ent_lock::LockTable;
use ent_rel::Table;
use ent_scenario_files::Part;
use ent_scenario_files::replies::Out;
use ent_value::Name;
use std::alloc::Global;

/// What is called, as the line `== ..` before the calls names it.
#[derive(Drop)]
pub(crate) enum Stage {
    Table(Table),
    Undo(Tables),
    Groups(Groups),
    Members(Members),
    Cycles,
    Locks(LockTable<Name>),
    Pool(PoolStage),
    Atoms(Sides),
    Lists(Lists),
}

impl Part for Stage {
    fn begin(alloc: Global, name: &str) -> Result<Self> {
        Ok(match name {
            "table" => Stage::Table(Table::new(alloc, Vec::new(alloc))),
            "undo" => Stage::Undo(Tables::new(alloc)),
            "groups" => Stage::Groups(Groups::new()),
            "members" => Stage::Members(Members::new()),
            "cycles" => Stage::Cycles,
            "locks" => Stage::Locks(LockTable::new(alloc)),
            "pool" => Stage::Pool(PoolStage::new(alloc)),
            "atoms" => Stage::Atoms(Sides::new(alloc)),
            "lists" => Stage::Lists(Lists::new(alloc)),
            _ => bail!("nothing is called {name}"),
        })
    }

    fn reply(&mut self, alloc: Global, line: &str, call: &[&str], out: &mut Out) -> Result<()> {
        match self {
            Stage::Table(table) => table::reply(alloc, table, call, out),
            Stage::Undo(tables) => undo::reply(alloc, tables, call, out),
            Stage::Groups(groups) => reply_to_groups(groups, call, out),
            Stage::Members(members) => reply_to_members(members, call, out),
            Stage::Cycles => reply_to_cycles(alloc, line, out),
            Stage::Locks(locks) => locks::reply(alloc, locks, call, out),
            Stage::Pool(posted) => posted.reply(alloc, line, out),
            Stage::Atoms(sides) => sides.reply(alloc, line, out),
            Stage::Lists(lists) => lists.reply(alloc, call, out),
        }
    }
}

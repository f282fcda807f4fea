//! The locks of all tables.
ghost use Rattle.std.specs.Prelude.{◌≡◌, ◌≢◌, ℕ, ◌↔◌, OnOk, OnErr, Contains};
ghost use Rattle.std.specs.FinSet as set;
ghost use Rattle.ent_lock.specs.Use.{Holds, Blocks, IsLeast, IsLeastIfAny, AddsUses, DropsUses, keyed};

use crate::holders::{Holder, least_conflicting, lesser};
use crate::mode::Mode;
use crate::table_key::TableKey;
use crate::table_uses::{TableUses, add_all, drop_members, holders_of};
use ent_group::{Members, Tx};
use std::alloc::{AllocError, Global};
use std::marker::Model;

/// What a transaction is told that asks for uses of tables.
#[derive(Clone, Copy, Debug, PartialEq, Eq)]
pub enum Answer {
    /// It holds them all from now on.
    Granted,
    /// It holds none of them, since this transaction blocks it.
    Blocked(Tx),
}

/// The uses of tables that transactions hold. Contracts see them as a finite relation of transactions, the keys of
/// tables and modes. A transaction may hold one table in both modes.
#[derive(Drop)]
pub struct LockTable<T: TableKey> {
    alloc: Global,
    tables: Vec<TableUses<T>>,
}

impl<T: TableKey> Model for LockTable<T> {
    ghost use Rattle.ent_lock.specs.Use.{Uses, coded_uses};

    ghost Value = { Uses };

    ghost coded = { coded_uses };

    ghost use Rattle.ent_lock.specs.Layout.{held_in, IsByKey};

    ghost view = { λ l. held_in T.key l.tables.items };

    ghost invariant = { λ l. IsByKey T.key l.tables.items };
}

impl<T: TableKey> LockTable<T> {
    /// The table of no lock. It takes no memory.
    pub fn new(alloc: Global) -> Self
        ensures { result ≡ set.empty }
    {
        LockTable {
            alloc,
            tables: Vec::new(alloc),
        }
    }

    /// Asks for uses of tables: all of them are granted, or none where another transaction, which is not to be
    /// passed, holds a use in conflict with one of them. A use that is held already stays, once. Where memory runs out
    /// nothing is changed.
    pub fn ask(&mut self, tx: Tx, asked: &[(T, Mode)], pass: &Members) -> Result<Answer, AllocError>
        ensures granted { result ≡ Ok Answer.Granted → AddsUses self.old self.new tx (keyed T.key asked.now) }
        ensures free { result ≡ Ok Answer.Granted → (v : ℕ) → ¬ Blocks self.old tx (keyed T.key asked.now) pass.now v }
        ensures blocked { (v : ℕ) → result ≡ Ok (Answer.Blocked v)
            → IsLeast (Blocks self.old tx (keyed T.key asked.now) pass.now) v }
        ensures same { (result ≢ Ok Answer.Granted) → self.new ≡ self.old }
    {
        if let Some(holder) = self.blocker(tx, asked, pass) {
            return Ok(Answer::Blocked(holder));
        }
        self.grant(tx, asked)?;
        Ok(Answer::Granted)
    }

    /// Gives a transaction uses of tables, whoever else holds them; [`LockTable::ask`] gives them only where nobody
    /// blocks it. Where memory runs out nothing is changed.
    pub fn grant(&mut self, tx: Tx, asked: &[(T, Mode)]) -> Result<(), AllocError>
        ensures ok { OnOk result (AddsUses self.old self.new tx (keyed T.key asked.now)) }
        ensures err { OnErr result (self.new ≡ self.old) }
    {
        add_all(&mut self.tables, self.alloc, tx, asked)
    }

    /// Takes out all uses of some transactions. It takes no memory.
    pub fn drop_group(&mut self, members: &Members)
        ensures { DropsUses self.old self.new members.now }
    {
        drop_members(&mut self.tables, members);
    }

    /// The transactions that hold a table, and how, in no order.
    pub fn holders(&self, table: &T) -> &[Holder]
        ensures { (tx : ℕ) (mode : Mode)
            → Contains result.now (record { holder = tx; mode = mode }) ↔ Holds self.now tx (T.key table.now) mode }
    {
        holders_of(&self.tables, table)
    }

    /// The least transaction whose uses are in conflict with those that a transaction would ask for, save itself and
    /// those that are to be passed.
    fn blocker(&self, tx: Tx, asked: &[(T, Mode)], pass: &Members) -> Option<Tx>
        ensures { IsLeastIfAny (Blocks self.now tx (keyed T.key asked.now) pass.now) result }
    {
        let mut least = None;
        for (table, mode) in asked {
            let holder = least_conflicting(self.holders(table), tx, *mode, pass);
            least = lesser(least, holder);
        }
        least
    }
}

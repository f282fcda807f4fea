//! The transaction table.
ghost use Rattle.std.specs.Prelude.{◌≡◌, ◌==◌, ◌+◌, ◌<◌, ◌≤◌, ◌^◌, ◌++◌, ◌∷◌, [], List, drop, filter, length, map};
ghost use Rattle.std.specs.Prelude.{IfOk, OnErr, OnOk, false, nat_eq, slice_get, take};
ghost use Rattle.std.specs.List.{AllByRecursion, IsDistinct, filter_map};
ghost use Rattle.std.specs.Option.{option_copied};
ghost use Rattle.ent_tree.specs.declared.limits.TheConstants.{MOST_SCRIPTS};
ghost use Rattle.ent_members.specs.RunAttempts.{run_attempt_of, numbers_in};
ghost use Rattle.ent_protocol.specs.Commit.{commit_fates};
ghost use Rattle.ent_protocol.specs.Rollback.{dormant_by, fated_by};
ghost use Rattle.ent_protocol.specs.State.{Member as Seen, by_number, first_of};
ghost use Rattle.ent_members.specs.ByNumber.{IsNumbered};
ghost use Rattle.ent_members.specs.Cause.{cause_seen};
ghost use Rattle.ent_members.specs.Leaving.{IsWithin};
ghost use Rattle.ent_members.specs.TransactionOrder.{first_behind};
ghost use Rattle.ent_members.specs.TransactionTable.{IsAway};

use crate::cause::Cause;
use crate::{
    Entrant, Progress, RunAttempt, SubmittedScript, by_number, fates, leaving, live, order,
};
use ent_group::Tx;
use ent_semantics::Fated;
use indexmap::IndexMap;
use slab::Slab;
use std::alloc::{AllocError, Global};
use std::marker::Model;

/// Who waits for a run, in order of arrival, and who is finished. Contracts see both lists and the number of scripts
/// that were submitted; no more transactions stand in the lists together.
#[derive(Drop)]
pub struct TransactionTable {
    /// Who isn't finished, under keys that don't move.
    live: Slab<Entrant>,
    /// Their numbers and keys: the members of the run, and behind them who waits, in order of arrival. A member that is
    /// finished stays until all members are or wait again.
    order: IndexMap<Tx, usize>,
    /// How many at the front entered the run.
    in_run: usize,
    fates: Vec<Fated>,
    /// Who is finished, by number from 1.
    finished: Vec<Option<Fated>>,
    known: usize,
}

impl Model for TransactionTable {
    ghost use Rattle.std.specs.Vec.{vec_capacity};
    ghost use Rattle.ent_members.specs.TransactionTable.{IsKept, TransactionTable as Seen, waiting};

    ghost Value = { Seen };

    ghost view = { λ r. record { dormant = waiting r.live r.order r.in_run; fates = r.fates.items; known = r.known } };

    ghost invariant = { λ r.
        IsKept r.live r.order r.in_run r.finished.items r.fates.items r.known (vec_capacity r.fates) };
}

impl TransactionTable {
    /// Nobody. It takes no memory.
    pub fn new(alloc: Global) -> Self
        ensures { result ≡ record { dormant = []; fates = []; known = 0 } }
    {
        TransactionTable {
            live: Slab::new(alloc),
            order: IndexMap::new(alloc),
            in_run: 0,
            fates: Vec::new(alloc),
            finished: Vec::new(alloc),
            known: 0,
        }
    }

    /// How many wait for a run.
    pub fn dormant_len(&self) -> usize
        ensures { result ≡ length self.now.dormant }
    {
        self.order.len() - self.in_run
    }

    /// Who waits for a run at a place of the order of arrival, from 0.
    pub fn dormant_at(&self, place: usize) -> Option<&Entrant>
        ensures { option_copied result ≡ slice_get self.now.dormant place }
    {
        if place >= self.order.len() - self.in_run {
            return None;
        }
        match self.order.get_index(self.in_run + place) {
            Some((_tx, key)) => self.live.get(*key),
            None => None,
        }
    }

    /// The first of those who wait, as many as are asked for.
    pub fn first_dormant(&self, alloc: Global, count: usize) -> Result<Vec<Entrant>, AllocError>
        requires { count ≤ length self.now.dormant }
        ensures { IfOk result (λ first. first.items ≡ take count self.now.dormant) }
    {
        let mut first = Vec::with_capacity(alloc, count)?;
        for place in 0..count {
            first.push_reserved(*self.dormant_at(place).unwrap());
        }
        Ok(first)
    }

    /// The place of a transaction among those who wait. It takes no longer where more do.
    pub fn dormant_of(&self, tx: Tx) -> Option<&Entrant>
        ensures { option_copied result ≡ first_of (filter (λ own. own.tx == tx) self.now.dormant) }
    {
        let Some(at) = self.order.get_index_of(&tx) else {
            return None;
        };
        if at < self.in_run {
            return None;
        }
        self.live.get(self.order[at])
    }

    /// The fate of a transaction. It takes no longer where more are finished.
    pub fn fate_of(&self, tx: Tx) -> Option<&Fated>
        ensures { option_copied result ≡ first_of (filter (λ fated. fated.tx == tx) self.now.fates) }
    {
        by_number::under(self.finished.as_slice(), tx)
    }

    /// The fates in order of their transactions' numbers.
    pub fn fates_by_number(&self, alloc: Global) -> Result<Vec<Fated>, AllocError>
        ensures { IfOk result (λ sorted. sorted.items ≡ by_number (λ fated. fated.tx) self.now.fates) }
    {
        fates::fates_by_number(alloc, self.fates.as_slice())
    }

    /// A script is submitted, under this number: its transaction waits for its first run. Where memory runs out nothing
    /// changes.
    pub fn admit(&mut self, tx: Tx) -> Result<(), AllocError>
        requires room { self.old.known < MOST_SCRIPTS }
        requires next { tx ≡ self.old.known + 1 }
        ensures ok { OnOk result (self.new ≡ record self.old {
          dormant = self.old.dormant ++ record { tx = tx; runs = 0 } ∷ [];
          known = self.old.known + 1;
        }) }
        ensures err { OnErr result (self.new ≡ self.old) }
    {
        let fates_room = self.known + 1 - self.fates.len();
        self.fates.reserve(fates_room)?;
        self.live.reserve(1)?;
        self.order.reserve(1)?;
        self.finished.reserve(1)?;
        let key = self.live.insert_reserved(Entrant::new(tx, 0));
        let _old = self.order.insert(tx, key).unwrap();
        self.finished.push_reserved(None);
        self.known += 1;
        Ok(())
    }

    /// The first of those who wait, as many as are asked for, wait no more: they enter a run. It takes no memory.
    pub fn take_first(&mut self, count: usize)
        requires count { count ≤ length self.old.dormant }
        ensures { self.new ≡ record self.old { dormant = drop count self.old.dormant } }
    {
        self.in_run += count;
    }

    /// Members leave the run, which are rolled back: each gets a fate where the cause gives it one or its runs are
    /// over, else it waits for another run, behind the others. It takes no memory.
    pub fn leave(
        &mut self,
        run_attempts: &[RunAttempt],
        submitted: &[SubmittedScript],
        cause: Cause,
    )
        requires room { length self.old.dormant + length self.old.fates + length run_attempts.now ≤ self.old.known }
        requires numbers { AllByRecursion (λ run_attempt. IsNumbered self.old.known run_attempt.tx) run_attempts.now }
        requires within { AllByRecursion (IsWithin submitted.now) run_attempts.now }
        requires awake { IsDistinct nat_eq (map (λ own. own.tx) self.old.dormant ++ numbers_in run_attempts.now) }
        requires unfinished { IsDistinct nat_eq
            (map (λ fated. fated.tx) self.old.fates ++ numbers_in run_attempts.now) }
        ensures dormant { (gone : List Seen) → run_attempts.now ≡ map run_attempt_of gone → self.new.dormant
            ≡ self.old.dormant ++ filter_map (dormant_by submitted.now (cause_seen cause)) gone }
        ensures fates { (gone : List Seen) → run_attempts.now ≡ map run_attempt_of gone → self.new.fates
            ≡ self.old.fates ++ filter_map (fated_by submitted.now (cause_seen cause)) gone }
        ensures known { self.new.known ≡ self.old.known }
    {
        leaving::leave(self, run_attempts, submitted, cause);
        self.let_go();
    }

    /// Members commit, the first with this number and each with the one behind that of the one before. It takes no
    /// memory.
    pub fn commit(&mut self, first_number: u64, members: &[Progress])
        requires room { length self.old.dormant + length self.old.fates + length members.now ≤ self.old.known }
        requires numbers { AllByRecursion (λ member. IsNumbered self.old.known member.tx) members.now }
        requires places { first_number + length members.now < 2 ^ 64 }
        ensures { self.new ≡ record self.old { fates = self.old.fates ++ commit_fates first_number members.now } }
    {
        leaving::commit(self, first_number, members);
    }

    /// One that doesn't wait is finished.
    pub(crate) fn finish(&mut self, fated: Fated)
        requires room { length self.old.dormant + length self.old.fates < self.old.known }
        requires number { IsNumbered self.old.known fated.tx }
        ensures { self.new ≡ record self.old { fates = self.old.fates ++ fated ∷ [] } }
    {
        by_number::fill(self.finished.as_mut_slice(), fated.tx, fated);
        self.fates.push_reserved(fated);
    }

    /// A member of the run waits for another run, before the others.
    pub(crate) fn wait_first(&mut self, own: Entrant)
        requires room { length self.old.dormant + length self.old.fates < self.old.known }
        requires away { IsAway own.tx self.old }
        ensures { self.new ≡ record self.old { dormant = own ∷ self.old.dormant } }
    {
        let tx = own.tx();
        let at = self.order.get_index_of(&tx).unwrap();
        let key = self.order[at];
        let last = self.in_run - 1;
        self.live[key] = own;
        self.order.swap_indices(at, last);
        self.in_run = last;
    }

    /// The first of those who wait go behind the others, as many as are told, the last of them first. It takes no
    /// memory.
    pub(crate) fn put_behind(&mut self, count: usize)
        requires { count ≤ length self.old.dormant }
        ensures { self.new ≡ record self.old { dormant = first_behind count self.old.dormant } }
    {
        order::put_behind(&mut self.order, self.in_run, count);
    }

    /// Where all members of the run are finished or wait again, those at the front leave the order, in one pass.
    fn let_go(&mut self)
        ensures { self.new ≡ self.old }
    {
        if self.in_run == 0 {
            return;
        }
        if by_number::are_under(
            self.finished.as_slice(),
            &self.order.keys().as_slice()[..self.in_run],
        ) {
            live::remove_each(
                &mut self.live,
                &self.order.values().as_slice()[..self.in_run],
            );
            self.order.drain(..self.in_run);
            self.in_run = 0;
        }
    }
}

//! A run goes on without its end, and runs start and end as a caller asks for it.
ghost use Rattle.std.specs.Prelude.{◌≡◌, IfOk, OnErr};
ghost use Rattle.ent_desk.specs.Advance.{AdvancesInRun, EndsRun, RestsAs, StartsRun};
ghost use Rattle.ent_desk.specs.Receipts.{Receives};
ghost use Rattle.ent_desk.specs.Seen.{GetsReceipts, LeadsOn};
ghost use Rattle.ent_core.specs.Passed.{resolved_forms};
ghost use Rattle.ent_protocol.specs.Event.{Recall, Recalled};
ghost use Rattle.ent_protocol.specs.Step.{Step};

use crate::advance::{Advance, is_leaving};
use crate::closing::can_close;
use crate::desk::Desk;
use crate::lending::advance_told;
use crate::session::Session;
use ent_form::FormFault;
use ent_protocol_laws::finished_scripts_have_fates;
use ent_stamp::{Naming, StampedJob};
use std::alloc::{AllocError, Global};

impl<L: Naming> Desk<L> {
    /// As [`Desk::advance`], but no run starts, and none ends. Idle: nothing in the run moves, or no run is on; and not
    /// every transaction has its fate. Done: each has.
    #[tactic(auto, using(crate::proofs::Receiving::receives_none))]
    pub fn advance_in_run(
        &mut self,
        alloc: Global,
        session: &mut Session<L>,
    ) -> Result<Advance<StampedJob<L>>, AllocError>
        ensures ok { IfOk result (λ advance. AdvancesInRun self.old advance self.new) }
        ensures events { LeadsOn self.old self.new }
        ensures session { GetsReceipts session.old session.new }
        ensures receipts { Receives self.old.core self.new.core session.old.receipts session.new.receipts }
        ensures err { OnErr result ((self.new ≡ self.old) × (session.new ≡ session.old)) }
    {
        if let Some(moved) = self.move_in_run(alloc, session)? {
            return Ok(moved);
        }
        Ok(self.rest())
    }

    /// A run starts: Moved. Idle: a run is on. Done: nobody waits for one, and each script has its fate. At both, and
    /// where memory runs out, nothing changes.
    pub fn start_run(&mut self) -> Result<Advance<StampedJob<L>>, AllocError>
        ensures ok { IfOk result (λ advance. StartsRun self.old advance self.new) }
        ensures events { LeadsOn self.old self.new }
        ensures journal { self.new.core.journal ≡ self.old.core.journal }
        ensures err { OnErr result (self.new ≡ self.old) }
    {
        finished_scripts_have_fates::<FormFault>();
        self.core.is_reached();
        if self.core.running() {
            return Ok(Advance::Idle);
        }
        let reply = self.core.start_run()?;
        if let Some(started) = advance_told(&self.core, &mut self.known, reply) {
            return Ok(started);
        }
        Ok(Advance::Done)
    }

    /// The run ends, and each of its members waits for another one, or has its fate: Moved. Idle: something in the run
    /// must come first, or no run is on, and somebody waits for one. Done: each script has its fate. At both, and where
    /// memory runs out, nothing changes.
    pub fn end_run(&mut self) -> Result<Advance<StampedJob<L>>, AllocError>
        ensures ok { IfOk result (λ advance. EndsRun self.old advance self.new) }
        ensures events { LeadsOn self.old self.new }
        ensures journal { self.new.core.journal ≡ self.old.core.journal }
        ensures err { OnErr result (self.new ≡ self.old) }
    {
        if !self.core.running() {
            return Ok(self.rest());
        }
        let reply = self.core.end_run()?;
        self.left |= is_leaving(&reply);
        if let Some(ended) = advance_told(&self.core, &mut self.known, reply) {
            return Ok(ended);
        }
        Ok(Advance::Idle)
    }

    /// Lends no job any more, whoever has one: each is to be lent again, and a result that still comes is dropped. It
    /// takes no memory, and nobody leaves the run.
    pub fn recall(&mut self)
        ensures step { Step resolved_forms self.old.core Recall Recalled self.new.core }
        ensures events { LeadsOn self.old self.new }
        ensures left { self.new.left ≡ self.old.left }
    {
        drop(self.core.recall());
        self.known.forget(self.core.lent_count());
    }

    /// That nothing is made: Done, where no run is on and nobody waits for one; else Idle.
    fn rest(&self) -> Advance<StampedJob<L>>
        ensures { RestsAs self.now.core result }
    {
        finished_scripts_have_fates::<FormFault>();
        self.core.is_reached();
        if can_close(&self.core) {
            Advance::Done
        } else {
            Advance::Idle
        }
    }
}

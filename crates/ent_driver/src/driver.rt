//! What stands behind a handle.
ghost use Rattle.std.specs.Prelude.{◌≡◌, IfErr, IfOk, IfSome, MatchOption, None, OnErr, OnOk};
ghost use Rattle.ent_driver.specs.Drives.{Answers, Closes, IsNotClosed, IsUnanswered, Opens, Reports, Runs, StopsRun};
ghost use Rattle.ent_driver.specs.Drives.{Shows, IsUnshown, Stands, StandsNowhere, Submits, IsNotSubmitted};
ghost use Rattle.ent_driver.specs.Drives.{HasOpening, IsNotOpen, IsUnreported};
ghost use Rattle.ent_driver.specs.Renewal.{IsNotRenewed, Renews};
ghost use Rattle.ent_driver.specs.declared.fault.DriverFault.TheVariants.{Vacant};
ghost use Rattle.ent_form.specs.OpeningFault.{opening_fault};
ghost use Rattle.ent_input.specs.Reading.{IsRefused};

use crate::closing::close;
use crate::fault::DriverFault;
use crate::one_run::run_once;
use crate::renewal::renewed_core;
use crate::script::submit;
use crate::text::{answers_text, report_text, table_text};
use ent_book::ReportVersion;
use ent_core::{Core, NotClosed, NotDone, Standing};
use ent_group::Tx;
use ent_input::{InputFault, read_input};
use ent_renewal::FinishedBook;
use ent_tree::Opening;
use ent_value::Refusal;
use std::alloc::Global;
use std::mem::replace;

/// What stands behind a handle: nothing, a core that is open, or the book of one that was closed.
#[derive(Drop)]
pub enum Driver {
    Vacant,
    Open(Core),
    Closed(FinishedBook),
}

impl Driver {
    /// Opens a core over an input: its opening is loaded, and its scripts, if it has any, are submitted in order and
    /// wait for a run. Else the input's first fault.
    pub fn open(alloc: Global, input: &[u8]) -> Result<Self, Refusal<InputFault>>
        ensures opened { IfOk result (λ driver. Opens input.now driver) }
        ensures refused { IfErr result (λ refusal. IsRefused input.now refusal) }
    {
        let input = read_input(alloc, input)?;
        match Core::over(alloc, input) {
            Ok(core) => Ok(Driver::Open(core)),
            Err(Refusal::Memory) => Err(Refusal::Memory),
            Err(Refusal::Fault(fault)) => Err(Refusal::Fault(InputFault::Form(fault))),
        }
    }

    /// The declarations of the core that is open, which have no fault.
    pub fn opening(&self) -> Option<&Opening>
        ensures opening { MatchOption result (IsNotOpen self.now) (λ opening. HasOpening self.now opening.now) }
        ensures formed { IfSome result (λ opening. opening_fault opening.now ≡ None) }
    {
        match self {
            Driver::Open(core) => {
                // A law: the opening has no fault of form.
                core.is_reached();
                Some(core.opening())
            }
            _ => None,
        }
    }

    /// Takes a script by its text, which has this script alone, and answers its number. At a refusal nothing changes.
    pub fn submit(&mut self, alloc: Global, script: &[u8]) -> Result<Tx, DriverFault>
        ensures ok { IfOk result (λ tx. Submits script.now self.old tx self.new) }
        ensures err { OnErr result (self.new ≡ self.old) }
        ensures refused { IfErr result (λ fault. IsNotSubmitted script.now self.old fault) }
    {
        match self {
            Driver::Open(core) => submit(alloc, core, script),
            _ => Err(DriverFault::Vacant),
        }
    }

    /// Makes one run, where something is left to be done: it starts, rounds follow until nothing moves in one, and it
    /// ends. Where memory runs out, what was done stands, and the call may be made again.
    pub fn run(&mut self, alloc: Global) -> Result<(), DriverFault>
        ensures ok { OnOk result (Runs self.old self.new) }
        ensures stopped { IfErr result (λ fault. StopsRun self.old self.new fault) }
        ensures vacant { IfErr result (λ fault. fault ≡ Vacant → self.new ≡ self.old) }
    {
        match replace(self, Driver::Vacant) {
            Driver::Open(core) => match run_once(alloc, core) {
                Ok(core) => {
                    *self = Driver::Open(core);
                    Ok(())
                }
                Err(refused) => {
                    *self = Driver::Open(refused.value);
                    Err(DriverFault::Memory)
                }
            },
            other => {
                *self = other;
                Err(DriverFault::Vacant)
            }
        }
    }

    /// Where a transaction stands.
    pub fn standing(&self, tx: Tx) -> Result<Standing, DriverFault>
        ensures ok { IfOk result (λ standing. Stands self.now tx standing) }
        ensures refused { IfErr result (λ fault. StandsNowhere self.now tx fault) }
    {
        match self {
            Driver::Open(core) => match core.standing(tx) {
                Some(standing) => Ok(standing),
                None => Err(DriverFault::Absent),
            },
            _ => Err(DriverFault::Vacant),
        }
    }

    /// The lines of a transaction's answers so far, as the report has them.
    pub fn answers(&self, alloc: Global, tx: Tx) -> Result<Vec<u8>, DriverFault>
        ensures ok { IfOk result (λ text. Answers self.now tx text.items) }
        ensures refused { IfErr result (λ fault. IsUnanswered self.now tx fault) }
    {
        match self {
            Driver::Open(core) => match core.standing(tx) {
                Some(_) => Ok(answers_text(alloc, core, tx)?),
                None => Err(DriverFault::Absent),
            },
            _ => Err(DriverFault::Vacant),
        }
    }

    /// The lines of the table of this name as it stands, as the report has them.
    pub fn table(&self, alloc: Global, name: &[u8]) -> Result<Vec<u8>, DriverFault>
        ensures ok { IfOk result (λ text. Shows self.now name.now text.items) }
        ensures refused { IfErr result (λ fault. IsUnshown self.now name.now fault) }
    {
        match self {
            Driver::Open(core) => table_text(alloc, core, name),
            _ => Err(DriverFault::Vacant),
        }
    }

    /// Closes the core, where no run is on and nobody waits for one; its book is left. Else nothing changes.
    pub fn close(&mut self) -> Result<(), DriverFault>
        ensures ok { OnOk result (Closes self.old self.new) }
        ensures err { OnErr result (self.new ≡ self.old) }
        ensures refused { IfErr result (λ fault. IsNotClosed self.old fault) }
    {
        match replace(self, Driver::Vacant) {
            Driver::Open(core) => match close(core) {
                Ok(book) => {
                    *self = Driver::Closed(book);
                    Ok(())
                }
                Err(NotClosed { core, refusal }) => {
                    *self = Driver::Open(core);
                    match refusal {
                        Refusal::Memory => Err(DriverFault::Memory),
                        Refusal::Fault(NotDone) => Err(DriverFault::NotDone),
                    }
                }
            },
            other => {
                *self = other;
                Err(DriverFault::Vacant)
            }
        }
    }

    /// The report of the book of a core that was closed, of this version.
    pub fn report(&self, alloc: Global, version: ReportVersion) -> Result<Vec<u8>, DriverFault>
        ensures ok { IfOk result (λ text. Reports self.now version text.items) }
        ensures refused { IfErr result (λ fault. IsUnreported self.now fault) }
    {
        match self {
            Driver::Closed(book) => Ok(report_text(alloc, book.book(), version)?),
            _ => Err(DriverFault::Vacant),
        }
    }

    /// Opens a core that goes on where the book ends: over its declarations, with the tables that it ends with. Nothing
    /// is submitted to it yet, so that numbers begin at 1 again, and the book is let go. Else nothing changes.
    pub fn renew(&mut self, alloc: Global) -> Result<(), DriverFault>
        ensures ok { OnOk result (Renews self.old self.new) }
        ensures err { OnErr result (self.new ≡ self.old) }
        ensures refused { IfErr result (λ fault. IsNotRenewed self.old fault) }
    {
        match self {
            Driver::Closed(book) => {
                let renewed = renewed_core(alloc, book)?;
                *self = Driver::Open(renewed);
                Ok(())
            }
            _ => Err(DriverFault::Vacant),
        }
    }
}

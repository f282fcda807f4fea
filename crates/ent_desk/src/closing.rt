//! A desk is closed.
ghost use Rattle.std.specs.Prelude.{◌≡◌, ◌<◌, ◌↔◌, IfErr, IfOk, IsTrue, OnOk, length, sum_by};
ghost use Rattle.ent_book.specs.Tables.{book_seen};
ghost use Rattle.ent_desk.specs.Accounted.{IsAccounted};
ghost use Rattle.ent_desk.specs.Closed.{IsClosedBook};
ghost use Rattle.ent_desk.specs.declared.closing.CloseFault.TheVariants.{NotDone, SessionsOut};
ghost use Rattle.ent_protocol.specs.Reached.{CanClose, book_of};
ghost use Rattle.ent_value.specs.declared.refusal.Refusal.TheVariants.{Fault, Memory};

use crate::account::hold_all;
use crate::audit::audit_all;
use crate::desk::Desk;
use crate::session::Session;
use ent_book::NamedTable;
use ent_core::{Core, resolved_runs_are_legal};
use ent_form::FormFault;
use ent_protocol_laws::finished_scripts_have_fates;
use ent_semantics::Book;
use ent_stamp::{LentStamps, Naming};
use ent_value::{Refusal, Sequence};
use std::sync::ledger::Book as LedgerBook;
use thiserror::Error;

/// Why a manager isn't closed.
#[derive(Clone, Copy, Debug, PartialEq, Eq, Error)]
pub enum CloseFault {
    /// Not all sessions are given, or more than there are.
    #[error("E501: not all sessions are given, or more than there are")]
    SessionsOut,
    /// A run is on, or a transaction waits for one.
    #[error("E405: a run is on, or a transaction waits for one")]
    NotDone,
    /// What the sessions hold isn't what the core has.
    #[error("E502: what the sessions hold isn't what the core has")]
    Differs,
}

/// A desk that isn't closed, as it was, and why.
#[derive(Drop)]
pub struct UnclosedDesk<L: Naming> {
    pub desk: Desk<L>,
    pub refusal: Refusal<CloseFault>,
}

/// The book of a desk that is closed, the books of both ledgers, and what gives out its stamps.
#[derive(Drop)]
pub(crate) struct Ended<L: Naming> {
    pub(crate) book: Book<Sequence<NamedTable>>,
    pub(crate) scripts: LedgerBook<L::Scripts>,
    pub(crate) entries: LedgerBook<L::Entries>,
    pub(crate) known: LentStamps<L>,
}

/// Whether no run is on and nobody waits for one.
pub(crate) fn can_close(core: &Core) -> bool
    ensures { IsTrue result ↔ CanClose core.now }
{
    if core.running() {
        return false;
    }
    match core.dormant(1) {
        None => true,
        Some(_) => false,
    }
}

impl<L: Naming> Desk<L> {
    /// The book, where no run is on, nobody waits for one, and all sessions together hold exactly what the core has.
    /// Else, and where memory runs out, the desk comes back.
    pub fn close(
        self,
        sessions: &mut [Session<L>],
    ) -> Result<Book<Sequence<NamedTable>>, UnclosedDesk<L>>
        requires nonempty { 0 < length sessions.old }
        requires scripts { length sessions.old ≡ L.Scripts.parts }
        requires entries { length sessions.old ≡ L.Entries.parts }
        ensures same { sessions.new ≡ sessions.old }
        ensures book { IfOk result (λ book. IsClosedBook (book_seen book) sessions.old) }
        ensures done { OnOk result (CanClose self.core) }
        ensures returned { IfErr result (λ refused. refused.desk ≡ self) }
        ensures not_done { IfErr result (λ refused. refused.refusal ≡ Fault NotDone → ¬ CanClose self.core) }
        ensures not_out { IfErr result (λ refused. refused.refusal ≡ Fault SessionsOut → ⊥) }
    {
        if !can_close(&self.core) {
            return Err(UnclosedDesk {
                desk: self,
                refusal: Refusal::Fault(CloseFault::NotDone),
            });
        }
        if !hold_all(sessions, &self.core, self.count) {
            return Err(UnclosedDesk {
                desk: self,
                refusal: Refusal::Fault(CloseFault::Differs),
            });
        }
        match self.close_accounted(sessions) {
            Ok(Ended { book, .. }) => Ok(book),
            Err(refused) => Err(refused),
        }
    }

    /// The same, where no run is on, nobody waits for one, and the sessions hold a ticket or a receipt of all that the
    /// core has: the ledgers show that they hold no more. The books of the ledgers are left, and the stamps.
    pub(crate) fn close_accounted(
        self,
        sessions: &mut [Session<L>],
    ) -> Result<Ended<L>, UnclosedDesk<L>>
        requires nonempty { 0 < length sessions.old }
        requires scripts { length sessions.old ≡ L.Scripts.parts }
        requires entries { length sessions.old ≡ L.Entries.parts }
        requires done { CanClose self.core }
        requires accounted { IsAccounted self.core self.count sessions.old }
        ensures same { sessions.new ≡ sessions.old }
        ensures is { IfOk result (λ ended. book_seen ended.book ≡ book_of self.core) }
        ensures book { IfOk result (λ ended. IsClosedBook (book_seen ended.book) sessions.old) }
        ensures by_scripts { IfOk result (λ ended.
            ended.scripts.total ≡ sum_by (λ session. length session.tickets) sessions.old) }
        ensures by_entries { IfOk result (λ ended.
            ended.entries.total ≡ sum_by (λ session. length session.receipts) sessions.old) }
        ensures returned { IfErr result (λ refused. refused.desk ≡ self) }
        ensures memory { IfErr result (λ refused. refused.refusal ≡ Memory) }
    {
        resolved_runs_are_legal();
        finished_scripts_have_fates::<FormFault>();
        let Desk {
            core,
            count,
            mut scripts,
            mut entries,
            left,
            known,
        } = self;
        core.is_reached();
        audit_all(sessions, &mut scripts, &mut entries);
        match core.close() {
            Ok(book) => Ok(Ended {
                book,
                scripts,
                entries,
                known,
            }),
            Err(refused) => Err(UnclosedDesk {
                desk: Desk {
                    core: refused.core,
                    count,
                    scripts,
                    entries,
                    left,
                    known,
                },
                refusal: Refusal::Memory,
            }),
        }
    }
}

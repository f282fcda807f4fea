//! A desk goes on where its book ends.
ghost use Rattle.std.specs.Prelude.{◌≡◌, ◌<◌, IfErr, IfOk, OnErr, OnOk, false, length};
ghost use Rattle.ent_book.specs.Tables.{book_seen};
ghost use Rattle.ent_desk.specs.Accounted.{IsAccounted};
ghost use Rattle.ent_desk.specs.Closed.{IsClosedBook};
ghost use Rattle.ent_desk.specs.Opened.{first_over};
ghost use Rattle.ent_desk.specs.Renewed.{GoOnFrom, HasTooManyRows};
ghost use Rattle.ent_desk.specs.declared.closing.CloseFault.{CloseFault as CloseFaultSeen};
ghost use Rattle.ent_desk.specs.declared.closing.CloseFault.TheVariants.{NotDone, SessionsOut};
ghost use Rattle.ent_desk.specs.declared.renewal.RenewFault.TheVariants as renew_faults;
ghost use Rattle.ent_protocol.specs.Reached.{CanClose, book_of, opened};
ghost use Rattle.ent_renewal.specs.Renewal.{IsRenewed};
ghost use Rattle.ent_renewal.specs.declared.opening.TooManyRows.{TooManyRows as NoRoom};
ghost use Rattle.ent_value.specs.declared.refusal.Refusal.TheVariants.{Fault, Memory};

use crate::account::hold_all;
use crate::closing::{CloseFault, Ended, can_close};
use crate::desk::Desk;
use crate::next::{Next, next_of};
use crate::seats::seat_again;
use crate::session::Session;
use ent_book::NamedTable;
use ent_renewal::TooManyRows;
use ent_semantics::Book;
use ent_stamp::Naming;
use ent_value::{Refusal, Sequence};
use std::alloc::Global;
use thiserror::Error;

/// Why a manager doesn't go on where its book ends.
#[derive(Clone, Copy, Debug, PartialEq, Eq, Error)]
pub enum RenewFault {
    /// It can't be closed.
    #[error("{0}")]
    Close(CloseFault),
    /// The tables have more rows together than an opening has.
    #[error("E407: the tables have more rows together than an opening has")]
    TooManyRows,
}

/// A desk that doesn't go on where its book ends, as it was, and why.
#[derive(Drop)]
pub struct NotRenewed<L: Naming> {
    pub desk: Desk<L>,
    pub refusal: Refusal<RenewFault>,
}

/// The book of a desk, and the desk that goes on where it ends.
#[derive(Drop)]
pub struct Renewed<L: Naming> {
    pub desk: Desk<L>,
    pub book: Book<Sequence<NamedTable>>,
}

fn not_renewed<L: Naming>(desk: Desk<L>, fault: RenewFault) -> NotRenewed<L>
    ensures desk { result.desk ≡ desk }
    ensures refusal { result.refusal ≡ Fault fault }
{
    NotRenewed {
        desk,
        refusal: Refusal::Fault(fault),
    }
}

/// Why there is no next core.
fn refusal_of(refusal: Refusal<TooManyRows>) -> Refusal<RenewFault>
    ensures rows { result ≡ Fault renew_faults.TooManyRows → (fault : NoRoom) × (refusal ≡ Fault fault) }
    ensures others { (fault : CloseFaultSeen) → result ≡ Fault (renew_faults.Close fault) → ⊥ }
{
    match refusal {
        Refusal::Memory => Refusal::Memory,
        Refusal::Fault(TooManyRows) => Refusal::Fault(RenewFault::TooManyRows),
    }
}

impl<L: Naming> Desk<L> {
    /// Ends an epoch and begins the next one, where the desk could be closed: the book, as [`Desk::close`] gives it,
    /// and a desk over the tables with which it ends. To that nothing is submitted, and the sessions are seated again:
    /// they hold nothing, but the first one the new opening. Else, and where memory runs out, the desk comes back, and
    /// the sessions are as they were.
    pub fn renew(
        self,
        alloc: Global,
        sessions: &mut [Session<L>],
    ) -> Result<Renewed<L>, NotRenewed<L>>
        requires nonempty { 0 < length sessions.old }
        requires scripts { length sessions.old ≡ L.Scripts.parts }
        requires entries { length sessions.old ≡ L.Entries.parts }
        ensures is { IfOk result (λ renewed. book_seen renewed.book ≡ book_of self.core) }
        ensures book { IfOk result (λ renewed. IsClosedBook (book_seen renewed.book) sessions.old) }
        ensures goes_on { IfOk result (λ renewed. GoOnFrom (book_seen renewed.book) sessions.old sessions.new) }
        ensures fresh { IfOk result (λ renewed. renewed.desk.core ≡ opened renewed.desk.core.opening) }
        ensures renewed { IfOk result (λ renewed.
            IsRenewed self.core.opening.tables (book_of self.core).database renewed.desk.core.opening) }
        ensures count { IfOk result (λ renewed. renewed.desk.count ≡ 0) }
        ensures left { IfOk result (λ renewed. renewed.desk.left ≡ false) }
        ensures done { OnOk result (CanClose self.core) }
        ensures err { OnErr result (sessions.new ≡ sessions.old) }
        ensures returned { IfErr result (λ refused. refused.desk ≡ self) }
        ensures not_done { IfErr result (λ refused. refused.refusal ≡ Fault (renew_faults.Close NotDone)
            → ¬ CanClose self.core) }
        ensures not_out { IfErr result (λ refused. refused.refusal ≡ Fault (renew_faults.Close SessionsOut) → ⊥) }
        ensures too_many { IfErr result (λ refused. refused.refusal ≡ Fault renew_faults.TooManyRows
            → HasTooManyRows (book_of self.core)) }
    {
        if !can_close(&self.core) {
            return Err(not_renewed(self, RenewFault::Close(CloseFault::NotDone)));
        }
        if !hold_all(sessions, &self.core, self.count) {
            return Err(not_renewed(self, RenewFault::Close(CloseFault::Differs)));
        }
        let next = match next_of(alloc, &self.core) {
            Ok(next) => next,
            Err(refusal) => {
                return Err(NotRenewed {
                    desk: self,
                    refusal: refusal_of(refusal),
                });
            }
        };
        self.go_on(sessions, next)
    }

    /// Ends the epoch of a desk that can be closed, and goes on with this core.
    fn go_on(self, sessions: &mut [Session<L>], next: Next) -> Result<Renewed<L>, NotRenewed<L>>
        requires nonempty { 0 < length sessions.old }
        requires scripts { length sessions.old ≡ L.Scripts.parts }
        requires entries { length sessions.old ≡ L.Entries.parts }
        requires done { CanClose self.core }
        requires accounted { IsAccounted self.core self.count sessions.old }
        requires fresh { next.core ≡ opened next.core.opening }
        requires first { next.first ≡ first_over next.core.opening 0 }
        requires renewed { IsRenewed self.core.opening.tables (book_of self.core).database next.core.opening }
        ensures is { IfOk result (λ renewed. book_seen renewed.book ≡ book_of self.core) }
        ensures book { IfOk result (λ renewed. IsClosedBook (book_seen renewed.book) sessions.old) }
        ensures goes_on { IfOk result (λ renewed. GoOnFrom (book_seen renewed.book) sessions.old sessions.new) }
        ensures desk { IfOk result (λ renewed. renewed.desk ≡ record { core = next.core; count = 0; left = false }) }
        ensures err { OnErr result (sessions.new ≡ sessions.old) }
        ensures returned { IfErr result (λ refused. refused.desk ≡ self) }
        ensures memory { IfErr result (λ refused. refused.refusal ≡ Memory) }
    {
        match self.close_accounted(sessions) {
            Ok(ended) => {
                let Ended {
                    book,
                    mut scripts,
                    mut entries,
                    known,
                } = ended;
                seat_again(sessions, next.first, &mut scripts, &mut entries);
                Ok(Renewed {
                    desk: Desk::new(next.core, 0, scripts, entries, known),
                    book,
                })
            }
            Err(refused) => Err(NotRenewed {
                desk: refused.desk,
                refusal: Refusal::Memory,
            }),
        }
    }
}

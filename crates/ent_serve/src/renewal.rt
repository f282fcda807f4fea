//! A manager goes on where its book ends.
ghost use Rattle.std.specs.Prelude.{◌≡◌, ◌≢◌, ◌↔◌, IfErr, IfOk, OnOk, vec_len};
ghost use Rattle.ent_book.specs.Tables.{book_seen};
ghost use Rattle.ent_desk.specs.Closed.{IsClosedBook};
ghost use Rattle.ent_desk.specs.Renewed.{GoOnFrom};
ghost use Rattle.ent_desk.specs.declared.closing.CloseFault.TheVariants.{NotDone, SessionsOut};
ghost use Rattle.ent_desk.specs.declared.renewal.RenewFault.TheVariants.{Close, TooManyRows};
ghost use Rattle.ent_serve.specs.Look.{IsFullBehindLock, IsLeftBehindLock};
ghost use Rattle.ent_value.specs.declared.refusal.Refusal.TheVariants.{Fault};

use crate::gate::Gate;
use crate::manager::Manager;
use ent_book::NamedTable;
use ent_desk::{CloseFault, Naming, RenewFault, Session};
use ent_semantics::Book;
use ent_value::{Refusal, Sequence};
use std::sync::Mutex;

/// The book of an epoch of a manager, and the manager and the sessions that go on where it ends.
#[derive(Drop)]
pub struct Renewed<L: Naming, G: Gate> {
    pub manager: Manager<L, G>,
    pub sessions: Vec<Session<L>>,
    pub book: Book<Sequence<NamedTable>>,
}

/// A manager that doesn't go on where its book ends, with its sessions, as they were, and why.
#[derive(Drop)]
pub struct NotRenewed<L: Naming, G: Gate> {
    pub manager: Manager<L, G>,
    pub sessions: Vec<Session<L>>,
    pub refusal: Refusal<RenewFault>,
}

impl<L: Naming, G: Gate> Manager<L, G> {
    /// Ends an epoch and begins the next one, where all sessions are given and every transaction has its fate: the
    /// book, as [`Manager::close`] gives it, and the manager with its sessions, which goes on where the tables stand.
    /// Transactions are numbered from 1 again. The sessions hold no tickets and no receipts, and the first one that is
    /// given keeps the new opening: so read before what is wanted of them. Else the manager and the sessions come back,
    /// as they were, with the reason. It waits for nobody.
    pub fn renew(self, mut sessions: Vec<Session<L>>) -> Result<Renewed<L, G>, NotRenewed<L, G>>
        requires { (L.Scripts.seats ≡ L.Scripts.parts) × (L.Entries.seats ≡ L.Entries.parts) }
        ensures book { IfOk result (λ renewed. IsClosedBook (book_seen renewed.book) sessions.items) }
        ensures goes_on { IfOk result (λ renewed.
            GoOnFrom (book_seen renewed.book) sessions.items renewed.sessions.items) }
        ensures all_given { OnOk result (vec_len sessions ≡ self.sessions) }
        ensures renewed { IfOk result (λ renewed. renewed.manager.sessions ≡ self.sessions) }
        ensures returned { IfErr result (λ refused. refused.sessions.items ≡ sessions.items) }
        ensures manager { IfErr result (λ refused. refused.manager.sessions ≡ self.sessions) }
        ensures sessions_out { IfErr result (λ refused.
            (refused.refusal ≡ Fault (Close SessionsOut)) ↔ (vec_len sessions ≢ self.sessions)) }
        ensures not_done { IfErr result (λ refused. refused.refusal ≡ Fault (Close NotDone) → IsLeftBehindLock) }
        ensures too_many { IfErr result (λ refused. refused.refusal ≡ Fault TooManyRows → IsFullBehindLock) }
    {
        if sessions.len() != self.sessions {
            return Err(NotRenewed {
                manager: self,
                sessions,
                refusal: Refusal::Fault(RenewFault::Close(CloseFault::SessionsOut)),
            });
        }
        let Manager {
            alloc,
            desk,
            bell,
            gate,
            sessions: count,
        } = self;
        let desk = desk.into_inner();
        let _core = desk.core();
        match desk.renew(alloc, sessions.as_mut_slice()) {
            Ok(renewed) => Ok(Renewed {
                manager: Manager {
                    alloc,
                    desk: Mutex::new(renewed.desk),
                    bell,
                    gate,
                    sessions: count,
                },
                sessions,
                book: renewed.book,
            }),
            Err(refused) => Err(NotRenewed {
                manager: Manager {
                    alloc,
                    desk: Mutex::new(refused.desk),
                    bell,
                    gate,
                    sessions: count,
                },
                sessions,
                refusal: refused.refusal,
            }),
        }
    }
}

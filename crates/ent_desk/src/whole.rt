//! A desk gives its book without the sessions.
ghost use Rattle.std.specs.Prelude.{◌≡◌, ◌≢◌, IfErr, IfOk, OnOk};
ghost use Rattle.ent_book.specs.Tables.{book_seen};
ghost use Rattle.ent_core.specs.declared.closing.NotDone.{NotDone as Left};
ghost use Rattle.ent_desk.specs.Closed.{IsWholeBook};
ghost use Rattle.ent_desk.specs.declared.closing.CloseFault.TheVariants.{NotDone};
ghost use Rattle.ent_protocol.specs.Reached.{CanClose, book_of};
ghost use Rattle.ent_value.specs.declared.refusal.Refusal.TheVariants.{Fault, Memory};

use crate::closing::{CloseFault, UnclosedDesk};
use crate::desk::Desk;
use ent_book::NamedTable;
use ent_core::{NotDone as Left, resolved_runs_are_legal};
use ent_form::FormFault;
use ent_protocol_laws::finished_scripts_have_fates;
use ent_semantics::Book;
use ent_stamp::Naming;
use ent_value::{Refusal, Sequence};

/// Why a core isn't closed, of a manager.
fn close_refusal(refusal: Refusal<Left>) -> Refusal<CloseFault>
    ensures memory { refusal ≡ Memory → result ≡ Memory }
    ensures fault { (fault : Left) → refusal ≡ Fault fault → result ≡ Fault NotDone }
{
    match refusal {
        Refusal::Memory => Refusal::Memory,
        Refusal::Fault(Left) => Refusal::Fault(CloseFault::NotDone),
    }
}

impl<L: Naming> Desk<L> {
    /// The book, where no run is on and nobody waits for one, whatever the sessions hold, and where they are lost too.
    /// Else, and where memory runs out, the desk comes back.
    pub fn into_book(self) -> Result<Book<Sequence<NamedTable>>, UnclosedDesk<L>>
        ensures is { IfOk result (λ book. book_seen book ≡ book_of self.core) }
        ensures book { IfOk result (λ book. IsWholeBook (book_seen book)) }
        ensures done { OnOk result (CanClose self.core) }
        ensures returned { IfErr result (λ refused. refused.desk ≡ self) }
        ensures not_done { IfErr result (λ refused. refused.refusal ≡ Fault NotDone → ¬ CanClose self.core) }
        ensures others { IfErr result (λ refused. refused.refusal ≢ Memory → refused.refusal ≡ Fault NotDone) }
    {
        resolved_runs_are_legal();
        finished_scripts_have_fates::<FormFault>();
        let Desk {
            core,
            count,
            scripts,
            entries,
            left,
            known,
        } = self;
        core.is_reached();
        match core.close() {
            Ok(book) => Ok(book),
            Err(refused) => Err(UnclosedDesk {
                desk: Desk {
                    core: refused.core,
                    count,
                    scripts,
                    entries,
                    left,
                    known,
                },
                refusal: close_refusal(refused.refusal),
            }),
        }
    }
}

//! A core is closed, and its book is left.
ghost use Rattle.std.specs.Prelude.{◌≡◌, IfErr, IfOk};
ghost use Rattle.ent_book.specs.Tables.{book_seen};
ghost use Rattle.ent_core.specs.declared.closing.NotDone.{NotDone};
ghost use Rattle.ent_protocol.specs.Reached.{CanClose, book_of};
ghost use Rattle.ent_semantics.specs.Book.{IsLegal};
ghost use Rattle.ent_value.specs.declared.refusal.Refusal.TheVariants.{Fault};

use ent_core::{Core, NotClosed};
use ent_renewal::FinishedBook;

/// The book of a core, where no run is on and nobody waits for one; else, and where memory runs out, the core comes
/// back.
pub(crate) fn close(core: Core) -> Result<FinishedBook, NotClosed>
    ensures book { IfOk result (λ book. book_seen book ≡ book_of core) }
    ensures legal { IfOk result (λ book. IsLegal (book_seen book)) }
    ensures returned { IfErr result (λ refused. refused.core ≡ core) }
    ensures not_done { IfErr result (λ refused. (fault : NotDone)
        → refused.refusal ≡ Fault fault
        → ¬ CanClose core) }
{
    // A law: the opening has no fault of form.
    core.is_reached();
    Ok(FinishedBook::new(core.close()?))
}

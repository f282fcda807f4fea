//! The scripts of a core, run until each has its fate.
ghost use Rattle.std.specs.Prelude.{IfOk};
ghost use Rattle.ent_book.specs.Tables.{book_seen};
ghost use Rattle.ent_protocol_laws.specs.Fates.{HaveFates};
ghost use Rattle.ent_sched.specs.Passed.{resolved_forms};
ghost use Rattle.ent_sched.specs.RunOut.{IsRunOut};
ghost use Rattle.ent_semantics.specs.Book.{IsLegal};

use ent_book::NamedTable;
use ent_form::FormFault;
use ent_protocol_laws::events_lead_on;
use ent_sched::{Core, Counted, Watcher, run_all_watched};
use ent_semantics::Book;
use ent_value::Sequence;
use std::alloc::{AllocError, AllocFailed, Global};

/// Runs the scripts of a core until each has its fate; the watcher is told of each event. Where memory runs out, the
/// core that comes back is run on, as long as there are tries left.
pub(crate) fn run_out<T: Watcher>(
    alloc: Global,
    core: Core,
    tries: u64,
    watcher: &mut T,
) -> Result<Book<Sequence<NamedTable>>, AllocError>
    ensures book { IfOk result (λ book. IsRunOut resolved_forms core (book_seen book)) }
    ensures fates { IfOk result (λ book. HaveFates (book_seen book)) }
    ensures legal { IfOk result (λ book. IsLegal (book_seen book)) }
{
    events_lead_on::<FormFault>();
    let mut counted = Counted::new(core);
    for _ in 1..tries {
        match run_all_watched(alloc, counted, watcher) {
            Ok(made) => return Ok(made.book),
            Err(AllocFailed { value }) => counted = value,
        }
    }
    match run_all_watched(alloc, counted, watcher) {
        Ok(made) => Ok(made.book),
        Err(_) => Err(AllocError),
    }
}

//! All runs of a core.
ghost use Rattle.std.specs.Prelude.{◌≡◌, ℕ, IfErr, IfOk};
ghost use Rattle.ent_book.specs.Tables.{book_seen};
ghost use Rattle.ent_protocol_laws.specs.Fates.{HaveFates};
ghost use Rattle.ent_protocol.specs.Reached.{IsFinishedBook, book_of, scripts_of};
ghost use Rattle.ent_core.specs.Passed.{resolved_forms};
ghost use Rattle.ent_sched.specs.Onward.{LeadsOn};
ghost use Rattle.ent_sched.specs.RunOut.{IsRunOut};
ghost use Rattle.ent_sched.specs.Runs.{RunsInto, RunsOut};
ghost use Rattle.ent_sched.specs.Tally.{Tally};
ghost use Rattle.ent_sched.specs.Watching.{IsWatched};
ghost use Rattle.ent_semantics.specs.Book.{IsLegal};
ghost use Rattle.ent_value.specs.Ticks.{ticked};

use crate::counted::{Counted, CountedBook, NotClosedYet};
use crate::one_run::run_watched;
use crate::watcher::{Silent, Watcher};
use ent_book::NamedTable;
use ent_core::Core;
use ent_form::FormFault;
use ent_protocol_laws::{events_keep_the_input, events_lead_on, finished_scripts_have_fates};
use ent_semantics::Book;
use ent_value::{Refusal, Sequence};
use std::alloc::{AllocFailed, Global};

/// What [`run_all`] does, of a core whose events are counted, and of which a watcher is told: the count goes up by the
/// events that are made, each of which is the recall or stands in a run; and the watcher hears of each of them with its
/// reply, in order, and of nothing else.
pub fn run_all_watched<W: Watcher>(
    alloc: Global,
    mut counted: Counted,
    watcher: &mut W,
) -> Result<CountedBook, AllocFailed<Counted>>
    ensures runs { IfOk result (λ made. (count : ℕ)
        × RunsOut resolved_forms count counted.core (book_seen made.book)
        × (made.ticks ≡ ticked count counted.ticks)) }
    ensures book { IfOk result (λ made. IsRunOut resolved_forms counted.core (book_seen made.book)) }
    ensures finished { IfOk result (λ made.
        IsFinishedBook resolved_forms counted.core.opening (scripts_of counted.core) (book_seen made.book)) }
    ensures fates { IfOk result (λ made. HaveFates (book_seen made.book)) }
    ensures legal { IfOk result (λ made. IsLegal (book_seen made.book)) }
    ensures handed_back { IfErr result (λ refused. (count : ℕ)
        × LeadsOn resolved_forms count counted.core refused.value.core
        × RunsInto resolved_forms count counted.core refused.value.core
        × (refused.value.ticks ≡ ticked count counted.ticks)) }
    ensures watched { IfOk result (λ made. (last : Tally)
        × IsWatched resolved_forms W.hears counted last watcher.old watcher.new
        × (book_seen made.book ≡ book_of last.core)
        × (made.ticks ≡ last.ticks)) }
    ensures watched_so_far { IfErr result (λ refused.
        IsWatched resolved_forms W.hears counted refused.value watcher.old watcher.new) }
{
    events_keep_the_input::<FormFault>();
    events_lead_on::<FormFault>();
    finished_scripts_have_fates::<FormFault>();
    drop(counted.recall_watched(watcher));
    'runs: loop {
        counted.is_reached();
        match counted.close() {
            Ok(made) => return Ok(made),
            Err(refused) => {
                let NotClosedYet {
                    counted: open,
                    refusal,
                } = refused;
                counted = open;
                if let Refusal::Memory = refusal {
                    return Err(AllocFailed { value: counted });
                }
            }
        }
        if run_watched(alloc, &mut counted, watcher).is_err() {
            return Err(AllocFailed { value: counted });
        }
    }
}

/// What [`run_all`] does, of a core whose events are counted: the count goes up by the events that are made, each of
/// which is the recall or stands in a run.
pub fn run_all_counted(alloc: Global, counted: Counted) -> Result<CountedBook, AllocFailed<Counted>>
    ensures runs { IfOk result (λ made. (count : ℕ)
        × RunsOut resolved_forms count counted.core (book_seen made.book)
        × (made.ticks ≡ ticked count counted.ticks)) }
    ensures book { IfOk result (λ made. IsRunOut resolved_forms counted.core (book_seen made.book)) }
    ensures finished { IfOk result (λ made.
        IsFinishedBook resolved_forms counted.core.opening (scripts_of counted.core) (book_seen made.book)) }
    ensures fates { IfOk result (λ made. HaveFates (book_seen made.book)) }
    ensures legal { IfOk result (λ made. IsLegal (book_seen made.book)) }
    ensures handed_back { IfErr result (λ refused. (count : ℕ)
        × LeadsOn resolved_forms count counted.core refused.value.core
        × RunsInto resolved_forms count counted.core refused.value.core
        × (refused.value.ticks ≡ ticked count counted.ticks)) }
{
    run_all_watched(alloc, counted, &mut Silent)
}

/// Runs the scripts of a core until each has its fate, and closes it: its finished book. Jobs that are lent are taken
/// back first. Where memory runs out the core comes back, as far as it has come, and may be run again.
pub fn run_all(alloc: Global, core: Core) -> Result<Book<Sequence<NamedTable>>, AllocFailed<Core>>
    ensures book { IfOk result (λ book. IsRunOut resolved_forms core (book_seen book)) }
    ensures finished { IfOk result (λ book.
        IsFinishedBook resolved_forms core.opening (scripts_of core) (book_seen book)) }
    ensures fates { IfOk result (λ book. HaveFates (book_seen book)) }
    ensures legal { IfOk result (λ book. IsLegal (book_seen book)) }
    ensures runs { IfOk result (λ book. (count : ℕ) × RunsOut resolved_forms count core (book_seen book)) }
    ensures handed_back { IfErr result (λ refused. (count : ℕ) × LeadsOn resolved_forms count core refused.value) }
    ensures run_into { IfErr result (λ refused. (count : ℕ) × RunsInto resolved_forms count core refused.value) }
{
    match run_all_counted(alloc, Counted::new(core)) {
        Ok(made) => Ok(made.book),
        Err(refused) => {
            let (core, _) = refused.value.into_parts();
            Err(AllocFailed { value: core })
        }
    }
}

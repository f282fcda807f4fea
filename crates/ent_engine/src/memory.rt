//! The report of an input in memory.
ghost use Rattle.std.specs.Prelude.{[], IfErr, IfOk, Some};
ghost use Rattle.ent_engine.specs.Io.{WritesReport};
ghost use Rattle.ent_engine.specs.Reading.{IsRefused};

use crate::fault::RunFault;
use crate::options::RunOptions;
use crate::runs::run_out;
use ent_book::write_book;
use ent_input::read_input;
use ent_sched::{Core, Silent};
use ent_value::Watched;
use std::alloc::Global;

/// The report of an input in memory, of the version that is asked for; or the input's first fault. It reads and writes
/// no stream, so no fault of one is answered.
pub fn report_of(alloc: Global, input: &[u8], options: RunOptions) -> Result<Vec<u8>, RunFault>
    ensures report { IfOk result (λ report. WritesReport options.report input.now (Some []) (Some report.items)) }
    ensures refused { IfErr result (λ fault. IsRefused input.now fault) }
{
    let read = read_input(alloc, input)?;
    let core = Core::over(alloc, read)?;
    let book = run_out(alloc, core, options.tries, &mut Silent)?;
    let mut writer = Watched::new(Vec::new(alloc));
    match write_book(alloc, &book, options.report, &mut writer) {
        Ok(()) => Ok(writer.into_inner()),
        // What is written goes into memory: only want of memory keeps it out.
        Err(_) => Err(RunFault::Memory),
    }
}

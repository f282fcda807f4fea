//! A whole run in threads: bytes in, report out.
ghost use Rattle.std.specs.Prelude.{◌<◌, ◌≤◌, IfErr, IfSome, OnOk};
ghost use Rattle.ent_value.specs.Watched.{IsUnmarked};
ghost use Rattle.ent_engine.specs.Io.{IsReaderMarkedBy, IsWriterMarkedBy, IsSilent, WritesReport, WritesBeginning};
ghost use Rattle.ent_serve.specs.declared.manager.TheConstants.{MOST_SESSIONS};
ghost use Rattle.ent_workers.specs.Refused.{IsRefusedAtWork};

use crate::threads::run_in_threads;
use ent_book::{ReportVersion, WriteFault, write_book};
use ent_engine::{RunFault, read_whole};
use ent_input::read_input;
use ent_value::{Refusal, Watched};
use std::alloc::Global;
use std::io::{Read, Write};
use std::sync::Wait;
use std::thread::Threads;

/// As [`ent_engine::run`], where so many workers, 1 to [`MOST_SESSIONS`](crate::MOST_SESSIONS), each in a thread of its
/// own, run the scripts. It waits for them, and promises what it does where it returns. Where memory runs out in any of
/// them nothing is written; no further try is made. Which order of commits the report shows may differ from one call to
/// the next.
pub fn run_workers<T: Threads + Wait + Sync, R: Read, W: Write>(
    rt: &T,
    alloc: Global,
    reader: &mut Watched<R>,
    writer: &mut Watched<W>,
    workers: usize,
    version: ReportVersion,
) -> Result<(), RunFault>
    requires nonempty { 0 < workers }
    requires bound { workers ≤ MOST_SESSIONS }
    requires reader_unmarked { IsUnmarked reader.old }
    requires writer_unmarked { IsUnmarked writer.old }
    ensures report { OnOk result (IfSome (R.remaining reader.old.inner) (λ bytes.
        WritesReport version bytes (W.contents writer.old.inner) (W.contents writer.new.inner))) }
    ensures refused { IfErr result (λ fault.
        IfSome (R.remaining reader.old.inner) (λ bytes. IsRefusedAtWork bytes fault)) }
    ensures reader_marks { IsReaderMarkedBy result reader.new }
    ensures writer_marks { IsWriterMarkedBy result writer.new }
    ensures silent { IfErr result (λ fault.
        IsSilent (W.contents writer.old.inner) (W.contents writer.new.inner) fault) }
    ensures beginning { IfErr result (λ fault. IfSome (R.remaining reader.old.inner) (λ bytes.
        WritesBeginning version bytes (W.contents writer.old.inner) (W.contents writer.new.inner) fault)) }
{
    let bytes = read_whole(alloc, reader)?;
    let input = read_input(alloc, bytes.as_slice())?;
    drop(bytes);
    let book = run_in_threads(rt, alloc, input, workers)?;
    match write_book(alloc, &book, version, writer) {
        Ok(()) => Ok(()),
        Err(Refusal::Memory) => Err(RunFault::Memory),
        Err(Refusal::Fault(WriteFault)) => Err(RunFault::WriteFault),
    }
}

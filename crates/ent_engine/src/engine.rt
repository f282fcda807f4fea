//! A whole run: bytes in, report out.
ghost use Rattle.std.specs.Prelude.{IfErr, IfSome, OnOk};
ghost use Rattle.ent_value.specs.Watched.{IsUnmarked};
ghost use Rattle.ent_engine.specs.Reading.{IsRefusedInRun};
ghost use Rattle.ent_engine.specs.Io.{IsReaderMarkedBy, IsWriterMarkedBy, IsSilent, WritesReport, WritesBeginning};

use crate::fault::RunFault;
use crate::options::RunOptions;
use crate::reader::read_whole;
use crate::runs::run_out;
use ent_book::{WriteFault, write_book};
use ent_input::read_input;
use ent_sched::{Core, Silent, Watcher};
use ent_value::{Refusal, Watched};
use std::alloc::Global;
use std::io::{Read, Write};

/// As [`run`]; and a watcher is told each event of the core that is run, with its reply, in order.
pub fn run_watched<R: Read, W: Write, T: Watcher>(
    alloc: Global,
    reader: &mut Watched<R>,
    writer: &mut Watched<W>,
    options: RunOptions,
    watcher: &mut T,
) -> Result<(), RunFault>
    requires reader_unmarked { IsUnmarked reader.old }
    requires writer_unmarked { IsUnmarked writer.old }
    ensures report { OnOk result (IfSome (R.remaining reader.old.inner) (λ bytes.
        WritesReport options.report bytes (W.contents writer.old.inner) (W.contents writer.new.inner))) }
    ensures refused { IfErr result (λ fault. IfSome (R.remaining reader.old.inner) (λ bytes. IsRefusedInRun bytes fault)) }
    // A fault of the reader is answered exactly where that one failed; one of the writer exactly where that one failed
    // or took no byte.
    ensures reader_marks { IsReaderMarkedBy result reader.new }
    ensures writer_marks { IsWriterMarkedBy result writer.new }
    // Nothing is written but where the writer failed; then it is a beginning of the report.
    ensures silent { IfErr result (λ fault.
        IsSilent (W.contents writer.old.inner) (W.contents writer.new.inner) fault) }
    ensures beginning { IfErr result (λ fault. IfSome (R.remaining reader.old.inner) (λ bytes.
        WritesBeginning options.report bytes (W.contents writer.old.inner) (W.contents writer.new.inner) fault)) }
{
    let bytes = read_whole(alloc, reader)?;
    let input = read_input(alloc, bytes.as_slice())?;
    drop(bytes);
    let core = Core::over(alloc, input)?;
    let book = run_out(alloc, core, options.tries, watcher)?;
    match write_book(alloc, &book, options.report, writer) {
        Ok(()) => Ok(()),
        Err(Refusal::Memory) => Err(RunFault::Memory),
        Err(Refusal::Fault(WriteFault)) => Err(RunFault::WriteFault),
    }
}

/// Reads an input whole, submits its scripts in order, runs them until each has its fate, and writes their report.
///
/// Reader and writer are handed in unmarked, as [`Watched::new`] makes them, so that their marks tell of this call.
/// What is written is the report, of the version that is asked for, of the input that the reader had, for a reader that
/// tells what it has and a writer that tells what it holds. Where the input is refused, nothing is written, and the
/// fault is the input's first.
pub fn run<R: Read, W: Write>(
    alloc: Global,
    reader: &mut Watched<R>,
    writer: &mut Watched<W>,
    options: RunOptions,
) -> Result<(), RunFault>
    requires reader_unmarked { IsUnmarked reader.old }
    requires writer_unmarked { IsUnmarked writer.old }
    ensures report { OnOk result (IfSome (R.remaining reader.old.inner) (λ bytes.
        WritesReport options.report bytes (W.contents writer.old.inner) (W.contents writer.new.inner))) }
    ensures refused { IfErr result (λ fault. IfSome (R.remaining reader.old.inner) (λ bytes. IsRefusedInRun bytes fault)) }
    // A fault of the reader is answered exactly where that one failed; one of the writer exactly where that one failed
    // or took no byte.
    ensures reader_marks { IsReaderMarkedBy result reader.new }
    ensures writer_marks { IsWriterMarkedBy result writer.new }
    // Nothing is written but where the writer failed; then it is a beginning of the report.
    ensures silent { IfErr result (λ fault.
        IsSilent (W.contents writer.old.inner) (W.contents writer.new.inner) fault) }
    ensures beginning { IfErr result (λ fault. IfSome (R.remaining reader.old.inner) (λ bytes.
        WritesBeginning options.report bytes (W.contents writer.old.inner) (W.contents writer.new.inner) fault)) }
{
    run_watched(alloc, reader, writer, options, &mut Silent)
}

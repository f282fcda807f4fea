//! A whole meeting: bytes in, report out.
ghost use Rattle.std.specs.Io.KnownBytes.{Appends};
ghost use Rattle.std.specs.Prelude.{◌≡◌, IfErr, IfOk, IfSome, OnErr, OnOk, is_err};
ghost use Rattle.ent_print.specs.Write.{AppendsBeginning, is_marked};
ghost use Rattle.ent_value.specs.Watched.{IsUnmarked};
ghost use Rattle.ent_meet.specs.Meeting.{IsMeeting, IsNotMet, IsNotMetInRun, IsReaderMarkedBy, IsSilent};
ghost use Rattle.ent_meet.specs.Meeting.{IsWriterMarkedBy, WritesBeginning, WritesMeeting};

use crate::fault::MeetFault;
use crate::opening::opened;
use crate::stepping::{close, rest};
use crate::text::meeting_text;
use ent_engine::{RunFault, read_whole};
use ent_print::{WriteFault, write_whole};
use ent_room::Room;
use ent_value::Watched;
use std::alloc::{AllocError, Global};
use std::io::{Read, Write};

/// What came of an input in a room: the room, in which the last epoch ended, and the text.
#[derive(Drop)]
pub struct Meeting {
    pub room: Room,
    pub text: Vec<u8>,
}

/// The meeting of an input in memory: its scripts wait in a room, in their order, and steps are made until those who
/// wait rest. Or the input's first fault.
///
/// `tries` says how many times in all steps are gone on with where memory runs out; 0 counts as 1.
pub fn meeting_of(alloc: Global, bytes: &[u8], tries: u64) -> Result<Meeting, MeetFault>
    ensures meeting { IfOk result (λ meeting. IsMeeting bytes.now meeting.room meeting.text.items) }
    ensures refused { IfErr result (λ fault. IsNotMet bytes.now fault) }
{
    let mut room = opened(alloc, bytes)?;
    let mut epochs = rest(alloc, &mut room, tries)?;
    close(alloc, &mut room, &mut epochs)?;
    match meeting_text(alloc, &room, epochs.as_slice()) {
        Ok(text) => Ok(Meeting { room, text }),
        Err(AllocError) => Err(MeetFault::Run(RunFault::Memory)),
    }
}

/// Writes the text of a meeting whole, and gives its room back.
fn written<W: Write>(writer: &mut Watched<W>, meeting: Meeting) -> Result<Room, WriteFault>
    requires unmarked { IsUnmarked writer.old }
    ensures room { IfOk result (λ room. room ≡ meeting.room) }
    ensures written { OnOk result
        (Appends (W.contents writer.old.inner) (W.contents writer.new.inner) meeting.text.items) }
    ensures beginning { OnErr result
        (AppendsBeginning (W.contents writer.old.inner) (W.contents writer.new.inner) meeting.text.items) }
    ensures marks { is_marked writer.new ≡ is_err result }
{
    let Meeting { room, text } = meeting;
    match write_whole(writer, text.as_slice()) {
        Ok(()) => Ok(room),
        Err(fault) => Err(fault),
    }
}

/// Reads an input whole, lets its scripts meet in a room, and writes what came of it. It gives the room back.
///
/// Reader and writer are handed in unmarked, as [`Watched::new`] makes them, so that their marks tell of this call.
/// What is written is the text of a meeting of the input that the reader had, for a reader that tells what it has and a
/// writer that tells what it holds. Where the input is refused, nothing is written, and the fault is the input's first.
pub fn meet<R: Read, W: Write>(
    alloc: Global,
    reader: &mut Watched<R>,
    writer: &mut Watched<W>,
    tries: u64,
) -> Result<Room, MeetFault>
    requires reader_unmarked { IsUnmarked reader.old }
    requires writer_unmarked { IsUnmarked writer.old }
    ensures report { IfOk result (λ room. IfSome (R.remaining reader.old.inner) (λ bytes.
        WritesMeeting bytes room (W.contents writer.old.inner) (W.contents writer.new.inner))) }
    ensures refused { IfErr result (λ fault.
        IfSome (R.remaining reader.old.inner) (λ bytes. IsNotMetInRun bytes fault)) }
    // A fault of the reader is answered exactly where that one failed; one of the writer exactly where that one failed
    // or took no byte.
    ensures reader_marks { IsReaderMarkedBy result reader.new }
    ensures writer_marks { IsWriterMarkedBy result writer.new }
    // Nothing is written but where the writer failed; then it is a beginning of the text.
    ensures silent { IfErr result (λ fault.
        IsSilent (W.contents writer.old.inner) (W.contents writer.new.inner) fault) }
    ensures beginning { IfErr result (λ fault. IfSome (R.remaining reader.old.inner) (λ bytes.
        WritesBeginning bytes (W.contents writer.old.inner) (W.contents writer.new.inner) fault)) }
{
    let bytes = read_whole(alloc, reader)?;
    let meeting = meeting_of(alloc, bytes.as_slice(), tries)?;
    match written(writer, meeting) {
        Ok(room) => Ok(room),
        Err(WriteFault) => Err(MeetFault::Run(RunFault::WriteFault)),
    }
}

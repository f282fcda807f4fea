//! A whole input arranged: bytes in, the text with its scripts in another order out.
ghost use Rattle.std.specs.Prelude.{◌≡◌, length, IfErr, IfOk, IsTrue, OnOk};
ghost use Rattle.std.specs.List.{range_with_len};
ghost use Rattle.std.specs.List.Sorted.{IsPermutation};
ghost use Rattle.ent_value.specs.Watched.{IsUnmarked};
ghost use Rattle.ent_tree.specs.declared.script.Input.{Input};
ghost use Rattle.ent_engine.specs.Io.{IsSilent, IsWriterMarkedBy};
ghost use Rattle.ent_engine.specs.Reading.{IsRefused, IsRefusedInRun};
ghost use Rattle.ent_input.specs.Reading.{IsRead};
ghost use Rattle.ent_arrange.specs.Arranged.{IsArranged, WasRead};
ghost use Rattle.ent_arrange.specs.Written.{Arranges, WritesArranged, WritesBeginning};

use crate::again::is_arranged;
use crate::cut::Cut;
use crate::order::order;
use crate::told::ArrangementSummary;
use ent_core::Core;
use ent_engine::RunFault;
use ent_fault_text::valid_text;
use ent_form::first_fault_is_first;
use ent_input::read_input;
use ent_print::{WriteFault, write_whole};
use ent_program_laws::faults_are_the_same_without_places;
use ent_tree::Input;
use ent_value::{Refusal, Watched};
use std::alloc::{AllocError, Global};
use std::io::Write;

/// Writes an input with its scripts in another order, so that scripts that may meet stand together, and tells of their
/// meetings.
///
/// What is written is an input without a fault, which has the same opening, and the same scripts in another order,
/// places aside. It is made of pieces of the text that was given. It isn't concluded from these that they are read so
/// again: it is read again and compared before it is written, and where it were another input, the text would be
/// written as it was given, which is an input with its scripts in an order too. No clause says that this never happens,
/// nor which order it is.
///
/// The writer is handed in unmarked, as [`Watched::new`] makes it. Where the bytes are no input, nothing is written,
/// and the fault is the first, as a run has it.
pub fn arrange<'a, W: Write>(
    alloc: Global,
    bytes: &'a [u8],
    writer: &mut Watched<W>,
) -> Result<ArrangementSummary<'a>, RunFault>
    requires unmarked { IsUnmarked writer.old }
    ensures written { OnOk result
        (WritesArranged bytes.now (W.contents writer.old.inner) (W.contents writer.new.inner)) }
    ensures refused { IfErr result (λ fault. IsRefusedInRun bytes.now fault) }
    ensures marks { IsWriterMarkedBy result writer.new }
    ensures silent { IfErr result (λ fault.
        IsSilent (W.contents writer.old.inner) (W.contents writer.new.inner) fault) }
    ensures beginning { IfErr result (λ fault.
        WritesBeginning bytes.now (W.contents writer.old.inner) (W.contents writer.new.inner) fault) }
{
    let Arranged { text, told } = text_and_told(alloc, bytes)?;
    match write_whole(writer, text.as_slice()) {
        Ok(()) => Ok(told),
        Err(WriteFault) => Err(RunFault::WriteFault),
    }
}

/// The text of an arranged input, and what is told of it.
#[derive(Drop)]
struct Arranged<'a> {
    text: Vec<u8>,
    told: ArrangementSummary<'a>,
}

/// The text of an input with its scripts in another order, or the input's first fault.
fn text_and_told<'a>(alloc: Global, bytes: &'a [u8]) -> Result<Arranged<'a>, RunFault>
    ensures ok { IfOk result (λ made. Arranges bytes.now made.text.items) }
    ensures err { IfErr result (λ fault. IsRefused bytes.now fault) }
{
    first_fault_is_first();
    faults_are_the_same_without_places();
    let input = read_input(alloc, bytes)?;
    let text = valid_text(bytes);
    let scripts = input.scripts.as_slice();
    let arrangement = order(alloc, scripts)?;
    let told = ArrangementSummary::of(alloc, text, scripts, &arrangement)?;
    let order = arrangement.order.as_slice();
    let arranged = in_order(alloc, &Cut::of(alloc, text)?, order)?;
    let is_right = is_right(alloc, &input, order, arranged.as_slice())?;
    Core::over(alloc, input)?;
    let text = if is_right {
        arranged
    } else {
        Vec::from_slice(alloc, bytes)?
    };
    Ok(Arranged { text, told })
}

/// The text with its scripts in this order. Each piece of it ends its line.
fn in_order(alloc: Global, cut: &Cut<'_>, order: &[usize]) -> Result<Vec<u8>, AllocError> {
    let mut text = Vec::new(alloc);
    push_lines(&mut text, cut.opening)?;
    for index in order {
        if let Some(script) = cut.scripts.get(*index) {
            push_lines(&mut text, script)?;
        }
    }
    push_lines(&mut text, cut.rest)?;
    Ok(text)
}

/// Puts lines behind a text, and an LF behind the last if it has none.
fn push_lines(text: &mut Vec<u8>, lines: &[u8]) -> Result<(), AllocError> {
    text.extend_from_slice(lines)?;
    match lines.last() {
        None | Some(b'\n') => Ok(()),
        Some(_) => Ok(text.push(b'\n')?),
    }
}

/// Whether a text is read as an input that has the scripts of this one in this order.
fn is_right(alloc: Global, input: &Input, order: &[usize], text: &[u8]) -> Result<bool, AllocError>
    requires input { WasRead input.now }
    requires order { IsPermutation (range_with_len 0 (length input.now.scripts)) order.now }
    ensures { IfOk result (λ right. IsTrue right
        → (again : Input) × IsRead text.now again × IsArranged input.now again) }
{
    match read_input(alloc, text) {
        Ok(again) => is_arranged(alloc, input, order, &again),
        Err(Refusal::Memory) => Err(AllocError),
        Err(Refusal::Fault(_)) => Ok(false),
    }
}

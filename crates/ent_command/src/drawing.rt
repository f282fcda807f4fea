//! Pictures of traces.
use crate::command::said;
use crate::ending::Ending;
use crate::plainly::said_plainly;
use crate::words::AskedPicture;
use ent_engine::{RunFault, read_whole};
use ent_fault_text::valid_text;
use ent_input::InputFault;
use ent_picture::{DrawFault, draw};
use ent_value::{Refusal, Watched};
use std::io;
use std::io::Write;

/// Draws the trace of standard input: all its lanes, or those of the transactions that are picked and of those that
/// they met. A fault is a line on standard error, and a sentence below it where that is asked for.
pub(crate) fn draw_trace<R>(rt: &R, asked: &AskedPicture) -> Ending
where
    R: AllocGlobal + Input + Print + Eprint,
{
    let ending = drawn(rt, asked);
    if !asked.is_explained {
        return said(rt, ending);
    }
    if let Ending::Undrawn(strange) = ending {
        let line = strange.line;
        let _ = eprintln!(rt;
            "line {line} can't stand there: a trace is what `entangle run --trace` writes to standard error, \
             each event and its reply"
        );
    }
    said_plainly(rt, ending)
}

/// Draws the trace of standard input. What isn't a trace, and a transaction that it hasn't, is said.
fn drawn<R>(rt: &R, asked: &AskedPicture) -> Ending
where
    R: AllocGlobal + Input + Print + Eprint,
{
    let mut reader = Watched::new(rt.reader());
    match read_whole(rt.alloc(), &mut reader) {
        Ok(input) => draw_input(rt, input.as_slice(), asked.picked.as_slice()),
        Err(fault) => Ending::Faulty(fault),
    }
}

fn draw_input<R>(rt: &R, input: &[u8], picked: &[u64]) -> Ending
where
    R: AllocGlobal + Print + Eprint,
{
    let text = valid_text(input);
    if text.len() < input.len() {
        let fault = InputFault::NotUtf8(text.len());
        return Ending::Faulty(RunFault::Input(fault));
    }
    match draw(rt.alloc(), text, picked) {
        Ok(svg) => shown(rt, svg.as_slice()),
        Err(Refusal::Memory) => Ending::Faulty(RunFault::Memory),
        Err(Refusal::Fault(DrawFault::Strange(strange))) => {
            let _ = eprintln!(rt; "{strange}");
            Ending::Undrawn(strange)
        }
        Err(Refusal::Fault(DrawFault::Absent(tx))) => {
            let _ = eprintln!(rt;
                "error: invalid value '{tx}' for '--only <N,N..>': the trace has no such transaction"
            );
            Ending::Misused
        }
    }
}

/// Writes a picture.
fn shown<R: Print + Eprint>(rt: &R, svg: &[u8]) -> Ending {
    match io::writer(rt).write_all(svg) {
        Ok(()) => Ending::Done,
        Err(_) => Ending::Faulty(RunFault::WriteFault),
    }
}

//! What is said of faults that stand at no place of a text.
use crate::command::said;
use crate::ending::Ending;
use ent_check_report::CheckFault;
use ent_engine::RunFault;
use ent_input::InputFault;

/// Says the fault with which a command ends that explains, where there is one: its line, and where it stands at no
/// place a sentence.
pub(crate) fn said_plainly<R: Eprint>(rt: &R, ending: Ending) -> Ending {
    let ending = said(rt, ending);
    if let Ending::Faulty(fault) = ending
        && let Some(sentence) = sentence_of(fault)
    {
        let _ = eprintln!(rt; "{sentence}");
    }
    ending
}

/// What is said of a fault that stands at no place; nothing of another one.
fn sentence_of(fault: RunFault) -> Option<&'static str> {
    match fault {
        RunFault::Input(InputFault::TooLong) => {
            Some("standard input has more than 16,777,216 bytes, the most of an input")
        }
        RunFault::Check(CheckFault::TooLong) => {
            Some("standard input has more than 1,099,511,627,776 bytes, the most of a report")
        }
        RunFault::ReadFault | RunFault::Check(CheckFault::ReadFault) => {
            Some("standard input can't be read to its end, so nothing is done with it")
        }
        RunFault::WriteFault => Some(
            "standard output can't be written to its end: whoever reads it has stopped, or there is no room for more",
        ),
        _ => None,
    }
}

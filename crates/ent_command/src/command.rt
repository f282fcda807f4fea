//! What the program does: it reads its command line, and runs what that asks for.
use crate::arranging::arrange_input;
use crate::drawing::draw_trace;
use crate::ending::Ending;
use crate::meeting::meet_input;
use crate::plainly::said_plainly;
use crate::running::run;
use crate::words::{Asked, asked_of, command};
use clap::Error;
use clap::error::ErrorKind;
use ent_check_report::{CheckFault, Explained, check_report, explain_text, read_text};
use ent_engine::{FaultLine, RunFault};
use ent_value::Watched;
use std::alloc::Global;
use std::env::Env;
use std::sync::Wait;
use std::thread::Threads;
use std::{env, io};

/// The program: reads its command line, and runs the scripts of standard input, lets them meet in a room or puts them
/// in another order, checks the report of standard input or draws the trace of standard input, as that asks; where it
/// asks for workers, in threads that `threads` starts. A fault is one line on standard error. How it ended says what
/// `main` ends with. Where standard input is a terminal, it says first what it waits for.
pub fn entangle<R, T>(rt: &R, threads: &T, is_terminal: bool) -> Ending
where
    R: Env + AllocGlobal + Input + Print + Eprint,
    T: Threads + Wait + Sync,
{
    let words = match words_of(rt) {
        Ok(words) => words,
        Err(ending) => return said(rt, ending),
    };
    match read_command_line(rt.alloc(), words.as_slice()) {
        Ok(Asked::Run(asked)) if asked.is_explained && asked.workers > 0 => {
            explains_no_workers(rt, asked.workers)
        }
        Ok(Asked::Run(asked)) => {
            say_what_is_read(rt, is_terminal, "tables, rows and scripts");
            run(rt, threads, asked)
        }
        Ok(Asked::Check { is_explained }) => {
            say_what_is_read(rt, is_terminal, "a report of version 2");
            let ending = checked(rt, is_explained);
            if is_explained {
                said_plainly(rt, ending)
            } else {
                said(rt, ending)
            }
        }
        Ok(
            Asked::Meet {
                tries,
                is_explained,
            },
        ) => {
            say_what_is_read(rt, is_terminal, "tables, rows and scripts");
            meet_input(rt, tries, is_explained)
        }
        Ok(Asked::Arrange) => {
            say_what_is_read(rt, is_terminal, "tables, rows and scripts");
            arrange_input(rt)
        }
        Ok(Asked::Draw(asked)) => {
            say_what_is_read(rt, is_terminal, "a trace");
            draw_trace(rt, &asked)
        }
        Err(fault) => {
            let ending = show_command_line(rt, &fault);
            if fault.kind() == ErrorKind::UnknownArgument {
                hint_at_standard_input(rt, words.as_slice());
            }
            said(rt, ending)
        }
    }
}

/// Says how a file is read, where the last word may name one: each subcommand reads standard input.
fn hint_at_standard_input<R: Eprint>(rt: &R, words: &[String]) {
    let (Some(subcommand), Some(last)) = (words.get(1), words.last()) else {
        return;
    };
    if words.len() > 2 && !last.as_str().starts_with('-') {
        let _ = eprintln!(rt; "hint: entangle {subcommand} < {last}");
    }
}

/// Says the fault with which the program ends, where there is one, in a line on standard error.
pub(crate) fn said<R: Eprint>(rt: &R, ending: Ending) -> Ending {
    if let Ending::Faulty(fault) = ending {
        let _ = eprintln!(rt; "{}", FaultLine(fault));
    }
    ending
}

/// Why transactions don't commit is told of runs on one thread: that it is asked for with workers is a fault of the
/// command line, and is said.
fn explains_no_workers<R: Eprint>(rt: &R, workers: usize) -> Ending {
    let _ = eprintln!(rt;
        "error: the argument '--explain' cannot be used with '--workers {workers}': \
         what stops transactions is told of runs on one thread"
    );
    Ending::Misused
}

/// Says at a terminal what is read from there, and how that ends.
fn say_what_is_read<R: Eprint>(rt: &R, is_terminal: bool, what: &str) {
    if is_terminal {
        let _ = eprintln!(rt; "entangle: reads {what} from the terminal, up to Ctrl-D");
    }
}

/// The words of the command line. One that isn't UTF-8 is a fault of the command line, and is said.
fn words_of<R: Env + AllocGlobal + Eprint>(rt: &R) -> Result<Vec<String>, Ending> {
    let words = env::args(rt).and_then(|words| Ok(words.collect(rt.alloc())?));
    words.map_err(|fault| {
        if fault.kind() == io::ErrorKind::OutOfMemory {
            return Ending::Faulty(RunFault::Memory);
        }
        let _ = eprintln!(rt; "error: an argument isn't UTF-8");
        Ending::Misused
    })
}

/// What the command line asks for; else its fault, or the help that it asks for.
fn read_command_line<'a>(alloc: Global, words: &'a [String]) -> Result<Asked, Error> {
    let matches = command(alloc)?.try_get_matches_from(words)?;
    Ok(asked_of(alloc, &matches)?)
}

/// Shows what is wrong with the command line, or the help that it asks for; where the help can't be written, that is a
/// fault of the writer.
fn show_command_line<R: Print + Eprint>(rt: &R, fault: &Error) -> Ending {
    if fault.kind() == ErrorKind::OutOfMemory {
        return Ending::Faulty(RunFault::Memory);
    }
    let shown = fault.print(rt);
    if fault.use_stderr() {
        Ending::Misused
    } else if shown.is_err() {
        Ending::Faulty(RunFault::WriteFault)
    } else {
        Ending::Done
    }
}

/// Checks the report of standard input, and says of it what is asked for.
fn checked<R: AllocGlobal + Input + Print + Eprint>(rt: &R, is_explained: bool) -> Ending {
    if !is_explained {
        return check(rt);
    }
    match explained(rt) {
        Ok(explained) => tell_explained(rt, explained),
        Err(fault) => Ending::Faulty(RunFault::Check(fault)),
    }
}

/// Reads the report of standard input whole, and checks it.
fn explained<R: AllocGlobal + Input>(rt: &R) -> Result<Explained, CheckFault> {
    let mut reader = Watched::new(rt.reader());
    let text = read_text(rt.alloc(), &mut reader)?;
    explain_text(rt.alloc(), text.as_slice())
}

/// Prints the verdict in a line, and says on standard error what was expected and what was found.
fn tell_explained<R: Print + Eprint>(rt: &R, explained: Explained) -> Ending {
    let Explained {
        verdict,
        explanation,
    } = explained;
    if println!(rt; "{verdict}").is_err() {
        return Ending::Faulty(RunFault::WriteFault);
    }
    if let Some(explanation) = explanation {
        let _ = eprint!(rt; "{explanation}");
    }
    Ending::from(verdict)
}

/// Checks the report of standard input, and prints the verdict in a line.
fn check<R: AllocGlobal + Input + Print>(rt: &R) -> Ending {
    let mut reader = Watched::new(rt.reader());
    let verdict = match check_report(rt.alloc(), &mut reader) {
        Ok(verdict) => verdict,
        Err(fault) => return Ending::Faulty(RunFault::Check(fault)),
    };
    match println!(rt; "{verdict}") {
        Ok(()) => Ending::from(verdict),
        Err(_) => Ending::Faulty(RunFault::WriteFault),
    }
}

//! Runs of scripts: with workers or without, with a trace, and with a word of why an input is refused, or why
//! transactions didn't commit.
use crate::command::said;
use crate::ending::Ending;
use crate::plainly::said_plainly;
use crate::tally::Tally;
use crate::words::AskedRun;
use ent_engine::{RunFault, read_whole, run_watched};
use ent_fault_text::{explain_fault, valid_text};
use ent_reasons::Reasons;
use ent_trace::{Both, Foreword, NoteTaker, Trace};
use ent_value::Watched;
use ent_warnings::Warnings;
use ent_workers::{MOST_SESSIONS, run_workers};
use std::alloc::AllocError;
use std::io::Read;
use std::sync::Wait;
use std::thread::Threads;
use std::{fmt, io};

/// Runs the scripts of standard input. A fault is a line on standard error, and an explanation below it where that is
/// asked for.
pub(crate) fn run<R, T>(rt: &R, threads: &T, asked: AskedRun) -> Ending
where
    R: AllocGlobal + Input + Print + Eprint,
    T: Threads + Wait + Sync,
{
    if asked.is_explained {
        return run_explained(rt, asked);
    }
    said(rt, Ending::from(run_over(rt, threads, rt.reader(), asked)))
}

/// Reads all of standard input and runs its scripts, so that a fault of the input can be explained, and why
/// transactions didn't commit.
fn run_explained<R>(rt: &R, asked: AskedRun) -> Ending
where
    R: AllocGlobal + Input + Print + Eprint,
{
    let mut reader = Watched::new(rt.reader());
    let input = match read_whole(rt.alloc(), &mut reader) {
        Ok(input) => input,
        Err(fault) => return said_plainly(rt, Ending::Faulty(fault)),
    };
    match run_noted(rt, input.as_slice(), asked) {
        Ok(()) => Ending::Done,
        Err(fault) => {
            let ending = said_plainly(rt, Ending::Faulty(fault));
            explain(rt, input.as_slice(), fault);
            ending
        }
    }
}

/// What is said before the scripts of an input run.
#[derive(Drop)]
enum Before<'a> {
    Warns(Warnings<'a>),
    MemoryRanOut,
}

impl<'a> Before<'a> {
    fn of<R: AllocGlobal>(rt: &R, input: &'a [u8]) -> Self {
        match Warnings::of(rt.alloc(), valid_text(input)) {
            Ok(warnings) => Before::Warns(warnings),
            Err(AllocError) => Before::MemoryRanOut,
        }
    }
}

impl fmt::Display for Before<'_> {
    fn fmt<W: fmt::Write>(&self, f: &mut fmt::Formatter<W>) -> fmt::Result {
        match self {
            Before::Warns(warnings) => write!(f, "{warnings}"),
            Before::MemoryRanOut => write!(f, "memory ran out for warnings\n"),
        }
    }
}

/// Runs the scripts of an input on one thread. Says before what can't be answered, and behind the report why
/// transactions didn't commit.
fn run_noted<R>(rt: &R, input: &[u8], asked: AskedRun) -> Result<(), RunFault>
where
    R: AllocGlobal + Print + Eprint,
{
    let mut reader = Watched::new(input);
    let mut writer = Watched::new(io::writer(rt));
    let options = asked.options;
    let foreword = Foreword::new(rt, Before::of(rt, input));
    let noting = Both {
        first: Tally::new(),
        second: NoteTaker::new(rt.alloc()),
    };
    if !asked.is_traced {
        let mut both = Both {
            first: foreword,
            second: noting,
        };
        run_watched(rt.alloc(), &mut reader, &mut writer, options, &mut both)?;
        tell_reasons(rt, input, both.second);
        return Ok(());
    }
    let mut all = Both {
        first: foreword,
        second: Both {
            first: Trace::new(rt.alloc(), rt),
            second: noting,
        },
    };
    let ran = run_watched(rt.alloc(), &mut reader, &mut writer, options, &mut all);
    let Both { first, second } = all.second;
    traced(ran, first.close())?;
    tell_reasons(rt, input, second);
    Ok(())
}

/// Says why transactions didn't commit, and whether more runs would help. Where memory runs out for that, this is what
/// is said.
fn tell_reasons<R: AllocGlobal + Eprint>(rt: &R, input: &[u8], noted: Both<Tally, NoteTaker>) {
    let Both {
        first: tally,
        second: taker,
    } = noted;
    let (notes, observations) = taker.into_parts();
    let advice = tally.advice(&notes);
    let _ = match Reasons::of(rt.alloc(), valid_text(input), notes, observations) {
        Ok(reasons) => eprint!(rt; "{reasons}"),
        Err(AllocError) => eprintln!(rt; "memory ran out for why transactions didn't commit"),
    };
    if let Some(advice) = advice {
        let _ = eprintln!(rt; "{advice}");
    }
}

/// Says of a fault of an input where it stands, what is wrong there, and what helps. Where memory runs out for that,
/// nothing is said.
pub(crate) fn explain<R: AllocGlobal + Eprint>(rt: &R, input: &[u8], fault: RunFault) {
    let RunFault::Input(fault) = fault else {
        return;
    };
    if let Ok(Some(explanation)) = explain_fault(rt.alloc(), valid_text(input), fault) {
        let _ = eprintln!(rt; "{explanation}");
    }
}

/// Runs the scripts that a reader gives.
fn run_over<R, T, I>(rt: &R, threads: &T, reader: I, asked: AskedRun) -> Result<(), RunFault>
where
    R: AllocGlobal + Print + Eprint,
    T: Threads + Wait + Sync,
    I: Read + Drop,
{
    let AskedRun {
        workers,
        is_traced,
        is_explained: _,
        options,
    } = asked;
    let mut reader = Watched::new(reader);
    let mut writer = Watched::new(io::writer(rt));
    if is_traced {
        let mut trace = Trace::new(rt.alloc(), rt);
        let ran = run_watched(rt.alloc(), &mut reader, &mut writer, options, &mut trace);
        return traced(ran, trace.close());
    }
    if workers == 0 {
        return ent_engine::run(rt.alloc(), &mut reader, &mut writer, options);
    }
    run_workers(
        threads,
        rt.alloc(),
        &mut reader,
        &mut writer,
        workers.min(MOST_SESSIONS),
        options.report,
    )
}

/// How a run ends that was traced, also where it came to a fault. Where not all of the trace could be written, this is
/// a fault of the writer, though the report was.
fn traced(ran: Result<(), RunFault>, is_whole: bool) -> Result<(), RunFault> {
    ran?;
    if is_whole {
        Ok(())
    } else {
        Err(RunFault::WriteFault)
    }
}

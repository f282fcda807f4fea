//! A trace, line by line.
ghost use Rattle.std.specs.Prelude.{◌≡◌, ◌≢◌, ◌++◌, ◌∷◌, [], None, Some, IfOk, IfErr, OnOk};
ghost use Rattle.std.specs.Str.Lines.{lines};
ghost use Rattle.ent_picture.specs.Trace.{IsWhereItFails, is_notice, lines_of, told, trace_lines};

use crate::event::event;
use crate::exchange::{Event, Exchange, Reply};
use crate::fault::StrangeLine;
use crate::reply::{is_reply_to, reply};
use crate::words::{Read, misfit};
use ent_value::Refusal;
use std::alloc::Global;

/// What begins a line that the program says beside the trace.
const NOTICE: &str = "entangle: ";

/// What was read of a trace.
#[derive(Drop)]
struct Reading {
    alloc: Global,
    exchanges: Vec<Exchange>,
    /// The event whose reply comes next.
    event: Option<Event>,
    /// How many jobs were lent.
    jobs: u64,
}

impl Reading {
    fn new(alloc: Global) -> Self
        ensures { lines_of result.exchanges.items result.event ≡ [] }
    {
        Reading {
            alloc,
            exchanges: Vec::new(alloc),
            event: None,
            jobs: 0,
        }
    }

    /// Reads one line more.
    fn take(&mut self, line: &str) -> Read<()>
        ensures ok { OnOk result (lines_of self.new.exchanges.items self.new.event
            ≡ lines_of self.old.exchanges.items self.old.event ++ (line.now ∷ [])) }
    {
        match self.event {
            None => self.take_event(line),
            Some(event) => self.take_reply(event, line),
        }
    }

    #[tactic(auto, using(crate::proofs::Lines::waits))]
    fn take_event(&mut self, line: &str) -> Read<()>
        requires { self.old.event ≡ None }
        ensures ok { OnOk result (lines_of self.new.exchanges.items self.new.event
            ≡ lines_of self.old.exchanges.items self.old.event ++ (line.now ∷ [])) }
    {
        let event = event(line)?;
        if !self.is_lent(event) {
            return misfit();
        }
        self.event = Some(event);
        Ok(())
    }

    /// Whether the job whose result an event hands in was lent.
    fn is_lent(&self, event: Event) -> bool {
        match event {
            Event::Finish(job) | Event::JoinAnswer(job) => 0 < job && job <= self.jobs,
            _ => true,
        }
    }

    #[tactic(auto, using(crate::proofs::Lines::replied))]
    fn take_reply(&mut self, event: Event, line: &str) -> Read<()>
        requires { self.old.event ≡ Some event }
        ensures ok { OnOk result (lines_of self.new.exchanges.items self.new.event
            ≡ lines_of self.old.exchanges.items self.old.event ++ (line.now ∷ [])) }
    {
        let reply = reply(self.alloc, line)?;
        if !is_reply_to(&reply, event) {
            return misfit();
        }
        if let Reply::Lent(job) = reply {
            let next = self.jobs.saturating_add(1);
            if job != next {
                return misfit();
            }
            self.jobs = next;
        }
        self.exchanges.push(Exchange { event, reply })?;
        self.event = None;
        Ok(())
    }
}

/// Whether the program says a line beside its trace.
fn is_notice(line: &str) -> bool
    ensures { result ≡ is_notice line.now }
{
    line.starts_with(NOTICE)
}

/// The events of a trace with their replies, in order; or a line that can't stand where it stands, where all before it
/// can. Lines that the program says beside its trace, which begin with its name and a colon, are passed over.
pub fn read_trace(alloc: Global, text: &str) -> Result<Vec<Exchange>, Refusal<StrangeLine>>
    ensures ok { IfOk result (λ trace. told (lines text.now) ≡ trace_lines trace.items) }
    ensures nonempty { IfOk result (λ trace. trace.items ≢ []) }
    ensures fault { IfErr result (λ refusal. IsWhereItFails (lines text.now) refusal) }
{
    let mut reading = Reading::new(alloc);
    let mut line = 0u64;
    for words in text.lines() {
        line += 1;
        if !is_notice(words) {
            match reading.take(words) {
                Ok(()) => {}
                Err(Refusal::Memory) => return Err(Refusal::Memory),
                Err(Refusal::Fault(_)) => return Err(Refusal::Fault(StrangeLine { line })),
            }
        }
    }
    let Reading {
        exchanges,
        event,
        ..
    } = reading;
    if event.is_some() || exchanges.is_empty() {
        return Err(Refusal::Fault(StrangeLine { line: line.max(1) }));
    }
    Ok(exchanges)
}

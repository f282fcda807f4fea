//! How a desk is opened, and its sessions.
ghost use Rattle.std.specs.Prelude.{◌≡◌, ◌+◌, ◌-◌, ◌<◌, ◌∷◌, [], IfErr, IfOk, OnOk, None, Some, length, replicate};
ghost use Rattle.ent_desk.specs.Opened.{first_over, first_session, other_session, tickets_from};
ghost use Rattle.ent_form.specs.InputFault.{input_fault};
ghost use Rattle.ent_form.specs.declared.fault.FormFault.{FormFault};
ghost use Rattle.ent_protocol.specs.Reached.{IsGatheredState};
ghost use Rattle.ent_core.specs.Passed.{resolved_forms};
ghost use Rattle.ent_value.specs.declared.refusal.Refusal.TheVariants.{Fault};

use crate::desk::Desk;
use crate::session::Session;
use crate::ticket::{First, Ticket};
use ent_core::Core;
use ent_form::FormFault;
use ent_stamp::{Blanks, LentStamps, Naming, Seats};
use ent_tree::{Duplicate, Input, Script};
use ent_value::Refusal;
use std::alloc::{AllocError, Global};
use std::sync::ledger::Share;

/// Tickets of scripts, by number from 1.
fn tickets_of(alloc: Global, scripts: &[Script]) -> Result<Vec<Ticket>, AllocError>
    ensures { IfOk result (λ tickets. tickets.items ≡ tickets_from 1 scripts.now) }
{
    let mut tickets = Vec::with_capacity(alloc, scripts.len())?;
    for (index, script) in scripts.iter().enumerate() {
        let script = script.copy(alloc)?;
        tickets.push(Ticket {
            tx: index as u64 + 1,
            script,
        })?;
    }
    Ok(tickets)
}

/// What a desk is opened over: a core with the scripts of an input, their tickets, and the input's opening with their
/// number.
#[derive(Drop)]
struct Opened {
    core: Core,
    tickets: Vec<Ticket>,
    first: First,
}

/// A core over an input, and the tickets of its scripts; else the input's first fault of form.
fn opened_over(alloc: Global, input: Input) -> Result<Opened, Refusal<FormFault>>
    ensures made { IfOk result (λ opened. IsGatheredState resolved_forms opened.first.count opened.core) }
    ensures counted { IfOk result (λ opened. opened.first.count ≡ length opened.core.submitted) }
    ensures committed { IfOk result (λ opened. opened.core.journal ≡ []) }
    ensures tickets { IfOk result (λ opened. opened.tickets.items ≡ tickets_from 1 input.scripts) }
    ensures held { IfOk result (λ opened. opened.first.count ≡ length opened.tickets.items) }
    ensures first { IfOk result (λ opened. opened.first ≡ first_over input.opening (length input.scripts)) }
    ensures formed { OnOk result (input_fault input.opening input.scripts ≡ None) }
    ensures fault { IfErr result (λ refusal. (fault : FormFault)
        → refusal ≡ Fault fault
        → input_fault input.opening input.scripts ≡ Some fault) }
{
    let tickets = tickets_of(alloc, input.scripts.as_slice())?;
    let first = First {
        opening: input.opening.copy(alloc)?,
        count: tickets.len(),
    };
    let core = Core::over(alloc, input)?;
    Ok(Opened {
        core,
        tickets,
        first,
    })
}

/// The first session, and as many others as make up the count.
fn seat_all<L: Naming>(
    alloc: Global,
    first: Session<L>,
    mut submitted: Share<L::Scripts>,
    mut committed: Share<L::Entries>,
    count: usize,
) -> Result<Vec<Session<L>>, AllocError>
    requires nonempty { 0 < count }
    requires submitted { (submitted.parts + 1 ≡ count) × (submitted.amount ≡ 0) }
    requires committed { (committed.parts + 1 ≡ count) × (committed.amount ≡ 0) }
    ensures { IfOk result (λ sessions. sessions.items ≡ first ∷ replicate (count - 1) other_session) }
{
    let mut sessions = Vec::new(alloc);
    sessions.push(first)?;
    for _i in 1..count {
        let mine = submitted.split_off(1, 0);
        let also = committed.split_off(1, 0);
        sessions.push(Session::new(alloc, Vec::new(alloc), None, mine, also))?;
    }
    Ok(sessions)
}

/// Opens a desk over an input: its scripts are submitted in order, and the first of so many sessions has their tickets.
/// Else the input's first fault of form. Each ledger has a part for each session.
pub fn open<L: Naming>(
    alloc: Global,
    blank: Blanks,
    input: Input,
    count: usize,
) -> Result<(Desk<L>, Vec<Session<L>>), Refusal<FormFault>>
    requires nonempty { 0 < count }
    requires names { (blank.scripts.name ≡ L.Scripts.name) × (blank.entries.name ≡ L.Entries.name)
        × (blank.jobs ≡ L.Scripts.book) }
    requires blank { (blank.scripts.parts ≡ count) × (blank.entries.parts ≡ count) }
    requires parts { (L.Scripts.parts ≡ count) × (L.Entries.parts ≡ count) }
    ensures sessions { IfOk result (λ opened. opened.1.items
        ≡ first_session input.opening input.scripts ∷ replicate (count - 1) other_session) }
    ensures formed { OnOk result (input_fault input.opening input.scripts ≡ None) }
    ensures fault { IfErr result (λ refusal. (fault : FormFault)
        → refusal ≡ Fault fault
        → input_fault input.opening input.scripts ≡ Some fault) }
{
    let Blanks {
        scripts: by_script,
        entries: by_entry,
        jobs,
    } = blank;
    let (mut script_book, mut submitted) = by_script.open::<L::Scripts>();
    let (entry_book, mut committed) = by_entry.open::<L::Entries>();
    let Opened {
        core,
        tickets,
        first,
    } = opened_over(alloc, input)?;
    let made = first.count;
    script_book.add(&mut submitted, made as u64);
    let mine = submitted.split_off(1, made as u64);
    let also = committed.split_off(1, 0);
    let session = Session::new(alloc, tickets, Some(first), mine, also);
    let sessions = seat_all(alloc, session, submitted, committed, count)?;
    let known = LentStamps::new(alloc, jobs);
    let desk = Desk::new(core, made, script_book, entry_book, known);
    Ok((desk, sessions))
}

//! A whole run in threads.
ghost use Rattle.std.specs.Prelude.{◌≡◌, ◌-◌, ◌<◌, ◌≤◌, List, ℕ, None};
ghost use Rattle.std.specs.Prelude.{Some, IfErr, IfOk, OnOk, map, slice_index_or, vec_len};
ghost use Rattle.ent_book.specs.Tables.{book_seen};
ghost use Rattle.ent_desk.specs.Closed.{IsClosedBook};
ghost use Rattle.ent_desk.specs.Passed.{IsBookOf};
ghost use Rattle.ent_desk.specs.Seen.{SessionState};
ghost use Rattle.ent_form.specs.InputFault.{input_fault};
ghost use Rattle.ent_form.specs.declared.fault.FormFault.{FormFault};
ghost use Rattle.ent_serve.specs.Seats.{KeepsSeats, SameSeats};
ghost use Rattle.ent_serve.specs.declared.fault.ServeFault.TheVariants.{Form};
ghost use Rattle.ent_serve.specs.declared.manager.TheConstants.{MOST_SESSIONS};
ghost use Rattle.ent_value.specs.declared.refusal.Refusal.TheVariants.{Fault};

use crate::fault::ServeFault;
use crate::gate::Gate;
use crate::manager::{Headway, Manager, UnclosedManager};
use ent_book::NamedTable;
use ent_desk::{BlankLog, Blanks, Both, CloseFault, Naming, Seats, Session};
use ent_form::FormFault;
use ent_semantics::Book;
use ent_tree::Input;
use ent_value::{Refusal, Sequence};
use std::alloc::{AllocError, Global};
use std::marker::Brand;
use std::sync::Wait;
use std::sync::atomic::{AtomicBool, Ordering};
use std::sync::ledger::Blank;
use std::thread;
use std::thread::Threads;

/// Works until every transaction has its fate, or somebody stops all. Workers pass a baton on, so that one makes steps
/// that are short, and the others sleep; while a job takes long another one goes on. An idle worker waits for what
/// others do.
fn work_on<L: Naming, G: Gate, R: Wait>(
    rt: &R,
    manager: &Manager<L, G>,
    stopped: &AtomicBool,
    mut session: Session<L>,
) -> Session<L>
    ensures { KeepsSeats session result }
{
    let mut had = None;
    for _ in rt.forever() {
        let baton = manager.bell.take_baton(rt, had);
        had = Some(baton);
        if stopped.load(Ordering::SeqCst) {
            break;
        }
        match manager.work(rt, &mut session) {
            Ok(Headway::Moved) => {}
            Ok(Headway::Done) => {
                manager.bell.ring_out(rt);
                break;
            }
            Ok(Headway::Idle) => manager.bell.rest(rt, baton),
            Err(AllocError) => {
                stopped.store(true, Ordering::SeqCst);
                manager.bell.ring_out(rt);
                break;
            }
        }
    }
    session
}

/// All sessions work, each in a thread of its own; where no thread can be made, its worker runs on this one. Each
/// thread is joined.
fn work_all<L: Naming + Send + Sync, G: Gate + Sync, R: Threads + Wait + Sync>(
    rt: &R,
    manager: &Manager<L, G>,
    stopped: &AtomicBool,
    sessions: Vec<Session<L>>,
) -> Result<Vec<Session<L>>, AllocError>
    ensures len { IfOk result (λ worked. vec_len worked ≡ vec_len sessions) }
    ensures each { IfOk result (λ worked. (i : ℕ) (d : SessionState) → i < vec_len sessions
        → KeepsSeats (slice_index_or sessions.items i d) (slice_index_or worked.items i d)) }
{
    let work = |session: Session<L>| -> Session<L>
        ensures { KeepsSeats session result }
    { work_on(rt, manager, stopped, session) };
    thread::map_vec(rt, sessions, &work)
}

/// One turn of the first session.
fn work_first<L: Naming, G: Gate, R: Wait>(
    rt: &R,
    manager: &Manager<L, G>,
    sessions: &mut Vec<Session<L>>,
) -> Result<Headway, AllocError>
    requires { 0 < vec_len sessions.old }
    ensures seats { SameSeats sessions.old.items sessions.new.items }
    ensures len { vec_len sessions.new ≡ vec_len sessions.old }
{
    let first = &mut sessions[0];
    manager.work(rt, first)
}

/// Why a manager couldn't be closed, as a fault of the whole run.
fn fault_of(refusal: Refusal<CloseFault>) -> Refusal<ServeFault>
    ensures { (fault : FormFault) → result ≡ Fault (Form fault) → ⊥ }
{
    match refusal {
        Refusal::Memory => Refusal::Memory,
        Refusal::Fault(_) => Refusal::Fault(ServeFault::Differs),
    }
}

/// Closes, unless something is left to be done: then the first session makes a turn, and the manager comes back.
fn close_or_work<L: Naming, G: Gate, R: Wait>(
    rt: &R,
    manager: Manager<L, G>,
    sessions: Vec<Session<L>>,
) -> Result<Result<Book<Sequence<NamedTable>>, UnclosedManager<L, G>>, Refusal<ServeFault>>
    requires ledgers { (L.Scripts.seats ≡ L.Scripts.parts) × (L.Entries.seats ≡ L.Entries.parts) }
    requires nonempty { 0 < vec_len sessions }
    ensures book { IfOk result (λ tried. IfOk tried (λ book. IsClosedBook (book_seen book) sessions.items)) }
    ensures left { IfOk result (λ tried. IfErr tried (λ left. SameSeats sessions.items left.sessions.items)) }
    ensures nonempty { IfOk result (λ tried. IfErr tried (λ left. 0 < vec_len left.sessions)) }
    ensures fault { IfErr result (λ refusal. (fault : FormFault) → refusal ≡ Fault (Form fault) → ⊥) }
{
    match manager.close(sessions) {
        Ok((book, _)) => Ok(Ok(book)),
        Err(mut left) => {
            if left.refusal != Refusal::Fault(CloseFault::NotDone) {
                return Err(fault_of(left.refusal));
            }
            work_first(rt, &left.manager, &mut left.sessions)?;
            Ok(Err(left))
        }
    }
}

/// Closes; as long as anything is left, the first session works on, and it is closed again.
fn close_all<L: Naming, G: Gate, R: Wait>(
    rt: &R,
    manager: Manager<L, G>,
    sessions: Vec<Session<L>>,
) -> Result<Book<Sequence<NamedTable>>, Refusal<ServeFault>>
    requires ledgers { (L.Scripts.seats ≡ L.Scripts.parts) × (L.Entries.seats ≡ L.Entries.parts) }
    requires nonempty { 0 < vec_len sessions }
    ensures book { IfOk result (λ book.
        (closed : List SessionState) × SameSeats sessions.items closed × IsClosedBook (book_seen book) closed) }
    ensures fault { IfErr result (λ refusal. (fault : FormFault) → refusal ≡ Fault (Form fault) → ⊥) }
{
    let (mut manager, mut sessions) = (manager, sessions);
    for _ in rt.forever() {
        match close_or_work(rt, manager, sessions)? {
            Ok(book) => return Ok(book),
            Err(left) => {
                UnclosedManager {
                    manager,
                    sessions,
                    ..
                } = left;
            }
        }
    }
    unreachable!()
}

/// Opens a manager over an input, has so many workers, 1 to [`MOST_SESSIONS`](crate::MOST_SESSIONS), work on its
/// scripts, each in a thread of its own and with a session of its own, until each has its fate, and closes it: the
/// book. Else the input's first fault of form, or E502. Where memory runs out in any of them, all is dropped. The gate
/// is called before each evaluation.
pub fn serve<L: Naming + Send + Sync, G: Gate + Sync, R: Threads + Wait + Sync>(
    rt: &R,
    alloc: Global,
    blank: Blanks,
    input: Input,
    workers: usize,
    gate: G,
) -> Result<Book<Sequence<NamedTable>>, Refusal<ServeFault>>
    requires nonempty { 0 < workers }
    requires bound { workers ≤ MOST_SESSIONS }
    requires names { (blank.scripts.name ≡ L.Scripts.name) × (blank.entries.name ≡ L.Entries.name)
        × (blank.jobs ≡ L.Scripts.book) }
    requires blank { (blank.scripts.parts ≡ workers) × (blank.entries.parts ≡ workers) }
    requires scripts { (L.Scripts.seats ≡ workers) × (L.Scripts.parts ≡ workers) }
    requires entries { (L.Entries.seats ≡ workers) × (L.Entries.parts ≡ workers) }
    ensures served { IfOk result (λ book. IsBookOf input (book_seen book)) }
    ensures formed { OnOk result (input_fault input.opening input.scripts ≡ None) }
    ensures fault { IfErr result (λ refusal. (fault : FormFault)
        → refusal ≡ Fault (Form fault)
        → input_fault input.opening input.scripts ≡ Some fault) }
{
    let (manager, sessions) = match Manager::<L, G>::open(alloc, blank, input, gate, workers) {
        Ok(opened) => opened,
        Err(Refusal::Memory) => return Err(Refusal::Memory),
        Err(Refusal::Fault(fault)) => return Err(Refusal::Fault(ServeFault::Form(fault))),
    };
    let stopped = AtomicBool::new(false);
    let worked = work_all(rt, &manager, &stopped, sessions)?;
    if stopped.load(Ordering::SeqCst) {
        return Err(Refusal::Memory);
    }
    close_all(rt, manager, worked)
}

/// [`serve`] by any two ledgers, and a log.
fn serve_by<
    S: Seats + Send + Sync,
    E: Seats + Send + Sync,
    G: Gate + Sync,
    R: Threads + Wait + Sync,
>(
    rt: &R,
    alloc: Global,
    blank: Blanks,
    input: Input,
    workers: usize,
    gate: G,
) -> Result<Book<Sequence<NamedTable>>, Refusal<ServeFault>>
    requires nonempty { 0 < workers }
    requires bound { workers ≤ MOST_SESSIONS }
    requires names { (blank.scripts.name ≡ S.name) × (blank.entries.name ≡ E.name) × (blank.jobs ≡ S.book) }
    requires blank { (blank.scripts.parts ≡ workers) × (blank.entries.parts ≡ workers) }
    requires scripts { (S.seats ≡ workers) × (S.parts ≡ workers) }
    requires entries { (E.seats ≡ workers) × (E.parts ≡ workers) }
    ensures served { IfOk result (λ book. IsBookOf input (book_seen book)) }
    ensures formed { OnOk result (input_fault input.opening input.scripts ≡ None) }
    ensures fault { IfErr result (λ refusal. (fault : FormFault)
        → refusal ≡ Fault (Form fault)
        → input_fault input.opening input.scripts ≡ Some fault) }
{
    serve::<Both<S, E>, G, R>(rt, alloc, blank, input, workers, gate)
}

/// [`serve`] for a caller who needs no session: with two ledgers and a log of its own.
pub fn serve_input<G: Gate + Sync, R: Threads + Wait + Sync>(
    rt: &R,
    alloc: Global,
    input: Input,
    workers: usize,
    gate: G,
) -> Result<Book<Sequence<NamedTable>>, Refusal<ServeFault>>
    requires nonempty { 0 < workers }
    requires bound { workers ≤ MOST_SESSIONS }
    ensures served { IfOk result (λ book. IsBookOf input (book_seen book)) }
    ensures formed { OnOk result (input_fault input.opening input.scripts ≡ None) }
    ensures fault { IfErr result (λ refusal. (fault : FormFault)
        → refusal ≡ Fault (Form fault)
        → input_fault input.opening input.scripts ≡ Some fault) }
{
    serve_by::<Brand, Brand, G, R>(
        rt,
        alloc,
        Blanks {
            scripts: Blank::new(workers as u64),
            entries: Blank::new(workers as u64),
            jobs: BlankLog::new(),
        },
        input,
        workers,
        gate,
    )
}

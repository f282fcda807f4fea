//! The scripts of an input, run by workers until each has its fate.
ghost use Rattle.std.specs.Prelude.{◌≡◌, ◌<◌, ◌≤◌, IfErr, IfOk, None, OnOk};
ghost use Rattle.ent_book.specs.Tables.{book_seen};
ghost use Rattle.ent_form.specs.InputFault.{input_fault};
ghost use Rattle.ent_serve.specs.Passed.{IsBookOf};
ghost use Rattle.ent_serve.specs.declared.manager.TheConstants.{MOST_SESSIONS};
ghost use Rattle.ent_workers.specs.Refused.{IsRefusedInThreads};

use ent_book::NamedTable;
use ent_engine::RunFault;
use ent_input::InputFault;
use ent_semantics::Book;
use ent_serve::{Open, ServeFault, serve_input};
use ent_tree::Input;
use ent_value::{Refusal, Sequence};
use std::alloc::Global;
use std::sync::Wait;
use std::thread::Threads;

/// The scripts of an input, submitted and run by so many workers until each has its fate; else the input's first fault
/// of form.
pub(crate) fn run_in_threads<T: Threads + Wait + Sync>(
    rt: &T,
    alloc: Global,
    input: Input,
    workers: usize,
) -> Result<Book<Sequence<NamedTable>>, RunFault>
    requires nonempty { 0 < workers }
    requires bound { workers ≤ MOST_SESSIONS }
    ensures book { IfOk result (λ book. IsBookOf input (book_seen book)) }
    ensures formed { OnOk result (input_fault input.opening input.scripts ≡ None) }
    ensures refused { IfErr result (λ fault. IsRefusedInThreads input fault) }
{
    match serve_input(rt, alloc, input, workers, Open) {
        Ok(book) => Ok(book),
        Err(Refusal::Memory) => Err(RunFault::Memory),
        Err(Refusal::Fault(ServeFault::Form(fault))) => Err(RunFault::Input(InputFault::Form(
            fault,
        ))),
        Err(Refusal::Fault(ServeFault::Differs)) => Err(RunFault::Differs),
    }
}

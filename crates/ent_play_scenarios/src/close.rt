//! A core is closed.
use crate::out::{Out, Stop};
use ent_book::{NamedTable, write_report};
use ent_core::{Core, NotClosed, NotDone};
use ent_semantics::Book;
use ent_value::{Refusal, Sequence, Watched};
use std::alloc::Global;

/// Closes a core, whose report is put; where it isn't done it comes back. Where memory runs out, that is a line of its
/// own, and it is closed again.
pub(crate) fn close(alloc: Global, core: Core, out: &mut Out) -> Option<Core> {
    match core.close() {
        Ok(book) => closed(alloc, book, out),
        Err(refused) => not_closed(alloc, refused, out),
    }
}

fn closed(alloc: Global, book: Book<Sequence<NamedTable>>, out: &mut Out) -> Option<Core> {
    put_report(alloc, &book, out);
    None
}

fn not_closed(alloc: Global, refused: NotClosed, out: &mut Out) -> Option<Core> {
    let NotClosed { core, refusal } = refused;
    match refusal {
        Refusal::Fault(NotDone) => {
            out.put("E405\n");
            Some(core)
        }
        Refusal::Memory => {
            out.put("E900\n");
            close_again(alloc, core, out)
        }
    }
}

fn close_again(alloc: Global, core: Core, out: &mut Out) -> Option<Core> {
    match core.close() {
        Ok(book) => closed(alloc, book, out),
        Err(refused) => {
            drop(refused);
            out.stop(Stop::Twice);
            None
        }
    }
}

/// The report of a core that is closed, behind a line.
fn put_report(alloc: Global, book: &Book<Sequence<NamedTable>>, out: &mut Out) {
    out.put("closed\n");
    let mut writer = Watched::new(Vec::new(alloc));
    match write_report(alloc, book, &mut writer) {
        Ok(()) => out.put_bytes(writer.get().as_slice()),
        Err(_) => out.stop(Stop::Memory),
    }
}

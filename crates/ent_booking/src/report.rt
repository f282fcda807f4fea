//! What the service prints: nothing that depends on the schedule.
use crate::service::CLIENTS;
use ent_book::NamedTable;
use ent_semantics::{Book, Fate};
use ent_serve::{Naming, Session};
use ent_value::{Sequence, print_row};
use std::alloc::{AllocError, Global};

/// What became of a transaction, without the numbers of a schedule.
fn word_of(fate: Option<Fate>) -> &'static str {
    match fate {
        Some(Fate::Committed { .. }) => " committed",
        Some(Fate::GaveUp { .. }) => " gave up",
        Some(Fate::RolledBack { .. }) => " rolled back",
        Some(Fate::Failed { .. }) => " failed",
        None => " nothing",
    }
}

/// The fate of a transaction in a book.
fn fate_in(book: &Book<Sequence<NamedTable>>, tx: u64) -> Option<Fate> {
    for fated in book.fates.as_slice() {
        if fated.tx == tx {
            return Some(fated.fate);
        }
    }
    None
}

/// A line for a client: what became of each of its scripts.
fn append_client<L: Naming>(
    out: &mut Vec<u8>,
    name: &str,
    book: &Book<Sequence<NamedTable>>,
    session: &Session<L>,
) -> Result<(), AllocError> {
    out.extend_from_slice(name.as_bytes())?;
    out.extend_from_slice(b":")?;
    for ticket in session.tickets() {
        out.extend_from_slice(word_of(fate_in(book, ticket.tx)).as_bytes())?;
    }
    out.extend_from_slice(b"\n")
}

/// A table: its name, and a line for each row.
fn append_table(alloc: Global, out: &mut Vec<u8>, named: &NamedTable) -> Result<(), AllocError> {
    out.extend_from_slice(named.name.as_bytes())?;
    out.extend_from_slice(b"\n")?;
    for row in &named.table.rows(alloc)? {
        out.extend_from_slice(b"  ")?;
        print_row(alloc, out, row)?;
        out.extend_from_slice(b"\n")?;
    }
    Ok(())
}

/// A line for each client, and then the tables as they stand at the end.
pub(crate) fn append_report<L: Naming>(
    alloc: Global,
    out: &mut Vec<u8>,
    book: &Book<Sequence<NamedTable>>,
    sessions: &[Session<L>],
) -> Result<(), AllocError> {
    for (place, session) in sessions.iter().enumerate() {
        if let Some((name, _, _)) = CLIENTS.get(place) {
            append_client(out, name, book, session)?;
        }
    }
    for named in book.database.as_slice() {
        append_table(alloc, out, named)?;
    }
    Ok(())
}

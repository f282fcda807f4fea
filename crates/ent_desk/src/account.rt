//! Whether the sessions hold what the core has.
ghost use Rattle.std.specs.Prelude.{◌≡◌, ◌<◌, Contains, IfSome, Some, length, map, true, suc};
ghost use Rattle.ent_desk.specs.Accounted.{HasReceipt, HaveReceipts, IsAccounted};
ghost use Rattle.ent_desk.specs.Closed.{all_receipts, all_tickets};
ghost use Rattle.ent_desk.specs.Opened.{first_over, tickets_from};
ghost use Rattle.ent_desk.specs.Receipts.{receipt};
ghost use Rattle.ent_desk.specs.Seen.{ticket};
ghost use Rattle.ent_desk.specs.Told.{fate_in};
ghost use Rattle.ent_protocol.specs.Lookup.{standing};
ghost use Rattle.ent_protocol.specs.Reached.{scripts_of};
ghost use Rattle.ent_semantics.specs.declared.book.Fate.TheVariants.{Committed};
ghost use Rattle.std.specs.List.{AllByRecursion};

use crate::session::Session;
use crate::ticket::{First, Receipt, Ticket};
use ent_core::{Core, Standing};
use ent_group::Tx;
use ent_semantics::{Entry, Fate};
use ent_stamp::Naming;
use ent_tree::{Opening, Same, Script};

/// Whether this is what a manager was opened over.
fn is_first(first: &Option<First>, opening: &Opening, count: usize) -> bool
    ensures { result ≡ true → first.now ≡ Some (first_over opening.now count) }
{
    match first {
        Some(first) => first.count == count && first.opening.is_same(opening),
        None => false,
    }
}

/// Whether one of the sessions holds this opening and this count.
pub(crate) fn have_first<L: Naming>(
    sessions: &[Session<L>],
    opening: &Opening,
    count: usize,
) -> bool
    ensures { result ≡ true
        → Contains (map (λ session. session.first) sessions.now) (Some (first_over opening.now count)) }
{
    for session in sessions {
        if session.is_first(opening, count) {
            return true;
        }
    }
    false
}

/// Whether a ticket of this script is where it is expected: tickets come by number.
fn has_ticket(tickets: &[Ticket], tx: Tx, script: &Script) -> bool
    ensures { result ≡ true → Contains tickets.now (ticket tx script.now) }
{
    let place = tickets.partition_point(|ticket| ticket.tx < tx);
    match tickets.get(place) {
        Some(ticket) => ticket.tx == tx && ticket.script.is_same(script),
        None => false,
    }
}

/// Whether a receipt of this entry is where it is expected: receipts come by number.
fn has_receipt(receipts: &[Receipt], number: u64, entry: &Entry, runs: u64) -> bool
    ensures { result ≡ true → Contains receipts.now (receipt number entry.now runs) }
{
    let place = receipts.partition_point(|receipt| receipt.number < number);
    match receipts.get(place) {
        Some(receipt) => {
            receipt.number == number
                && receipt.tx == entry.tx
                && receipt.runs == runs
                && receipt.answers.is_same(&entry.answers)
        }
        None => false,
    }
}

impl<L: Naming> Session<L> {
    fn is_first(&self, opening: &Opening, count: usize) -> bool
        ensures { result ≡ true → self.now.first ≡ Some (first_over opening.now count) }
    {
        is_first(&self.first, opening, count)
    }

    fn has_ticket(&self, tx: Tx, script: &Script) -> bool
        ensures { result ≡ true → Contains self.now.tickets (ticket tx script.now) }
    {
        has_ticket(self.tickets.as_slice(), tx, script)
    }

    fn has_receipt(&self, number: u64, entry: &Entry, runs: u64) -> bool
        ensures { result ≡ true → Contains self.now.receipts (receipt number entry.now runs) }
    {
        has_receipt(self.receipts.as_slice(), number, entry, runs)
    }
}

fn have_ticket<L: Naming>(sessions: &[Session<L>], tx: Tx, script: &Script) -> bool
    ensures { result ≡ true → Contains (all_tickets sessions.now) (ticket tx script.now) }
{
    for session in sessions {
        if session.has_ticket(tx, script) {
            return true;
        }
    }
    false
}

fn have_receipt<L: Naming>(sessions: &[Session<L>], number: u64, entry: &Entry, runs: u64) -> bool
    ensures { result ≡ true → Contains (all_receipts sessions.now) (receipt number entry.now runs) }
{
    for session in sessions {
        if session.has_receipt(number, entry, runs) {
            return true;
        }
    }
    false
}

/// In how many runs a transaction took part that committed under this number.
fn runs_told(core: &Core, tx: Tx, number: u64) -> Option<u64>
    ensures { IfSome result (λ runs. fate_in (standing core.now tx) ≡ Some (Committed number runs)) }
{
    match core.standing(tx) {
        Some(Standing::Finished(Fate::Committed { number: told, runs })) if told == number => Some(
            runs,
        ),
        _ => None,
    }
}

/// Whether one of the sessions holds the receipt of an entry.
fn is_received<L: Naming>(sessions: &[Session<L>], core: &Core, number: u64, entry: &Entry) -> bool
    ensures { result ≡ true → HasReceipt core.now (all_receipts sessions.now) number entry.now }
{
    match runs_told(core, entry.tx, number) {
        Some(runs) => have_receipt(sessions, number, entry, runs),
        None => false,
    }
}

/// Whether each script of the core has its ticket in a session.
pub(crate) fn have_tickets<L: Naming>(sessions: &[Session<L>], core: &Core) -> bool
    ensures { result ≡ true
        → AllByRecursion (Contains (all_tickets sessions.now)) (tickets_from 1 (scripts_of core.now)) }
{
    for index in 0..core.submitted() {
        let tx = index as u64 + 1;
        match core.script(tx) {
            Some(script) => {
                if !have_ticket(sessions, tx, script) {
                    return false;
                }
            }
            None => return false,
        }
    }
    true
}

/// Whether each entry of the core's journal has its receipt in a session.
pub(crate) fn have_receipts<L: Naming>(sessions: &[Session<L>], core: &Core) -> bool
    ensures { result ≡ true → HaveReceipts core.now (all_receipts sessions.now) 1 core.now.journal }
{
    let journal = core.journal();
    for index in 0..journal.len() {
        if !is_received(sessions, core, index as u64 + 1, &journal[index]) {
            return false;
        }
    }
    true
}

/// Whether the sessions hold the opening and the count, and a ticket or a receipt of all that the core has.
pub(crate) fn hold_all<L: Naming>(sessions: &[Session<L>], core: &Core, count: usize) -> bool
    ensures { result ≡ true → IsAccounted core.now count sessions.now }
{
    have_first(sessions, core.opening(), count)
        && have_tickets(sessions, core)
        && have_receipts(sessions, core)
}

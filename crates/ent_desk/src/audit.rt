//! What all sessions count is what the books count.
ghost use Rattle.std.specs.Prelude.{◌≡◌, ◌+◌, ◌<◌, length, sum_by};

use crate::session::Session;
use ent_stamp::Naming;
use std::sync::ledger::{Book, Share};

/// Lends what these sessions count, until all is lent. Then it is all that the books count.
fn audit_rest<L: Naming>(
    rest: &mut [Session<L>],
    scripts: &mut Book<L::Scripts>,
    entries: &mut Book<L::Entries>,
    submitted: &mut Share<L::Scripts>,
    committed: &mut Share<L::Entries>,
)
    requires submitted { submitted.old.parts + length rest.old ≡ L.Scripts.parts }
    requires committed { committed.old.parts + length rest.old ≡ L.Entries.parts }
    requires backed { (submitted.old.parts ≡ 0 → submitted.old.amount ≡ 0)
        × (committed.old.parts ≡ 0 → committed.old.amount ≡ 0) }
    ensures same { rest.new ≡ rest.old }
    ensures scripts { scripts.old.total ≡ submitted.old.amount + sum_by (λ session. length session.tickets) rest.old }
    ensures entries { entries.old.total ≡ committed.old.amount + sum_by (λ session. length session.receipts) rest.old }
    ensures books { (scripts.new.total ≡ scripts.old.total) × (entries.new.total ≡ entries.old.total) }
    ensures parts { (submitted.new.parts ≡ submitted.old.parts) × (committed.new.parts ≡ committed.old.parts) }
    ensures amounts { (submitted.new.amount ≡ submitted.old.amount) × (committed.new.amount ≡ committed.old.amount) }
{
    let Some((first, tail)) = rest.split_first_mut() else {
        scripts.audit(submitted);
        entries.audit(committed);
        return;
    };
    let Session {
        tickets,
        receipts,
        first: _,
        stopped: _,
        submitted: mine,
        committed: also,
    } = first;
    let made = tickets.len() as u64;
    let got = receipts.len() as u64;
    mine.give(submitted, 1, made);
    also.give(committed, 1, got);
    audit_rest(tail, scripts, entries, submitted, committed);
    submitted.give(mine, 1, made);
    committed.give(also, 1, got);
}

/// What all sessions of a manager count is what its books count.
pub(crate) fn audit_all<L: Naming>(
    sessions: &mut [Session<L>],
    scripts: &mut Book<L::Scripts>,
    entries: &mut Book<L::Entries>,
)
    requires nonempty { 0 < length sessions.old }
    requires submitted { length sessions.old ≡ L.Scripts.parts }
    requires committed { length sessions.old ≡ L.Entries.parts }
    ensures same { sessions.new ≡ sessions.old }
    ensures scripts { scripts.old.total ≡ sum_by (λ session. length session.tickets) sessions.old }
    ensures entries { entries.old.total ≡ sum_by (λ session. length session.receipts) sessions.old }
    ensures books { (scripts.new.total ≡ scripts.old.total) × (entries.new.total ≡ entries.old.total) }
{
    let first = &mut sessions[0];
    let (mut submitted, mut committed) = first.no_part();
    audit_rest(sessions, scripts, entries, &mut submitted, &mut committed);
}

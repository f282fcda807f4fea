//! The sessions of a manager hold nothing any more, and the manager goes on with them.
ghost use Rattle.std.specs.Prelude.{◌≡◌, ◌+◌, length, map, sum_by};
ghost use Rattle.ent_desk.specs.Opened.{first_over, other_session};
ghost use Rattle.ent_desk.specs.Renewed.{seated_again};
ghost use Rattle.ent_tree.specs.declared.declaration.Opening.{Opening};

use crate::session::Session;
use crate::ticket::First;
use ent_stamp::Naming;
use std::sync::ledger::Book;

/// Sessions hold nothing any more, and the books don't count what they held.
fn empty_all<L: Naming>(
    sessions: &mut [Session<L>],
    scripts: &mut Book<L::Scripts>,
    entries: &mut Book<L::Entries>,
)
    ensures sessions { sessions.new ≡ map (λ session. other_session) sessions.old }
    ensures scripts { scripts.new.total + sum_by (λ session. length session.tickets) sessions.old ≡ scripts.old.total }
    ensures entries { entries.new.total + sum_by (λ session. length session.receipts) sessions.old
        ≡ entries.old.total }
{
    let Some((first, rest)) = sessions.split_first_mut() else {
        return;
    };
    first.empty(scripts, entries);
    empty_all(rest, scripts, entries);
}

/// Sessions hold nothing any more, but the first one what a manager goes on over. The books don't count what they held.
pub(crate) fn seat_again<L: Naming>(
    sessions: &mut [Session<L>],
    first: First,
    scripts: &mut Book<L::Scripts>,
    entries: &mut Book<L::Entries>,
)
    requires { first.count ≡ 0 }
    ensures sessions { sessions.new ≡ seated_again first.opening sessions.old }
    ensures scripts { scripts.new.total + sum_by (λ session. length session.tickets) sessions.old ≡ scripts.old.total }
    ensures entries { entries.new.total + sum_by (λ session. length session.receipts) sessions.old
        ≡ entries.old.total }
{
    let Some((head, rest)) = sessions.split_first_mut() else {
        return;
    };
    head.empty(scripts, entries);
    head.keep_first(first);
    empty_all(rest, scripts, entries);
}

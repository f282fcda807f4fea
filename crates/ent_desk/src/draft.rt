//! What a receipt needs memory for, made before the commit; and the receipts, kept behind it.
ghost use Rattle.std.specs.Prelude.{◌≡◌, ◌≢◌, ◌+◌, ◌<◌, ◌≤◌, ◌^◌, ℕ, suc, IfOk, Some, drop, length, map};
ghost use Rattle.std.specs.Prelude.{slice_get, vec_capacity, vec_len};
ghost use Rattle.std.specs.List.{list_any};
ghost use Rattle.ent_core.specs.Begin.{IsFreeMember};
ghost use Rattle.ent_desk.specs.Drafts.{AreDrafted, AreDraftedFor, AreOfGroup, HaveCommitted, drafted};
ghost use Rattle.ent_desk.specs.Drafts.{draft_among, draft_now, keeps_waiting, stands_prepared};
ghost use Rattle.ent_desk.specs.Receipts.{AreReceived};
ghost use Rattle.ent_desk.specs.Told.{fate_in};
ghost use Rattle.ent_group.specs.declared.members.TheConstants.{MOST_MEMBERS};
ghost use Rattle.ent_protocol.specs.Lookup.{standing};
ghost use Rattle.ent_desk.specs.declared.draft.ReceiptDraft.{ReceiptDraft as Seen};
ghost use Rattle.ent_semantics.specs.declared.book.Fate.TheVariants.{Committed};

use crate::ticket::Receipt;
use ent_core::{Core, FreeMember, Standing, answers_copy};
use ent_group::Tx;
use ent_members::Turn;
use ent_semantics::{Answer, Entry, Fate};
use ent_value::Sequence;
use std::alloc::{AllocError, Global};

/// The answers of a member of a group that may commit.
#[derive(Drop)]
pub(crate) struct ReceiptDraft {
    tx: Tx,
    answers: Sequence<Answer>,
}

// ---- before the commit

fn is_prepared(core: &Core, tx: Tx) -> bool
    ensures { result ≡ stands_prepared (standing core.now tx) }
{
    match core.standing(tx) {
        Some(Standing::Prepared) => true,
        _ => false,
    }
}

/// Whether a transaction is another than this one, and isn't prepared.
fn keeps_waiting(core: &Core, tx: Tx, other: Tx) -> bool
    ensures { result ≡ keeps_waiting core.now tx other }
{
    other != tx && !is_prepared(core, other)
}

/// Whether one of these keeps a transaction waiting.
fn any_keeps_waiting(core: &Core, tx: Tx, group: &[Tx]) -> bool
    ensures { result ≡ list_any (keeps_waiting core.now tx) group.now }
{
    for other in group {
        if keeps_waiting(core, tx, *other) {
            return true;
        }
    }
    false
}

/// Copies of the answers of these members.
fn drafts_of(alloc: Global, core: &Core, members: &[Tx]) -> Result<Vec<ReceiptDraft>, AllocError>
    ensures { IfOk result (λ drafts. drafts.items ≡ map (draft_now core.now) members.now) }
{
    let mut drafts = Vec::with_capacity(alloc, members.len())?;
    for tx in members {
        let answers = answers_copy(alloc, core.answers(*tx))?;
        drafts.push(ReceiptDraft { tx: *tx, answers })?;
    }
    Ok(drafts)
}

/// Copies of the answers of a member's group, where all others of it are prepared; else none.
fn drafts(alloc: Global, core: &Core, tx: Tx) -> Result<Vec<ReceiptDraft>, AllocError>
    ensures { IfOk result (λ drafts. drafts.items ≡ drafted core.now tx) }
{
    let group = core.group(tx);
    let members = group.as_slice();
    if any_keeps_waiting(core, tx, members) {
        return Ok(Vec::new(alloc));
    }
    drafts_of(alloc, core, members)
}

/// The same of a free member that is at its COMMIT, where its group commits then.
pub(crate) fn drafts_for(
    alloc: Global,
    core: &Core,
    found: FreeMember,
) -> Result<Vec<ReceiptDraft>, AllocError>
    requires free { IsFreeMember core.now found }
    ensures { IfOk result (λ drafts. AreDraftedFor core.now found.tx drafts.items) }
{
    match core.next_turn(found) {
        Turn::Commit => drafts(alloc, core, found.tx()),
        Turn::Statement | Turn::Rollback => Ok(Vec::new(alloc)),
    }
}

// ---- behind the commit

/// Where the first draft of a transaction stands.
fn place_of(drafts: &[ReceiptDraft], tx: Tx) -> usize
    requires there { (draft : Seen) × (draft_among drafts.now tx ≡ Some draft) }
    ensures within { result < length drafts.now }
    ensures draft { slice_get drafts.now result ≡ draft_among drafts.now tx }
{
    for place in 0..drafts.len() {
        if drafts[place].tx == tx {
            return place;
        }
    }
    unreachable!()
}

/// Takes out the first draft of a transaction.
fn take_draft(drafts: &mut Vec<ReceiptDraft>, tx: Tx) -> ReceiptDraft
    requires there { (draft : Seen) × (draft_among drafts.old.items tx ≡ Some draft) }
    ensures taken { draft_among drafts.old.items tx ≡ Some result }
    ensures others { (other : ℕ) → other ≢ tx
        → draft_among drafts.new.items other ≡ draft_among drafts.old.items other }
{
    let place = place_of(drafts.as_slice(), tx);
    drafts.remove(place)
}

/// The fate of a transaction that is finished.
pub(crate) fn fate_of(core: &Core, tx: Tx) -> Option<Fate>
    ensures { result ≡ fate_in (standing core.now tx) }
{
    match core.standing(tx) {
        Some(Standing::Finished(fate)) => Some(fate),
        _ => None,
    }
}

/// In how many runs a transaction took part that has committed.
fn runs_of(core: &Core, tx: Tx) -> u64
    requires committed { (number : ℕ) × (runs : ℕ) × (fate_in (standing core.now tx) ≡ Some (Committed number runs)) }
    ensures { (number : ℕ) × (fate_in (standing core.now tx) ≡ Some (Committed number result)) }
{
    match fate_of(core, tx) {
        Some(Fate::Committed { number: _, runs }) => runs,
        _ => unreachable!(),
    }
}

/// Keeps a receipt of each of these entries, whose transactions have committed, the first under this number.
fn keep_each(
    core: &Core,
    receipts: &mut Vec<Receipt>,
    drafts: &mut Vec<ReceiptDraft>,
    number: u64,
    entries: &[Entry],
)
    requires bound { number + length entries.now < 2 ^ 64 }
    requires room { vec_len receipts.old + length entries.now ≤ vec_capacity receipts.old }
    requires drafted { AreDrafted drafts.old.items entries.now }
    requires committed { HaveCommitted core.now number entries.now }
    ensures counted { length receipts.new.items ≡ length receipts.old.items + length entries.now }
    ensures received { AreReceived core.now number entries.now receipts.old.items receipts.new.items }
{
    let Some((entry, more)) = entries.split_first() else {
        return;
    };
    let draft = take_draft(drafts, entry.tx);
    let runs = runs_of(core, entry.tx);
    receipts.push_reserved(Receipt {
        number,
        tx: entry.tx,
        runs,
        answers: draft.answers,
    });
    keep_each(core, receipts, drafts, number + 1, more);
}

/// Keeps a receipt of each entry of the journal behind so many, and tells how many they are. They are of a group that
/// has committed, and drafted.
pub(crate) fn keep_receipts(
    core: &Core,
    receipts: &mut Vec<Receipt>,
    before: usize,
    mut drafts: Vec<ReceiptDraft>,
) -> usize
    requires room { vec_len receipts.old + MOST_MEMBERS ≤ vec_capacity receipts.old }
    requires of_group { AreOfGroup core.now before drafts.items }
    ensures made { result ≡ length (drop before core.now.journal) }
    ensures counted { length receipts.new.items ≡ length receipts.old.items + result }
    ensures received { AreReceived core.now (suc before) (drop before core.now.journal)
        receipts.old.items receipts.new.items }
{
    let journal = core.journal();
    let _all = journal.len();
    let entries = &journal[before..];
    keep_each(core, receipts, &mut drafts, before as u64 + 1, entries);
    entries.len()
}

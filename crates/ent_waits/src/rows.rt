//! Whom each member waits for, as rows of marks.
ghost use Rattle.std.specs.Prelude.{◌≡◌, ℕ, ◌<◌, slice_index, Some, IfSome, false};
ghost use Rattle.ent_run.specs.Run.{Run as Running, with_run};
ghost use Rattle.ent_run.specs.Waits.{is_awaited, waits_by};
ghost use Rattle.ent_protocol.specs.State.{Member as Seen};
ghost use Rattle.ent_protocol.specs.Uses.{statement_uses};
ghost use Rattle.ent_waits.specs.Rows.{HasLast, HasMarksOf, IsNotPassed, IsOfChangers, IsRowOf, MarksAll, MarksGroup};
ghost use Rattle.ent_waits.specs.Rows.{MarksInConflict, MarksOne, MarksOver, StandsAt};
ghost use Rattle.ent_waits.specs.Waits.{awaits_now, nothing};

use crate::changers::{ChangersRow, row_of_changer};
use crate::waiting::is_waiting;
use ent_group::{MOST_MEMBERS, Row, Tx, with_mark};
use ent_job::Job;
use ent_members::{RunMember, SubmittedScript, Use, exclusive_table, next_form, statement_uses};
use ent_run::Run;
use ent_semantics::{Known, Statement};

/// Those of a group who ask for uses: whoever of it does, or one member only.
#[derive(Clone, Copy)]
pub(crate) struct Askers {
    pub(crate) group: Tx,
    pub(crate) only: Option<Tx>,
}

/// A row, and the label of the group that was marked in it last: those who hold a table are often of one group.
#[derive(Clone, Copy)]
pub(crate) struct MarkedGroups {
    pub(crate) row: Row,
    pub(crate) last: Option<Tx>,
}

/// Whether those who ask are one only, and it is the member of a number, whose group has the label.
fn is_only_one(askers: Askers, tx: Tx, group: Tx) -> bool
    ensures { (run : Running) (holder : Seen) → IsNotPassed run askers holder → holder.tx ≡ tx → holder.group ≡ group
        → result ≡ false }
{
    group == askers.group && askers.only == Some(tx)
}

/// A row with a mark too at the member of a number, unless it is prepared.
fn mark_one(row: Row, run: &Run, tx: Tx) -> Row
    ensures kept { HasMarksOf result row }
    ensures marked { MarksOne run.now tx result }
{
    let _most = run.active_len();
    match run.active_place(tx) {
        Some(place) => with_mark(row, place),
        None => row,
    }
}

/// A row with marks too at the members of the group with a label, save the prepared ones.
fn mark_group(row: Row, run: &Run, group: Tx) -> Row
    ensures kept { HasMarksOf result row }
    ensures marked { MarksGroup run.now group result }
{
    let mut marked = row;
    for tx in run.group_numbers(group).as_slice() {
        marked = mark_one(marked, run, *tx);
    }
    marked
}

/// Marks too at the members of the group with a label, save the prepared ones. The group that was marked last has them.
pub(crate) fn mark_next_group(marked: MarkedGroups, run: &Run, group: Tx) -> MarkedGroups
    requires { HasLast run.now marked }
    ensures kept { HasMarksOf result.row marked.row }
    ensures marked { MarksGroup run.now group result.row }
    ensures last { HasLast run.now result }
{
    if marked.last == Some(group) {
        return marked;
    }
    MarkedGroups {
        row: mark_group(marked.row, run, group),
        last: Some(group),
    }
}

/// Marks too at those for whom a member of a group waits, with the member of a number and a label blocking it.
fn mark_awaited(marked: MarkedGroups, run: &Run, own: Tx, tx: Tx, group: Tx) -> MarkedGroups
    requires { HasLast run.now marked }
    ensures kept { HasMarksOf result.row marked.row }
    ensures marked { MarksAll run.now.active (λ other. waits_by own other tx (Some group)) result.row }
    ensures last { HasLast run.now result }
{
    if group == own {
        MarkedGroups {
            row: mark_one(marked.row, run, tx),
            last: marked.last,
        }
    } else {
        mark_next_group(marked, run, group)
    }
}

/// Marks too at those for whom others wait who ask, with the member of a number blocking them; none where they pass it.
fn mark_over(marked: MarkedGroups, run: &Run, askers: Askers, tx: Tx) -> MarkedGroups
    requires { HasLast run.now marked }
    ensures kept { HasMarksOf result.row marked.row }
    ensures marked { (holder : Seen) → holder.tx ≡ tx → MarksOver run.now askers holder result.row }
    ensures last { HasLast run.now result }
{
    match run.label_of(tx) {
        Some(group) if !is_only_one(askers, tx, group) => {
            mark_awaited(marked, run, askers.group, tx, group)
        }
        _ => marked,
    }
}

/// Adds marks at the members for whom a requester of this use waits: the holders of a conflicting use.
fn mark_holders(row: Row, run: &Run, askers: Askers, asked: Use) -> Row
    ensures kept { HasMarksOf result row }
    ensures marked { MarksInConflict run.now askers asked result }
{
    let mut marked = MarkedGroups { row, last: None };
    for held in run.holders(asked.table()) {
        if held.mode.in_conflict(asked.mode()) {
            marked = mark_over(marked, run, askers, held.holder);
        }
    }
    marked.row
}

/// The row of those who ask for uses: marks at those for whom they wait.
pub(crate) fn row_of_askers(run: &Run, askers: Askers, asked: &[Use]) -> Row
    ensures { IsRowOf run.now askers asked.now result }
{
    let mut row = 0;
    for own in asked {
        row = mark_holders(row, run, askers, *own);
    }
    row
}

/// The row of a member that asks for uses: marks at those for whom it waits.
pub(crate) fn row_of(run: &Run, asker: &RunMember, asked: &[Use]) -> Row
    ensures { MarksAll run.now.active (is_awaited (with_run run.now nothing) asker.now asked.now) result }
{
    let group = asker.group();
    let only = Some(asker.tx());
    row_of_askers(run, Askers { group, only }, asked)
}

/// The row of a member that asks for the uses of a statement, which are put together.
fn row_of_uses(run: &Run, asker: &RunMember, form: &Statement<Known>) -> Row
    ensures { MarksAll run.now.active (is_awaited (with_run run.now nothing) asker.now (statement_uses form.now))
        result }
{
    row_of(run, asker, statement_uses(form).as_slice())
}

/// The row of a member that asks for the uses of a statement.
fn row_of_form(
    run: &Run,
    asker: &RunMember,
    place: usize,
    form: &Statement<Known>,
    known: &mut Option<ChangersRow>,
) -> Row
    requires within { place < MOST_MEMBERS }
    requires known { IfSome known.old (IsOfChangers run.now) }
    ensures row { MarksAll run.now.active (is_awaited (with_run run.now nothing) asker.now (statement_uses form.now))
        result }
    ensures known { IfSome known.new (IsOfChangers run.now) }
{
    match exclusive_table(form) {
        Some(table) => row_of_changer(run, asker, place, table, known),
        None => row_of_uses(run, asker, form),
    }
}

/// The row of a member, while it waits. At the end of its script it asks for nothing.
fn row_while_waiting(
    run: &Run,
    submitted: &[SubmittedScript],
    lent: &[Job],
    asker: &RunMember,
    place: usize,
    known: &mut Option<ChangersRow>,
) -> Row
    requires within { place < MOST_MEMBERS }
    requires known { IfSome known.old (IsOfChangers run.now) }
    ensures row { MarksAll run.now.active (awaits_now run.now submitted.now lent.now asker.now) result }
    ensures known { IfSome known.new (IsOfChangers run.now) }
{
    if !is_waiting(lent, asker) {
        return 0;
    }
    match next_form(submitted, asker) {
        Some(form) => row_of_form(run, asker, place, form, known),
        None => 0,
    }
}

/// The rows of all members that aren't prepared.
pub(crate) fn rows_of(run: &Run, submitted: &[SubmittedScript], lent: &[Job]) -> [Row; MOST_MEMBERS]
    ensures { (place : ℕ) (asker : Seen) → StandsAt run.now.active place asker
        → MarksAll run.now.active (awaits_now run.now submitted.now lent.now asker) (slice_index result place) }
{
    let mut rows = [0; MOST_MEMBERS];
    let mut known = None;
    for place in 0..run.active_len() {
        let asker = run.at(place);
        rows[place] = row_while_waiting(run, submitted, lent, &asker, place, &mut known);
    }
    rows
}

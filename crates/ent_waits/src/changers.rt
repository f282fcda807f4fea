//! The row that those who change one table have in common.
ghost use Rattle.std.specs.Prelude.{◌≡◌, ◌<◌, [], ◌∷◌, IfSome};
ghost use Rattle.ent_run.specs.Run.{with_run};
ghost use Rattle.ent_run.specs.Waits.{is_awaited};
ghost use Rattle.ent_protocol.specs.Uses.{exclusive};
ghost use Rattle.ent_waits.specs.Rows.{HasLast, HasMarksOf, IsOfChangers, IsOfGroup, IsRowOfAny, MarksAll};
ghost use Rattle.ent_waits.specs.Rows.{MarksGroupOf};
ghost use Rattle.ent_waits.specs.Waits.{nothing};

use crate::marks::share_mark;
use crate::rows::{Askers, MarkedGroups, mark_next_group, row_of, row_of_askers};
use ent_group::{MOST_MEMBERS, Row, Tx, with_mark};
use ent_members::{RunMember, Use};
use ent_run::Run;

/// A table, and the row of whoever changes it: marks at those for whom any such member waits, and maybe at others of
/// their groups. Beside it, if it was asked for, the row of those of one group who change the table.
#[derive(Clone, Copy)]
pub(crate) struct ChangersRow {
    table: usize,
    row: Row,
    of_group: Option<GroupRow>,
}

/// A group, and a row of marks: the members for whom its members wait that change a table, and those of the group that
/// hold the table themselves.
#[derive(Clone, Copy)]
struct GroupRow {
    group: Tx,
    row: Row,
}

/// Marks too at the members of the group of the member of a number, save the prepared ones.
fn mark_group_of(marked: MarkedGroups, run: &Run, tx: Tx) -> MarkedGroups
    requires { HasLast run.now marked }
    ensures kept { HasMarksOf result.row marked.row }
    ensures marked { MarksGroupOf run.now tx result.row }
    ensures last { HasLast run.now result }
{
    match run.label_of(tx) {
        Some(group) => mark_next_group(marked, run, group),
        None => marked,
    }
}

/// The row of whoever changes a table: whoever holds it is in conflict.
fn row_of_any(run: &Run, table: usize) -> Row
    ensures { IsRowOfAny run.now (exclusive table ∷ []) result }
{
    let mut marked = MarkedGroups { row: 0, last: None };
    for held in run.holders(table) {
        marked = mark_group_of(marked, run, held.holder);
    }
    marked.row
}

/// The row of whoever changes a table, which may be known.
fn common_row(run: &Run, table: usize, known: Option<ChangersRow>) -> ChangersRow
    requires { IfSome known (IsOfChangers run.now) }
    ensures table { result.table ≡ table }
    ensures row { IsOfChangers run.now result }
{
    match known {
        Some(common) if common.table == table => common,
        _ => ChangersRow {
            table,
            row: row_of_any(run, table),
            of_group: None,
        },
    }
}

/// The row of whoever of a group changes a table, which may be known.
fn group_row(run: &Run, table: usize, group: Tx, known: Option<GroupRow>) -> GroupRow
    requires { IfSome known (IsOfGroup run.now table) }
    ensures group { result.group ≡ group }
    ensures row { IsOfGroup run.now table result }
{
    match known {
        Some(own) if own.group == group => own,
        _ => GroupRow {
            group,
            row: row_of_askers(run, Askers { group, only: None }, &[Use::exclusive(table)]),
        },
    }
}

/// The row of a member that changes a table, where some of its own group hold the table. The row that it has in common
/// with its group is its own, but where it is marked itself: then it holds the table too, and has a row for itself.
fn row_in_group(run: &Run, asker: &RunMember, place: usize, common: &mut ChangersRow) -> Row
    requires within { place < MOST_MEMBERS }
    requires known { IsOfChangers run.now common.old }
    ensures row { MarksAll run.now.active
        (is_awaited (with_run run.now nothing) asker.now (exclusive common.old.table ∷ [])) result }
    ensures known { IsOfChangers run.now common.new }
{
    let own = group_row(run, common.table, asker.group(), common.of_group);
    common.of_group = Some(own);
    if share_mark(own.row, with_mark(0, place)) {
        row_of(run, asker, &[Use::exclusive(common.table)])
    } else {
        own.row
    }
}

/// The row of a member that changes a table, where the row that it has in common with others isn't known, or isn't its
/// own: it is its own, but where it is marked itself. Then some of its own group hold the table.
fn row_of_next_changer(
    run: &Run,
    asker: &RunMember,
    place: usize,
    table: usize,
    known: &mut Option<ChangersRow>,
) -> Row
    requires within { place < MOST_MEMBERS }
    requires known { IfSome known.old (IsOfChangers run.now) }
    ensures row { MarksAll run.now.active
        (is_awaited (with_run run.now nothing) asker.now (exclusive table ∷ [])) result }
    ensures known { IfSome known.new (IsOfChangers run.now) }
{
    let mut common = common_row(run, table, *known);
    let row = if share_mark(common.row, with_mark(0, place)) {
        row_in_group(run, asker, place, &mut common)
    } else {
        common.row
    };
    *known = Some(common);
    row
}

/// The row of a member that changes a table, which it may have in common with others.
pub(crate) fn row_of_changer(
    run: &Run,
    asker: &RunMember,
    place: usize,
    table: usize,
    known: &mut Option<ChangersRow>,
) -> Row
    requires within { place < MOST_MEMBERS }
    requires known { IfSome known.old (IsOfChangers run.now) }
    ensures row { MarksAll run.now.active
        (is_awaited (with_run run.now nothing) asker.now (exclusive table ∷ [])) result }
    ensures known { IfSome known.new (IsOfChangers run.now) }
{
    match *known {
        Some(common) if common.table == table && !share_mark(common.row, with_mark(0, place)) => {
            common.row
        }
        _ => row_of_next_changer(run, asker, place, table, known),
    }
}

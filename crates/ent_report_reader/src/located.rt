//! At which lines things stand.
ghost use Rattle.std.specs.Prelude.{◌≡◌, ◌≢◌, ◌++◌, ◌+◌, ℕ, IfNone, IfOk, IfSome, List};
ghost use Rattle.std.specs.List.{AllByRecursion};
ghost use Rattle.ent_lists.specs.Elements.{In};
ghost use Rattle.ent_book.specs.Report2.{line_count};
ghost use Rattle.ent_report_reader.specs.Located.{begun, counts_of, located_behind, members_so_far};

use crate::draft::Draft;
use crate::lists::last;
use crate::told::answers_so_far;
use ent_book::line_count;
use ent_history::{Thing, ToldJoint};
use ent_value::Sequence;
use std::alloc::AllocError;

/// A thing of a report, and the line of the text at which it stands, counted from 1.
#[derive(Clone, Copy, Debug, PartialEq, Eq)]
pub struct Located {
    pub thing: Thing,
    pub line: u64,
}

/// How many things a report tells of: of each sort, and under the last transaction and the last joint answer.
#[derive(Clone, Copy)]
pub(crate) struct Counts {
    transactions: u64,
    answers: u64,
    joints: u64,
    members: u64,
    tables: u64,
}

/// How many members the last joint answer has.
fn members_so_far(joint_answers: &[ToldJoint]) -> usize
    ensures { result ≡ members_so_far joint_answers.now }
{
    match last(joint_answers) {
        Some(joint) => joint.members.len(),
        None => 0,
    }
}

impl Draft {
    /// How many things the report tells of so far.
    pub(crate) fn counts(&self) -> Counts
        ensures { result ≡ counts_of self.now.told }
    {
        Counts {
            transactions: self.transactions.len() as u64,
            answers: answers_so_far(self.transactions.as_slice()) as u64,
            joints: self.joint_answers.len() as u64,
            members: members_so_far(self.joint_answers.as_slice()) as u64,
            tables: self.tables.len() as u64,
        }
    }
}

/// The thing that begins with a line, by what is told before it and behind it.
fn begun(before: &Counts, after: &Counts) -> Option<Thing>
    ensures { result ≡ begun before.now after.now }
{
    if before.transactions < after.transactions {
        return Some(Thing::Transaction(after.transactions));
    }
    if before.answers < after.answers {
        return Some(Thing::Answer {
            tx: after.transactions,
            place: after.answers,
        });
    }
    if before.joints < after.joints {
        return Some(Thing::Joint(after.joints));
    }
    if before.members < after.members {
        return Some(Thing::Member {
            joint: after.joints,
            member: after.members,
        });
    }
    if before.tables < after.tables {
        return Some(Thing::Table(after.tables));
    }
    None
}

/// Notes the line of the thing that begins with it, where one does.
pub(crate) fn note(
    lines: &mut Sequence<Located>,
    before: &Counts,
    after: &Counts,
    line: u64,
) -> Result<(), AllocError>
    ensures { IfOk result (λ _. lines.new ≡ located_behind lines.old (begun before.now after.now) line) }
{
    if let Some(thing) = begun(before, after) {
        lines.push(Located { thing, line })?;
    }
    Ok(())
}

/// How many lines of a text stand above what is left of it.
pub(crate) fn lines_above(text: &str, rest: &str) -> u64
    requires { (front : List ℕ) × (text.now ≡ front ++ rest.now) }
    ensures { result + line_count rest.now ≡ line_count text.now }
{
    let front = text.len() - rest.len();
    line_count(&text.as_bytes()[..front])
}

/// The line of a thing, where it is among these.
pub(crate) fn line_in(lines: &[Located], thing: Thing) -> Option<u64>
    ensures some { IfSome result (λ line. In (record { thing = thing; line = line }) lines.now) }
    ensures none { IfNone result (AllByRecursion (λ located. located.thing ≢ thing) lines.now) }
{
    for located in lines {
        if located.thing == thing {
            return Some(located.line);
        }
    }
    None
}

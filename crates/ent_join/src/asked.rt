//! What the statements of a plan ask of the values of its classes, made ready for a search.
ghost use Rattle.std.specs.Prelude.{◌≡◌, ◌++◌, [], IfOk, OnOk, map};
ghost use Rattle.std.specs.List.{AllByRecursion};
ghost use Rattle.ent_join.specs.Asked.{IsMade, all_indexes, all_tests, membership_index, slot_test};

use crate::frame::Frame;
use crate::index::Index;
use crate::keyed::{columns_of, term_slot};
use crate::made::{Made, index_for};
use ent_match::Posted;
use ent_plan::{JoinPlan, Slot};
use ent_rel::NumberedTable;
use ent_semantics::{Membership, Term};
use ent_tree::Test;
use ent_value::{Sequence, Value};
use std::alloc::{AllocError, Global};

/// The index of the values under which a tuple is a row of its sub-select's result.
fn membership_index<'a>(
    alloc: Global,
    tables: &[NumberedTable],
    tests: &[Test<Slot>],
    made: &mut Vec<Made<'a>>,
    slots: &[Slot],
    membership: &'a Membership<Value>,
) -> Result<Index, AllocError>
    requires { AllByRecursion (IsMade tables.now tests.now) made.old.items }
    ensures index { IfOk result (λ index. index
        ≡ membership_index tables.now tests.now slots.now membership.now) }
    ensures made { OnOk result
        (AllByRecursion (IsMade tables.now tests.now) made.new.items) }
{
    let columns = columns_of(alloc, slots, membership.terms.as_slice())?;
    index_for(alloc, tables, tests, made, &membership.select, columns)
}

/// Puts the indexes of a statement's tuples behind others.
fn push_indexes<'a>(
    alloc: Global,
    tables: &[NumberedTable],
    tests: &[Test<Slot>],
    made: &mut Vec<Made<'a>>,
    slots: &[Slot],
    memberships: &'a [Membership<Value>],
    indexes: &mut Vec<Index>,
) -> Result<(), AllocError>
    requires { AllByRecursion (IsMade tables.now tests.now) made.old.items }
    ensures indexes { OnOk result (indexes.new.items
        ≡ indexes.old.items
        ++ map (membership_index tables.now tests.now slots.now) memberships.now) }
    ensures made { OnOk result
        (AllByRecursion (IsMade tables.now tests.now) made.new.items) }
{
    for membership in memberships {
        let index = membership_index(alloc, tables, tests, made, slots, membership)?;
        indexes.push(index)?;
    }
    Ok(())
}

/// Puts the indexes of all tuples of statements behind others.
fn push_all_indexes<'a>(
    alloc: Global,
    tables: &[NumberedTable],
    tests: &[Test<Slot>],
    made: &mut Vec<Made<'a>>,
    members: &'a [Posted],
    slots: &[Sequence<Slot>],
    indexes: &mut Vec<Index>,
) -> Result<(), AllocError>
    requires { AllByRecursion (IsMade tables.now tests.now) made.old.items }
    ensures { OnOk result (indexes.new.items
        ≡ indexes.old.items ++ all_indexes tables.now tests.now members.now slots.now) }
{
    if let [member, members @ ..] = members {
        if let [first, slots @ ..] = slots {
            let memberships = member.statement().atoms.as_slice();
            push_indexes(
                alloc,
                tables,
                tests,
                made,
                first.as_slice(),
                memberships,
                indexes,
            )?;
            return push_all_indexes(alloc, tables, tests, made, members, slots, indexes);
        }
    }
    Ok(())
}

fn slot_test(
    alloc: Global,
    slots: &[Slot],
    test: &Test<Term<Value>>,
) -> Result<Test<Slot>, AllocError>
    ensures { IfOk result (λ made. made ≡ slot_test slots.now test.now) }
{
    Ok(Test {
        left: term_slot(alloc, slots, &test.left)?,
        comparison: test.comparison,
        right: term_slot(alloc, slots, &test.right)?,
    })
}

/// Puts the tests of a statement behind others.
fn push_tests(
    alloc: Global,
    slots: &[Slot],
    tests: &[Test<Term<Value>>],
    made: &mut Vec<Test<Slot>>,
) -> Result<(), AllocError>
    ensures { OnOk result (made.new.items ≡ made.old.items ++ map (slot_test slots.now) tests.now) }
{
    for test in tests {
        made.push(slot_test(alloc, slots, test)?)?;
    }
    Ok(())
}

/// Puts the tests of all statements behind others.
fn push_all_tests(
    alloc: Global,
    members: &[Posted],
    slots: &[Sequence<Slot>],
    made: &mut Vec<Test<Slot>>,
) -> Result<(), AllocError>
    ensures { OnOk result (made.new.items ≡ made.old.items ++ all_tests members.now slots.now) }
{
    if let [member, members @ ..] = members {
        if let [first, slots @ ..] = slots {
            let tests = member.statement().tests.as_slice();
            push_tests(alloc, first.as_slice(), tests, made)?;
            return push_all_tests(alloc, members, slots, made);
        }
    }
    Ok(())
}

/// What the statements of a plan ask over tables, which are those of [`JoinPlan::tables`], in that order.
pub(crate) fn frame_of(
    alloc: Global,
    plan: &JoinPlan,
    tables: &[NumberedTable],
) -> Result<Frame, AllocError>
    ensures indexes { IfOk result (λ frame. frame.indexes
        ≡ all_indexes tables.now (all_tests plan.now.members plan.now.slots) plan.now.members plan.now.slots) }
    ensures tests { IfOk result (λ frame. frame.tests ≡ all_tests plan.now.members plan.now.slots) }
    ensures kinds { IfOk result (λ frame. frame.kinds ≡ plan.now.kinds) }
{
    let members = plan.members();
    let slots = plan.slots();
    let mut tests = Vec::new(alloc);
    push_all_tests(alloc, members, slots, &mut tests)?;
    let mut made = Vec::new(alloc);
    let mut indexes = Vec::new(alloc);
    push_all_indexes(
        alloc,
        tables,
        tests.as_slice(),
        &mut made,
        members,
        slots,
        &mut indexes,
    )?;
    let kinds = Vec::from_slice(alloc, plan.kinds())?;
    Ok(Frame {
        indexes: Sequence::from_vec(indexes),
        tests: Sequence::from_vec(tests),
        kinds: Sequence::from_vec(kinds),
    })
}

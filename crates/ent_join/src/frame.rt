//! What a plan asks of the values of its classes.
ghost use Rattle.std.specs.Prelude.{◌≡◌, ◌≤◌, false, length, slice_get};
ghost use Rattle.std.specs.List.{list_all};
ghost use Rattle.std.specs.Option.{option_copied};
ghost use Rattle.ent_join.specs.Frame.{are_of_kinds, candidates_of, fits, lets_through, may_hold, slot_there};
ghost use Rattle.ent_join.specs.Index.{candidates_in, goes_on};
ghost use Rattle.ent_join.specs.Reason.{AreMarkedIn, IsBegun, IsFollowedFor, IsRefusedFor};
ghost use Rattle.ent_join.specs.Slots.{IsSlotMarked};

use crate::cursor::Cursor;
use crate::index::Index;
use crate::keyed::is_class;
use crate::reason::mark;
use crate::search::Guide;
use ent_ordinary::compares;
use ent_plan::Slot;
use ent_tree::Test;
use ent_value::{Kind, Sequence, Value};

/// Indexes of the results of sub-selects, and tests.
#[derive(Drop)]
pub(crate) struct Frame {
    pub(crate) indexes: Sequence<Index>,
    pub(crate) tests: Sequence<Test<Slot>>,
    /// The kinds of the classes.
    pub(crate) kinds: Sequence<Kind>,
}

impl Guide for Frame {
    ghost passes = { lets_through };

    ghost candidates = { candidates_of };

    fn may_pass(&self, values: &[Value], reason: &mut [bool]) -> bool {
        are_of_kinds(self.kinds.as_slice(), values, reason)
            && all_may_hold(self.tests.as_slice(), values, reason)
            && all_go_on(self.indexes.as_slice(), values, reason)
    }

    fn candidates_after(&self, beginning: &[Value], reason: &mut [bool]) -> Cursor<'_> {
        candidates_after(self.indexes.as_slice(), beginning, reason)
    }
}

/// The values that may come next, of the first index that has the next class. They hang on the classes of that index.
fn candidates_after<'a>(
    indexes: &'a [Index],
    beginning: &[Value],
    reason: &mut [bool],
) -> Cursor<'a>
    requires places { length beginning.now ≤ length reason.old }
    ensures candidates { result ≡ candidates_in indexes.now beginning.now }
    ensures followed { IsFollowedFor (candidates_in indexes.now) beginning.now reason.new }
{
    if let [index, indexes @ ..] = indexes {
        if let Some(column) = index.column_of(beginning.len()) {
            index.mark_classes(reason);
            return index.walk(beginning, column);
        }
        return candidates_after(indexes, beginning, reason);
    }
    Cursor::new(&[], 0)
}

/// Whether values are of the first of these kinds, where those before the last are.
fn are_of_kinds(kinds: &[Kind], values: &[Value], reason: &mut [bool]) -> bool
    requires begun { IsBegun (are_of_kinds kinds.now) values.now }
    requires places { length values.now ≤ length reason.old }
    ensures passes { result ≡ are_of_kinds kinds.now values.now }
    ensures refused { result ≡ false → IsRefusedFor (are_of_kinds kinds.now) values.now reason.new }
{
    if let Some(last) = values.len().checked_sub(1) {
        if fits(kinds, last, &values[last]) {
            return true;
        }
        mark(reason, last);
        return false;
    }
    true
}

/// Whether a value is of the kind at a place.
fn fits(kinds: &[Kind], place: usize, value: &Value) -> bool
    ensures { result ≡ fits value.now (slice_get kinds.now place) }
{
    match kinds.get(place) {
        None => false,
        Some(kind) => value.kind() == *kind,
    }
}

/// Whether there is a row with the values in each index, where there was one before the last value.
fn all_go_on(indexes: &[Index], values: &[Value], reason: &mut [bool]) -> bool
    requires begun { IsBegun (λ values. list_all (goes_on values) indexes.now) values.now }
    requires places { length values.now ≤ length reason.old }
    ensures passes { result ≡ list_all (goes_on values.now) indexes.now }
    ensures refused { result ≡ false
        → IsRefusedFor (λ values. list_all (goes_on values) indexes.now) values.now reason.new }
{
    match indexes {
        [] => true,
        [index, indexes @ ..] => {
            goes_on(index, values, reason) && all_go_on(indexes, values, reason)
        }
    }
}

/// Whether there is a row with the values, where there was one before the last of them. Only where the index has the
/// last one's class is it asked again.
fn goes_on(index: &Index, values: &[Value], reason: &mut [bool]) -> bool
    requires begun { IsBegun (λ values. goes_on values index.now) values.now }
    requires places { length values.now ≤ length reason.old }
    ensures passes { result ≡ goes_on values.now index.now }
    ensures refused { result ≡ false → IsRefusedFor (λ values. goes_on values index.now) values.now reason.new }
{
    if let Some(last) = values.len().checked_sub(1) {
        if index.column_of(last).is_none() {
            return true;
        }
    }
    if index.goes_on(values) {
        return true;
    }
    index.mark_classes(reason);
    false
}

/// Whether each test may hold, where it might before the last value.
fn all_may_hold(tests: &[Test<Slot>], values: &[Value], reason: &mut [bool]) -> bool
    requires begun { IsBegun (λ values. list_all (may_hold values) tests.now) values.now }
    requires places { length values.now ≤ length reason.old }
    ensures passes { result ≡ list_all (may_hold values.now) tests.now }
    ensures refused { result ≡ false
        → IsRefusedFor (λ values. list_all (may_hold values) tests.now) values.now reason.new }
{
    match tests {
        [] => true,
        [test, tests @ ..] => {
            still_may_hold(test, values, reason) && all_may_hold(tests, values, reason)
        }
    }
}

/// Whether a test may hold, where it might before the last value. Only where it reads the last one is it tried again.
fn still_may_hold(test: &Test<Slot>, values: &[Value], reason: &mut [bool]) -> bool
    requires begun { IsBegun (λ values. may_hold values test.now) values.now }
    requires places { length values.now ≤ length reason.old }
    ensures passes { result ≡ may_hold values.now test.now }
    ensures refused { result ≡ false → IsRefusedFor (λ values. may_hold values test.now) values.now reason.new }
{
    if let Some(last) = values.len().checked_sub(1) {
        if !is_class(&test.left, last) && !is_class(&test.right, last) {
            return true;
        }
    }
    if may_hold(values, test) {
        return true;
    }
    mark_slot(reason, &test.left);
    mark_slot(reason, &test.right);
    false
}

/// Marks the class of a slot.
fn mark_slot(reason: &mut [bool], slot: &Slot)
    ensures kept { AreMarkedIn reason.old reason.new }
    ensures marked { IsSlotMarked reason.new slot.now }
{
    match slot {
        Slot::Fixed(_) => {}
        Slot::Class(number) => mark(reason, *number),
    }
}

/// Whether a test holds, or one of its values isn't there yet.
fn may_hold(beginning: &[Value], test: &Test<Slot>) -> bool
    ensures { result ≡ may_hold beginning.now test.now }
{
    if let Some(left) = slot_there(beginning, &test.left) {
        if let Some(right) = slot_there(beginning, &test.right) {
            return compares(test.comparison, left.cmp(right));
        }
    }
    true
}

/// The value of a slot, where a beginning has it.
fn slot_there<'a>(beginning: &'a [Value], slot: &'a Slot) -> Option<&'a Value>
    ensures { option_copied result ≡ slot_there beginning.now slot.now }
{
    match slot {
        Slot::Fixed(value) => Some(value),
        Slot::Class(number) => beginning.get(*number),
    }
}

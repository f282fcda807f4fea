//! Lists that grow at their end.
ghost use Rattle.std.specs.Prelude.{◌≡◌, ◌↔◌, ◌+◌, ◌++◌, IfNone, IsTrue, length, slice_get};
ghost use Rattle.std.specs.Option.{option_copied, option_to_list};
ghost use Rattle.ent_history.specs.Draft.{last_of};
ghost use Rattle.ent_history.specs.Parts.{Ascends};

use ent_value::{Row, Sequence};
use std::alloc::Global;
use std::mem::replace;

/// Whether a number is that of the next thing behind so many.
pub(crate) fn is_next(number: u64, before: usize) -> bool
    ensures { IsTrue result ↔ (number ≡ before + 1) }
{
    number >= 1 && number - 1 == before as u64
}

pub(crate) fn last<T>(elements: &[T]) -> Option<&T>
    ensures { option_copied result ≡ last_of elements.now }
{
    elements.last()
}

pub(crate) fn at<T>(elements: &[T], index: usize) -> Option<&T>
    ensures { option_copied result ≡ slice_get elements.now index }
{
    elements.get(index)
}

/// Takes the last element out, where there is one.
pub(crate) fn take_last<T: Drop>(alloc: Global, list: &mut Sequence<T>) -> Option<T>
    ensures list { list.old ≡ list.new ++ option_to_list result }
    ensures none { IfNone result (length list.old ≡ 0) }
{
    let mut elements = replace(list, Sequence::new(alloc)).into_vec();
    let last = elements.pop();
    *list = Sequence::from_vec(elements);
    last
}

/// Whether a row comes behind these, which ascend.
pub(crate) fn is_behind(rows: &[Row], row: &Row) -> bool
    ensures { IsTrue result ↔ Ascends rows.now row.now }
{
    match last(rows) {
        Some(last) => last.cmp(row).is_lt(),
        None => true,
    }
}

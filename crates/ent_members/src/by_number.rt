//! What is kept under the numbers of transactions, from 1.
ghost use Rattle.std.specs.Prelude.{◌≡◌, ◌≤◌, is_some, length};
ghost use Rattle.std.specs.List.{list_all};
ghost use Rattle.std.specs.Option.{option_copied};
ghost use Rattle.ent_members.specs.ByNumber.{IsFilled, under};

use ent_group::Tx;

/// What stands under a number.
pub(crate) fn under<T>(slots: &[Option<T>], tx: Tx) -> Option<&T>
    ensures { option_copied result ≡ under slots.now tx }
{
    if tx == 0 {
        return None;
    }
    match slots.get((tx - 1) as usize) {
        Some(slot) => slot.as_ref(),
        None => None,
    }
}

/// Whether something stands under each of these numbers.
pub(crate) fn are_under<T>(slots: &[Option<T>], numbers: &[Tx]) -> bool
    ensures { result ≡ list_all (λ tx. is_some (under slots.now tx)) numbers.now }
{
    numbers.iter().all(|tx| under(slots, *tx).is_some())
}

/// Puts it under this number, unless something stands there.
pub(crate) fn fill<T: Copy>(slots: &mut [Option<T>], tx: Tx, value: T)
    requires first { 1 ≤ tx }
    requires last { tx ≤ length slots.old }
    ensures filled { IsFilled value tx slots.old slots.new }
    ensures same { length slots.new ≡ length slots.old }
{
    let place = (tx - 1) as usize;
    if slots[place].is_none() {
        slots[place] = Some(value);
    }
}

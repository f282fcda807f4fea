//! Elements by their numbers.
ghost use Rattle.std.specs.Prelude.{◌≡◌};
ghost use Rattle.std.specs.Option.{option_copied};
ghost use Rattle.ent_semantics.specs.Serial.{numbered};

/// The element of a number, counted from 1; none, where there are fewer, and none of number 0.
pub fn element<T>(elements: &[T], number: u64) -> Option<&T>
    ensures { option_copied result ≡ numbered elements.now number }
{
    if number == 0 {
        return None;
    }
    elements.get((number - 1) as usize)
}

//! Why values aren't bound.
use thiserror::Error;

/// Why a value can't be bound to a host variable. Each place is a byte offset from the start of the text.
#[derive(Clone, Copy, Debug, PartialEq, Eq, Error)]
pub enum ValueFault {
    /// The number is -9223372036854775808, which no script can spell.
    #[error("the number -9223372036854775808 can't be bound")]
    LeastNumber,
    /// The text has more than 255 bytes.
    #[error("a text of more than 255 bytes can't be bound")]
    TooLong,
    /// The bytes aren't UTF-8; the place is the first byte of what is ill-formed.
    #[error("what is bound isn't UTF-8 from byte {0} on")]
    NotUtf8(usize),
    /// A control character, U+0000 to U+001F or U+007F, stands in the text; the place is the first one's.
    #[error("a control character stands at byte {0} of what is bound")]
    ControlCharacter(usize),
}

/// Why variables aren't bound in a script. Each number says which one has the fault, of those that were handed in, from
/// 0.
#[derive(Clone, Copy, Debug, PartialEq, Eq, Error)]
pub enum BindingFault {
    /// Its value can't be bound. [`crate::bind`] never answers it, since a [`crate::BoundValue`] can be bound: who
    /// makes the values of a list says by it which one can't be made.
    #[error("variable {0}: {1}")]
    Value(usize, ValueFault),
    /// An earlier one has the same name.
    #[error("variable {0} is bound twice")]
    Twice(usize),
    /// The script gives it a value itself, by SET or by the AS of an entangled item.
    #[error("variable {0} is set by the script itself")]
    SetByScript(usize),
    /// The script doesn't use it.
    #[error("variable {0} isn't used by the script")]
    Unused(usize),
}

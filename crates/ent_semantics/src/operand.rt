//! What is compared, assigned and shown.
use ent_value::{Name, Value};

/// A value that is written, or the host variable of this name.
pub enum Known {
    Constant(Value),
    HostVariable(Name),
}

impl Drop for Known {
    fn drop(self) {
        match self {
            Known::Constant(_value) => {}
            Known::HostVariable(_name) => {}
        }
    }
}

/// A value that is known before any row is read, or the column of this number, counted from 0, in the row of the
/// statement's sources side by side.
pub enum Operand<K> {
    Known(K),
    Column(usize),
}

impl<K: Drop> Drop for Operand<K> {
    fn drop(self) {
        match self {
            Operand::Known(_known) => {}
            Operand::Column(_column) => {}
        }
    }
}

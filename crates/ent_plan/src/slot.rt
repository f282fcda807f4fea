//! What written variables are.
use ent_value::Value;

/// What a written variable of a statement is: a value, or the value of a class of variables, which have one value. The
/// classes are numbered from 0.
#[derive(Debug)]
pub enum Slot {
    Fixed(Value),
    Class(usize),
}

impl Drop for Slot {
    fn drop(self) {
        match self {
            Slot::Fixed(_value) => {}
            Slot::Class(_class) => {}
        }
    }
}

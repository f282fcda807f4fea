//! Why a text isn't prepared.
ghost use Rattle.std.specs.Prelude.{◌≡◌};
ghost use Rattle.ent_prepare.specs.Fault.{code_of, place_of};

use ent_bound::BindingFault;
use ent_input::InputFault;
use thiserror::Error;

/// Why a text and values that are bound are no script that can be submitted: the first fault of the text's length,
/// UTF-8, tokens and grammar, else of the values, else of the form.
#[derive(Clone, Copy, Debug, PartialEq, Eq, Error)]
pub enum PrepareFault {
    /// The text reads as no script; or the script in which the values are bound has a fault of form. The place of a
    /// value is that of the host variable to which it was bound.
    #[error("{0}")]
    Text(InputFault),
    /// A variable can't be bound in the script.
    #[error("{0}")]
    Binding(BindingFault),
}

impl PrepareFault {
    /// The fault's number, as 301, if it has one: a fault of bound values has none.
    pub fn code(self) -> Option<u16>
        ensures { result ≡ code_of self }
    {
        match self {
            PrepareFault::Text(fault) => Some(fault.code()),
            PrepareFault::Binding(_) => None,
        }
    }

    /// Where it stands in the text, in bytes from its start, if it stands anywhere.
    pub fn place(self) -> Option<usize>
        ensures { result ≡ place_of self }
    {
        match self {
            PrepareFault::Text(fault) => fault.place(),
            PrepareFault::Binding(_) => None,
        }
    }
}

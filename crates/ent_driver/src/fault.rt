//! Why a call of a driver does nothing.
ghost use Rattle.std.specs.Prelude.{◌≡◌};
ghost use Rattle.ent_driver.specs.Fault.{code_of, of_refusal, place_of, status};
ghost use Rattle.ent_driver.specs.declared.fault.DriverFault.TheVariants.{Memory};

use ent_input::InputFault;
use ent_value::Refusal;
use std::alloc::{AllocError, AllocFailed};
use thiserror::Error;

/// Why a call of a driver does nothing. Each place is a byte offset from the start of the text that was handed in.
#[derive(Clone, Copy, Debug, PartialEq, Eq, Error)]
pub enum DriverFault {
    /// The text has a fault.
    #[error("{0}")]
    Text(InputFault),
    /// Memory ran out.
    #[error("E900: out of memory")]
    Memory,
    /// Nothing is open; or, where a book is asked for, nothing is closed.
    #[error("the handle isn't of this state")]
    Vacant,
    /// No script has this number, or no table this name.
    #[error("E401: it isn't there")]
    Absent,
    /// A run is on, or a transaction waits for one.
    #[error("E405: a run is on, or a transaction waits for one")]
    NotDone,
    /// As many scripts as there may be were submitted before.
    #[error("E406: 10,000 scripts were submitted")]
    Full,
    /// More rows stand in the tables together than an opening has.
    #[error("E407: more than 65,536 rows stand in the tables together")]
    TooManyRows,
}

impl From<AllocError> for DriverFault {
    ghost from_gives = { λ _ e. e ≡ Memory };

    fn from(_: AllocError) -> Self {
        DriverFault::Memory
    }
}

impl<T: Drop> From<AllocFailed<T>> for DriverFault {
    ghost from_gives = { λ _ e. e ≡ Memory };

    fn from(_: AllocFailed<T>) -> Self {
        DriverFault::Memory
    }
}

impl From<Refusal<InputFault>> for DriverFault {
    ghost from_gives = { λ refusal e. e ≡ of_refusal refusal };

    fn from(refusal: Refusal<InputFault>) -> Self {
        match refusal {
            Refusal::Memory => DriverFault::Memory,
            Refusal::Fault(fault) => DriverFault::Text(fault),
        }
    }
}

impl DriverFault {
    /// The fault's number, as 301; 0 of a handle that isn't of the state that is asked for.
    pub fn code(self) -> u16
        ensures { result ≡ code_of self }
    {
        match self {
            DriverFault::Text(fault) => fault.code(),
            DriverFault::Memory => 900,
            DriverFault::Vacant => 0,
            DriverFault::Absent => 401,
            DriverFault::NotDone => 405,
            DriverFault::Full => 406,
            DriverFault::TooManyRows => 407,
        }
    }

    /// Where it stands in the text that was handed in, if it stands anywhere.
    pub fn place(self) -> Option<usize>
        ensures { result ≡ place_of self }
    {
        match self {
            DriverFault::Text(fault) => fault.place(),
            DriverFault::Memory
            | DriverFault::Vacant
            | DriverFault::Absent
            | DriverFault::NotDone
            | DriverFault::Full
            | DriverFault::TooManyRows => None,
        }
    }

    /// The status of a call that it ends: 2 where the handle isn't of the state that is asked for, 3 where memory ran
    /// out, else 1.
    pub fn status(self) -> u8
        ensures { result ≡ status self }
    {
        match self {
            DriverFault::Memory => 3,
            DriverFault::Vacant => 2,
            DriverFault::Text(_)
            | DriverFault::Absent
            | DriverFault::NotDone
            | DriverFault::Full
            | DriverFault::TooManyRows => 1,
        }
    }
}

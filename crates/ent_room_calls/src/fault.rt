//! Why a call of a room does nothing.
ghost use Rattle.std.specs.Prelude.{◌≡◌};
ghost use Rattle.ent_room_calls.specs.Fault.{binding_number, binding_variable, code_of, item_of, number_of, place_of};
ghost use Rattle.ent_room_calls.specs.Fault.{of_open, of_put, of_restore, of_step, of_withdraw};
ghost use Rattle.ent_room_calls.specs.Fault.{prepare_number, status, value_number};
ghost use Rattle.ent_room_calls.specs.declared.fault.RoomFault.TheVariants.{Memory as OutOfMemory};

use ent_bound::{BindingFault, ValueFault};
use ent_form::FormFault;
use ent_input::InputFault;
use ent_prepare::PrepareFault;
use ent_room::{NotOpened, NotPut, NotPutBack, NotStepped};
use ent_value::Refusal;
use ent_waiting::{NotRestored, NotWithdrawn};
use std::alloc::{AllocError, AllocFailed};
use thiserror::Error;

/// Why a call of a room does nothing. Each place is a byte offset from the start of the text that was handed in.
#[derive(Clone, Copy, Debug, PartialEq, Eq, Error)]
pub enum RoomFault {
    /// Memory ran out.
    #[error("E900: out of memory")]
    Memory,
    /// The text of an input has a fault.
    #[error("{0}")]
    Input(InputFault),
    /// The text of a script has a fault, or a variable can't be bound in it.
    #[error("{0}")]
    Faulty(PrepareFault),
    /// As many scripts wait as there may be.
    #[error("as many scripts wait as there may be")]
    Full,
    /// A value can't be bound.
    #[error("{0}")]
    Value(ValueFault),
    /// These bytes are no name of a host variable, or of a table.
    #[error("this is no name")]
    NoName,
    /// The ticket isn't of an earlier process, or one that is no less came in before.
    #[error("the ticket can't come in again")]
    Used,
    /// No script waits under the ticket, or no table has the name.
    #[error("E401: it isn't there")]
    Absent,
    /// A batch is on.
    #[error("a batch is on")]
    Busy,
    /// The tables have more rows together than an opening has: those that aren't drained, or the rows of an input with
    /// those that are given.
    #[error("E407: more than 65,536 rows stand in the tables together")]
    TooManyRows,
    /// The epoch, or the next group, has the greatest number that there is.
    #[error("the epoch, or the next group, has the greatest number that there is")]
    NoNumber,
    /// A given row doesn't fit: it names no table, or has another number of values than its table has columns, or a
    /// value of another kind. The place of the fault is the number of the row, from 0.
    #[error("a given row doesn't fit: {0}")]
    NotARow(FormFault),
    /// A given row has as many values as a table has columns at most.
    #[error("a row has no more values than this one has already")]
    TooManyValues,
}

impl From<AllocError> for RoomFault {
    ghost from_gives = { λ _ e. e ≡ OutOfMemory };

    fn from(_: AllocError) -> Self {
        RoomFault::Memory
    }
}

impl<T: Drop> From<AllocFailed<T>> for RoomFault {
    ghost from_gives = { λ _ e. e ≡ OutOfMemory };

    fn from(_: AllocFailed<T>) -> Self {
        RoomFault::Memory
    }
}

impl From<Refusal<NotOpened>> for RoomFault {
    ghost from_gives = { λ refusal e. e ≡ of_open refusal };

    fn from(refusal: Refusal<NotOpened>) -> Self {
        match refusal {
            Refusal::Memory => RoomFault::Memory,
            Refusal::Fault(NotOpened::Full) => RoomFault::Full,
            Refusal::Fault(NotOpened::Faulty(fault)) => RoomFault::Input(fault),
            Refusal::Fault(NotOpened::TooManyRows) => RoomFault::TooManyRows,
            Refusal::Fault(NotOpened::NotARow(fault)) => RoomFault::NotARow(fault),
        }
    }
}

impl From<Refusal<NotPut>> for RoomFault {
    ghost from_gives = { λ refusal e. e ≡ of_put refusal };

    fn from(refusal: Refusal<NotPut>) -> Self {
        match refusal {
            Refusal::Memory => RoomFault::Memory,
            Refusal::Fault(NotPut::Full) => RoomFault::Full,
            Refusal::Fault(NotPut::Faulty(fault)) => RoomFault::Faulty(fault),
        }
    }
}

impl From<Refusal<NotPutBack>> for RoomFault {
    ghost from_gives = { λ refusal e. e ≡ of_restore refusal };

    fn from(refusal: Refusal<NotPutBack>) -> Self {
        match refusal {
            Refusal::Memory => RoomFault::Memory,
            Refusal::Fault(NotPutBack::Refused(NotRestored::Used)) => RoomFault::Used,
            Refusal::Fault(NotPutBack::Refused(NotRestored::NoRoom)) => RoomFault::Full,
            Refusal::Fault(NotPutBack::Faulty(fault)) => RoomFault::Faulty(fault),
        }
    }
}

impl From<Refusal<NotWithdrawn>> for RoomFault {
    ghost from_gives = { λ refusal e. e ≡ of_withdraw refusal };

    fn from(refusal: Refusal<NotWithdrawn>) -> Self {
        match refusal {
            Refusal::Memory => RoomFault::Memory,
            Refusal::Fault(NotWithdrawn::Absent) => RoomFault::Absent,
            Refusal::Fault(NotWithdrawn::InBatch) => RoomFault::Busy,
        }
    }
}

impl From<Refusal<NotStepped>> for RoomFault {
    ghost from_gives = { λ refusal e. e ≡ of_step refusal };

    fn from(refusal: Refusal<NotStepped>) -> Self {
        match refusal {
            Refusal::Memory => RoomFault::Memory,
            Refusal::Fault(NotStepped::TooManyRows) => RoomFault::TooManyRows,
            Refusal::Fault(NotStepped::NoNumber) => RoomFault::NoNumber,
        }
    }
}

/// The number of a value's fault.
fn value_number(fault: ValueFault) -> u32
    ensures { result ≡ value_number fault }
{
    match fault {
        ValueFault::LeastNumber => 3,
        ValueFault::TooLong => 4,
        ValueFault::NotUtf8(_) => 5,
        ValueFault::ControlCharacter(_) => 6,
    }
}

/// The number of a variable's fault.
fn binding_number(fault: BindingFault) -> u32
    ensures { result ≡ binding_number fault }
{
    match fault {
        BindingFault::Value(_, fault) => value_number(fault),
        BindingFault::Twice(_) => 7,
        BindingFault::SetByScript(_) => 8,
        BindingFault::Unused(_) => 9,
    }
}

/// The number of the refusal of a script's text, or of the values that should be bound in it.
fn prepare_number(fault: PrepareFault) -> u32
    ensures { result ≡ prepare_number fault }
{
    match fault {
        PrepareFault::Text(_) => 1,
        PrepareFault::Binding(fault) => binding_number(fault),
    }
}

/// Which variable has a fault.
pub(crate) fn variable_of(fault: BindingFault) -> usize
    ensures { result ≡ binding_variable fault }
{
    match fault {
        BindingFault::Value(number, _)
        | BindingFault::Twice(number)
        | BindingFault::SetByScript(number)
        | BindingFault::Unused(number) => number,
    }
}

impl RoomFault {
    /// The number of the refusal, from 1; 0 where memory ran out. C names them.
    pub fn number(self) -> u32
        ensures { result ≡ number_of self }
    {
        match self {
            RoomFault::Memory => 0,
            RoomFault::Input(_) => 1,
            RoomFault::Faulty(fault) => prepare_number(fault),
            RoomFault::Full => 2,
            RoomFault::Value(fault) => value_number(fault),
            RoomFault::NoName => 10,
            RoomFault::Used => 11,
            RoomFault::Absent => 12,
            RoomFault::Busy => 13,
            RoomFault::TooManyRows => 14,
            RoomFault::NoNumber => 15,
            RoomFault::NotARow(_) => 16,
            RoomFault::TooManyValues => 17,
        }
    }

    /// The fault's number, as 301; 0 where it has none.
    pub fn code(self) -> u16
        ensures { result ≡ code_of self }
    {
        match self {
            RoomFault::Memory => 900,
            RoomFault::Input(fault) => fault.code(),
            RoomFault::Faulty(fault) => match fault.code() {
                Some(code) => code,
                None => 0,
            },
            RoomFault::Absent => 401,
            RoomFault::TooManyRows => 407,
            RoomFault::NotARow(fault) => fault.code(),
            RoomFault::Full
            | RoomFault::Value(_)
            | RoomFault::NoName
            | RoomFault::Used
            | RoomFault::Busy
            | RoomFault::NoNumber
            | RoomFault::TooManyValues => 0,
        }
    }

    /// Where it stands in the text that was handed in, if it stands anywhere.
    pub fn place(self) -> Option<usize>
        ensures { result ≡ place_of self }
    {
        match self {
            RoomFault::Input(fault) => fault.place(),
            RoomFault::Faulty(fault) => fault.place(),
            _ => None,
        }
    }

    /// Which variable can't be bound in a script, or which given row doesn't fit, from 0, where that is the fault.
    pub fn item(self) -> Option<usize>
        ensures { result ≡ item_of self }
    {
        match self {
            RoomFault::Faulty(PrepareFault::Binding(fault)) => Some(variable_of(fault)),
            RoomFault::NotARow(fault) => Some(fault.place()),
            _ => None,
        }
    }

    /// The status of a call that it ends: 3 where memory ran out, else 1.
    pub fn status(self) -> u8
        ensures { result ≡ status self }
    {
        match self {
            RoomFault::Memory => 3,
            _ => 1,
        }
    }
}

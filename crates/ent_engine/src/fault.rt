//! Why a run of the program gives no report.
ghost use Rattle.std.specs.Prelude.{◌≡◌, Some};
ghost use Rattle.ent_engine.specs.Fault.{code_of, line_text, of_form, of_refusal, place_of, status};
ghost use Rattle.ent_engine.specs.declared.fault.RunFault.TheVariants.{Memory};

use ent_check_report::CheckFault;
use ent_form::FormFault;
use ent_input::InputFault;
use ent_value::Refusal;
use std::alloc::{AllocError, AllocFailed};
use std::fmt;
use thiserror::Error;

/// Why there is no report.
#[derive(Clone, Copy, Debug, PartialEq, Eq, Error)]
pub enum RunFault {
    /// The input has a fault. Its place is a byte offset from the input's start.
    #[error("{0}")]
    Input(InputFault),
    /// A report can't be checked.
    #[error("{0}")]
    Check(CheckFault),
    /// Sessions and core of a run with workers differ.
    #[error("E502: what the sessions hold isn't what the core has")]
    Differs,
    /// The reader failed.
    #[error("E601: the input can't be read")]
    ReadFault,
    /// The writer failed, or took no byte.
    #[error("E602: the report can't be written")]
    WriteFault,
    /// Out of memory.
    #[error("E900: out of memory")]
    Memory,
}

impl From<AllocError> for RunFault {
    ghost from_gives = { λ _ e. e ≡ Memory };

    fn from(_: AllocError) -> Self {
        RunFault::Memory
    }
}

impl<T: Drop> From<AllocFailed<T>> for RunFault {
    ghost from_gives = { λ _ e. e ≡ Memory };

    fn from(_: AllocFailed<T>) -> Self {
        RunFault::Memory
    }
}

impl From<Refusal<InputFault>> for RunFault {
    ghost from_gives = { λ refusal e. e ≡ of_refusal refusal };

    fn from(refusal: Refusal<InputFault>) -> Self {
        match refusal {
            Refusal::Memory => RunFault::Memory,
            Refusal::Fault(fault) => RunFault::Input(fault),
        }
    }
}

impl From<Refusal<FormFault>> for RunFault {
    ghost from_gives = { λ refusal e. e ≡ of_form refusal };

    fn from(refusal: Refusal<FormFault>) -> Self {
        match refusal {
            Refusal::Memory => RunFault::Memory,
            Refusal::Fault(fault) => RunFault::Input(InputFault::Form(fault)),
        }
    }
}

impl RunFault {
    /// The fault's number, as 301.
    pub fn code(self) -> u16
        ensures { result ≡ code_of self }
    {
        match self {
            RunFault::Input(fault) => fault.code(),
            RunFault::Check(fault) => fault.code(),
            RunFault::Differs => 502,
            RunFault::ReadFault => 601,
            RunFault::WriteFault => 602,
            RunFault::Memory => 900,
        }
    }

    /// Where it stands in the input, if it stands anywhere.
    pub fn place(self) -> Option<usize>
        ensures { result ≡ place_of self }
    {
        match self {
            RunFault::Input(fault) => fault.place(),
            RunFault::Check(_)
            | RunFault::Differs
            | RunFault::ReadFault
            | RunFault::WriteFault
            | RunFault::Memory => None,
        }
    }
}

/// The program's exit status after a fault: 1 where the input or the report is refused, 3 where memory ran out, or
/// sessions and core differ, 4 where the reader or the writer failed.
pub fn status_of(fault: &RunFault) -> u8
    ensures { result ≡ status fault.now }
{
    match fault {
        RunFault::Input(_) => 1,
        RunFault::Check(fault) => ent_check_report::status_of(fault),
        RunFault::Memory | RunFault::Differs => 3,
        RunFault::ReadFault | RunFault::WriteFault => 4,
    }
}

/// The line that names a fault, without its end: `E302 at 26`, or `E900` where the fault has no place.
#[derive(Clone, Copy, Debug)]
pub struct FaultLine(pub RunFault);

impl fmt::Display for FaultLine {
    ghost output = { λ line. Some (line_text line.0) };

    fn fmt<W: fmt::Write>(&self, f: &mut fmt::Formatter<W>) -> fmt::Result {
        let code = self.0.code();
        match self.0.place() {
            Some(place) => write!(f, "E{code} at {place}"),
            None => write!(f, "E{code}"),
        }
    }
}

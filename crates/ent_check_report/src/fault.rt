//! Why a check gives no verdict.
ghost use Rattle.std.specs.Prelude.{◌≡◌};
ghost use Rattle.ent_check_report.specs.Fault.{code_of, status};
ghost use Rattle.ent_check_report.specs.declared.fault.CheckFault.TheVariants.{Memory};

use std::alloc::AllocError;
use thiserror::Error;

/// Why there is no verdict on a report.
#[derive(Clone, Copy, Debug, PartialEq, Eq, Error)]
pub enum CheckFault {
    /// The reader failed.
    #[error("E601: the report can't be read")]
    ReadFault,
    /// The report has more bytes than [`crate::MOST_REPORT_BYTES`].
    #[error("E603: the report is too long")]
    TooLong,
    /// Out of memory.
    #[error("E900: out of memory")]
    Memory,
}

impl From<AllocError> for CheckFault {
    ghost from_gives = { λ _ e. e ≡ Memory };

    fn from(_: AllocError) -> Self {
        CheckFault::Memory
    }
}

impl CheckFault {
    /// The fault's number, as 603.
    pub fn code(self) -> u16
        ensures { result ≡ code_of self }
    {
        match self {
            CheckFault::ReadFault => 601,
            CheckFault::TooLong => 603,
            CheckFault::Memory => 900,
        }
    }
}

/// The program's exit status after a fault: 1 where the report is refused, 3 where memory ran out, 4 where the reader
/// failed.
pub fn status_of(fault: &CheckFault) -> u8
    ensures { result ≡ status fault.now }
{
    match fault {
        CheckFault::TooLong => 1,
        CheckFault::Memory => 3,
        CheckFault::ReadFault => 4,
    }
}

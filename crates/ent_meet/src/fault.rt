//! Why a meeting gives no report.
ghost use Rattle.std.specs.Prelude.{◌≡◌};
ghost use Rattle.ent_engine.specs.Fault.{of_refusal};
ghost use Rattle.ent_engine.specs.declared.fault.RunFault.TheVariants.{Memory};
ghost use Rattle.ent_meet.specs.declared.fault.MeetFault.TheVariants.{Run};

use ent_engine::RunFault;
use ent_input::InputFault;
use ent_value::Refusal;
use std::alloc::{AllocError, AllocFailed};
use thiserror::Error;

/// Why there is no report.
#[derive(Clone, Copy, Debug, PartialEq, Eq, Error)]
pub enum MeetFault {
    /// As a run has it. `Differs` says that a script, printed, is longer than an input may be, that a step ended more
    /// than one epoch, or that no number is left for a group.
    #[error("{0}")]
    Run(RunFault),
    /// At the end of an epoch the tables have more rows together than an opening has.
    #[error("E407: more than 65,536 rows stand in the tables together")]
    TooManyRows,
}

impl From<AllocError> for MeetFault {
    ghost from_gives = { λ _ e. e ≡ Run Memory };

    fn from(_: AllocError) -> Self {
        MeetFault::Run(RunFault::Memory)
    }
}

impl<T: Drop> From<AllocFailed<T>> for MeetFault {
    ghost from_gives = { λ _ e. e ≡ Run Memory };

    fn from(_: AllocFailed<T>) -> Self {
        MeetFault::Run(RunFault::Memory)
    }
}

impl From<RunFault> for MeetFault {
    ghost from_gives = { λ fault e. e ≡ Run fault };

    fn from(fault: RunFault) -> Self {
        MeetFault::Run(fault)
    }
}

impl From<Refusal<InputFault>> for MeetFault {
    ghost from_gives = { λ refusal e. e ≡ Run (of_refusal refusal) };

    fn from(refusal: Refusal<InputFault>) -> Self {
        match refusal {
            Refusal::Memory => MeetFault::Run(RunFault::Memory),
            Refusal::Fault(fault) => MeetFault::Run(RunFault::Input(fault)),
        }
    }
}

//! How a command ends.
ghost use Rattle.std.specs.Prelude.{◌≡◌};
ghost use Rattle.std.specs.Process.{exit_status};
ghost use Rattle.ent_command.specs.Ending.{status_of};

use ent_check_report::Verdict;
use ent_engine::{RunFault, status_of};
use ent_picture::StrangeLine;
use std::process::ExitCode;

/// How a command ended.
#[derive(Clone, Copy, Debug, PartialEq, Eq)]
pub enum Ending {
    /// The report was written, it was checked and is right, or the help was shown.
    Done,
    /// The report was checked and isn't right.
    Refused,
    /// The command line has a fault.
    Misused,
    /// The run or the check has a fault.
    Faulty(RunFault),
    /// What is to be drawn isn't a trace.
    Undrawn(StrangeLine),
    /// At the end of an epoch the tables have more rows together than an opening has.
    Overfull,
}

impl Ending {
    /// The program's exit status: 0 where all was done, 1 where a report isn't right, 2 where the command line has a
    /// fault; else the fault's own: 1 where the input, the report or the trace is refused, or the tables are overfull,
    /// 3 where memory ran out, 4 where the reader or the writer failed.
    pub fn status(self) -> u8
        ensures { result ≡ status_of self }
    {
        match self {
            Ending::Done => 0,
            Ending::Refused => 1,
            Ending::Misused => 2,
            Ending::Faulty(fault) => status_of(&fault),
            Ending::Undrawn(_) | Ending::Overfull => 1,
        }
    }

    /// What `main` ends with.
    pub fn exit_code(self) -> ExitCode
        ensures { exit_status result ≡ status_of self }
    {
        ExitCode::from(self.status())
    }
}

/// How a run that ended so lets the command end.
impl From<Result<(), RunFault>> for Ending {
    ghost use Rattle.ent_command.specs.Ending.{ending_of};
    ghost use Rattle.std.specs.Prelude.{◌≡◌};

    ghost from_gives = { λ ran ending. ending ≡ ending_of ran };

    fn from(ran: Result<(), RunFault>) -> Self {
        match ran {
            Ok(()) => Ending::Done,
            Err(fault) => Ending::Faulty(fault),
        }
    }
}

/// How a check that answered so lets the command end.
impl From<Verdict> for Ending {
    ghost use Rattle.ent_command.specs.Ending.{ending_after};
    ghost use Rattle.std.specs.Prelude.{◌≡◌};

    ghost from_gives = { λ verdict ending. ending ≡ ending_after verdict };

    fn from(verdict: Verdict) -> Self {
        match verdict {
            Verdict::Yes => Ending::Done,
            Verdict::No { .. } => Ending::Refused,
        }
    }
}

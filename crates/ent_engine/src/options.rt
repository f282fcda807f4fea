//! What a caller may choose of a run.
ghost use Rattle.std.specs.Prelude.{◌≡◌};

use ent_book::ReportVersion;

/// The calls that are made where the caller says nothing of them.
pub const DEFAULT_TRIES: u64 = 1;

/// What a caller may choose of a run.
#[derive(Clone, Copy, Debug, PartialEq, Eq)]
pub struct RunOptions {
    /// How many times in all the scripts are run on where memory runs out: each further call goes on with what the one
    /// before did. 0 counts as 1. It changes what a report says only where memory runs out in between: scripts that are
    /// run on from there may meet in another order.
    pub tries: u64,
    /// The version of the report.
    pub report: ReportVersion,
}

impl Default for RunOptions {
    /// One try, and a report of version 1.
    fn default() -> Self
        ensures tries { result.tries ≡ DEFAULT_TRIES }
        ensures report { result.report ≡ ReportVersion.One }
    {
        RunOptions {
            tries: DEFAULT_TRIES,
            report: ReportVersion::One,
        }
    }
}

//! The versions of a report, by their numbers.
ghost use Rattle.std.specs.Prelude.{◌≡◌};
ghost use Rattle.ent_c.specs.Version.{version_numbered};

use ent_book::ReportVersion;

/// The version of this number.
pub(crate) fn version_numbered(number: u32) -> Option<ReportVersion>
    ensures { result ≡ version_numbered number }
{
    match number {
        1 => Some(ReportVersion::One),
        2 => Some(ReportVersion::Two),
        _ => None,
    }
}

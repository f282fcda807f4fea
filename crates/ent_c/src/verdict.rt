//! The verdict on a report in memory.
ghost use Rattle.std.specs.Prelude.{◌≡◌, ◌<◌, IfErr, IfOk, false, length, pos};
ghost use Rattle.std.specs.String.{string_bytes};
ghost use Rattle.ent_c.specs.Text.{verdict_status};
ghost use Rattle.ent_check_report.specs.Fault.{is_read_fault, verdict_text};
ghost use Rattle.ent_check_report.specs.Verdicts.{IsVerdict};
ghost use Rattle.ent_check_report.specs.declared.check.TheConstants.{MOST_REPORT_BYTES};
ghost use Rattle.ent_check_report.specs.declared.fault.CheckFault.TheVariants.{TooLong};

use ent_check_report::{CheckFault, Verdict, check_text};
use std::alloc::Global;

/// A verdict, and its words.
#[derive(Drop)]
pub(crate) struct Judged {
    pub(crate) verdict: Verdict,
    pub(crate) text: String,
}

/// The verdict on a report.
pub(crate) fn judge(alloc: Global, report: &[u8]) -> Result<Judged, CheckFault>
    ensures verdict { IfOk result (λ judged. IsVerdict report.now judged.verdict) }
    ensures text { IfOk result (λ judged. string_bytes judged.text ≡ verdict_text judged.verdict) }
    ensures too_long { IfErr result (λ fault. fault ≡ TooLong → MOST_REPORT_BYTES < length report.now) }
    ensures no_stream { is_read_fault result ≡ false }
{
    let verdict = check_text(alloc, report)?;
    let text = verdict.to_string(alloc)?;
    Ok(Judged { verdict, text })
}

/// The status of a check with this verdict.
pub(crate) fn status_after(verdict: Verdict) -> i32
    ensures { result ≡ pos (verdict_status verdict) }
{
    match verdict {
        Verdict::Yes => 0,
        Verdict::No { .. } => 1,
    }
}

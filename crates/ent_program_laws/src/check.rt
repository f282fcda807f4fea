//! A whole check: bytes in, verdict out.
ghost use Rattle.std.specs.Prelude.{◌≡◌, ◌≤◌, ◌<◌, ◌↔◌, false, length, IfErr, IfOk, IfSome, OnOk};
ghost use Rattle.ent_check_report.specs.Fault.{is_read_fault};
ghost use Rattle.ent_check_report.specs.Verdicts.{IsVerdict};
ghost use Rattle.ent_check_report.specs.declared.check.TheConstants.{MOST_REPORT_BYTES};
ghost use Rattle.ent_check_report.specs.declared.fault.CheckFault.TheVariants.{TooLong};
ghost use Rattle.ent_check_report.specs.declared.verdict.Verdict.TheVariants.{Yes};
ghost use Rattle.ent_value.specs.Watched.{IsUnmarked};
ghost use Rattle.ent_program_laws.specs.Right.{IsReportOfLegalBook};

use crate::{texts_have_one_verdict, yes_is_said_of_reports_of_legal_books};
use ent_check_report::{CheckFault, Verdict};
use ent_value::Watched;
use std::alloc::Global;
use std::io::Read;

/// Judges a report in memory, of [`ent_check_report::MOST_REPORT_BYTES`] at most: [`Verdict::Yes`] exactly where its
/// text is of whole characters and the report of a legal book that can be reported, else the first rule that it breaks
/// and the line that this rule names. It reads no stream, so no fault of one is answered.
pub fn check_text(alloc: Global, text: &[u8]) -> Result<Verdict, CheckFault>
    ensures yes { IfOk result (λ verdict. verdict ≡ Yes ↔ IsReportOfLegalBook text.now) }
    ensures verdict { IfOk result (λ verdict. IsVerdict text.now verdict) }
    ensures limit { OnOk result (length text.now ≤ MOST_REPORT_BYTES) }
    ensures too_long { IfErr result (λ fault. fault ≡ TooLong → MOST_REPORT_BYTES < length text.now) }
    ensures no_stream { is_read_fault result ≡ false }
{
    yes_is_said_of_reports_of_legal_books();
    texts_have_one_verdict();
    ent_check_report::check_text(alloc, text)
}

/// Reads a report whole, and judges it, as [`check_text`] does.
///
/// The reader is handed in unmarked, as [`Watched::new`] makes it, so that its mark tells of this call. The bytes are
/// counted while they come, and none beyond [`ent_check_report::MOST_REPORT_BYTES`] is kept.
pub fn check_report<R: Read>(alloc: Global, reader: &mut Watched<R>) -> Result<Verdict, CheckFault>
    requires unmarked { IsUnmarked reader.old }
    ensures yes { IfOk result (λ verdict.
        IfSome (R.remaining reader.old.inner) (λ text. verdict ≡ Yes ↔ IsReportOfLegalBook text)) }
    ensures verdict { IfOk result (λ verdict.
        IfSome (R.remaining reader.old.inner) (λ text. IsVerdict text verdict)) }
    ensures limit { IfOk result (λ verdict.
        IfSome (R.remaining reader.old.inner) (λ text. length text ≤ MOST_REPORT_BYTES)) }
    ensures too_long { IfErr result (λ fault. fault ≡ TooLong
        → IfSome (R.remaining reader.old.inner) (λ text. MOST_REPORT_BYTES < length text)) }
    // A fault of the reader is answered exactly where that one failed.
    ensures marks { reader.new.failed ≡ is_read_fault result }
{
    yes_is_said_of_reports_of_legal_books();
    texts_have_one_verdict();
    ent_check_report::check_report(alloc, reader)
}

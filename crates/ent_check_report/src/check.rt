//! A whole check: bytes in, verdict out.
ghost use Rattle.std.specs.Prelude.{◌≡◌, ◌≤◌, ◌<◌, ℕ, List, [], false, length, IfErr, IfOk, IfSome, OnOk, None};
ghost use Rattle.std.specs.Prelude.{Some};
ghost use Rattle.std.specs.List.{AllByRecursion};
ghost use Rattle.ent_check_report.specs.Fault.{is_read_fault};
ghost use Rattle.ent_check_report.specs.Verdicts.{IsVerdict, IsVerdictOn};
ghost use Rattle.ent_check_report.specs.declared.check.TheConstants.{MOST_REPORT_BYTES};
ghost use Rattle.ent_check_report.specs.declared.fault.CheckFault.TheVariants.{TooLong};
ghost use Rattle.ent_form.specs.Catalogue.{schemas_of};
ghost use Rattle.ent_form.specs.OpeningFault.{opening_fault};
ghost use Rattle.ent_form.specs.ScriptFaults.{script_faults};
ghost use Rattle.ent_history.specs.Verdict.{first_finding};
ghost use Rattle.ent_history.specs.declared.finding.Finding.{Finding};
ghost use Rattle.ent_report_reader.specs.Located.{AreLinesOf, TellsOf};
ghost use Rattle.ent_value.specs.Watched.{IsUnmarked};

use crate::fault::CheckFault;
use crate::first::first_finding;
use crate::law::found_things_are_told;
use crate::verdict::Verdict;
use ent_history::Rule;
use ent_report_laws::told_histories_are_formed;
use ent_report_reader::{Report, read_report};
use ent_stream::{StreamFault, read_whole};
use ent_value::{Refusal, Watched};
use std::alloc::{AllocError, Global};
use std::io::Read;

/// The most bytes that a report has.
pub const MOST_REPORT_BYTES: usize = 1_099_511_627_776;

/// Reads a report whole, in any pieces that the reader gives. The bytes are counted while they come, and none beyond
/// [`MOST_REPORT_BYTES`] is kept.
pub fn read_text<R: Read>(alloc: Global, reader: &mut Watched<R>) -> Result<Vec<u8>, CheckFault>
    requires unmarked { IsUnmarked reader.old }
    ensures whole { IfOk result (λ text. IfSome (R.remaining reader.old.inner) (λ all. text.items ≡ all)) }
    ensures limit { IfOk result (λ text. length text.items ≤ MOST_REPORT_BYTES) }
    ensures too_long { IfErr result (λ fault. fault ≡ TooLong
        → IfSome (R.remaining reader.old.inner) (λ all. MOST_REPORT_BYTES < length all)) }
    ensures marks { reader.new.failed ≡ is_read_fault result }
{
    match read_whole(alloc, reader, MOST_REPORT_BYTES) {
        Ok(text) => Ok(text),
        Err(Refusal::Memory) => Err(CheckFault::Memory),
        Err(Refusal::Fault(StreamFault::TooLong)) => Err(CheckFault::TooLong),
        Err(Refusal::Fault(StreamFault::Unreadable)) => Err(CheckFault::ReadFault),
    }
}

/// The verdict on what is told, where the thing that is found is told.
fn judge_told(alloc: Global, report: &Report) -> Result<Verdict, AllocError>
    requires formed { opening_fault report.now.history.opening ≡ None }
    requires resolved { let history = report.now.history in
        AllByRecursion (λ script. script_faults (schemas_of history.opening.tables) script ≡ []) history.scripts }
    requires told { (finding : Finding) → first_finding report.now.history ≡ Some finding
        → TellsOf report.now.history finding.thing }
    requires lines { (text : List ℕ) × AreLinesOf text report.now.history report.now.lines }
    ensures { (text : List ℕ) → AreLinesOf text report.now.history report.now.lines
        → IfOk result (λ verdict. IsVerdictOn text report.now.history verdict) }
{
    let Some(finding) = first_finding(alloc, &report.history)? else {
        return Ok(Verdict::Yes);
    };
    let Some(line) = report.line_of(finding.thing) else {
        unreachable!()
    };
    Ok(Verdict::No {
        line,
        rule: finding.rule,
    })
}

/// The verdict on a text.
fn judge(alloc: Global, text: &[u8]) -> Result<Verdict, AllocError>
    ensures { IfOk result (λ verdict. IsVerdict text.now verdict) }
{
    told_histories_are_formed();
    found_things_are_told();
    match read_report(alloc, text)? {
        Ok(report) => judge_told(alloc, &report),
        Err(line) => Ok(Verdict::No {
            line,
            rule: Rule::Form,
        }),
    }
}

/// Judges a report in memory, of [`MOST_REPORT_BYTES`] at most: [`Verdict::Yes`] exactly where its text tells of a
/// legal book, else the first rule that it breaks and the line of the text at which the thing stands that breaks it. It
/// reads no stream, so no fault of one is answered.
pub fn check_text(alloc: Global, text: &[u8]) -> Result<Verdict, CheckFault>
    ensures verdict { IfOk result (λ verdict. IsVerdict text.now verdict) }
    ensures limit { OnOk result (length text.now ≤ MOST_REPORT_BYTES) }
    ensures too_long { IfErr result (λ fault. fault ≡ TooLong → MOST_REPORT_BYTES < length text.now) }
    ensures no_stream { is_read_fault result ≡ false }
{
    if text.len() > MOST_REPORT_BYTES {
        return Err(CheckFault::TooLong);
    }
    match judge(alloc, text) {
        Ok(verdict) => Ok(verdict),
        Err(AllocError) => Err(CheckFault::Memory),
    }
}

/// Reads a report whole, and judges it, as [`check_text`] does.
///
/// The reader is handed in unmarked, as [`Watched::new`] makes it, so that its mark tells of this call. The bytes are
/// counted while they come, and none beyond [`MOST_REPORT_BYTES`] is kept.
pub fn check_report<R: Read>(alloc: Global, reader: &mut Watched<R>) -> Result<Verdict, CheckFault>
    requires unmarked { IsUnmarked reader.old }
    ensures verdict { IfOk result (λ verdict.
        IfSome (R.remaining reader.old.inner) (λ text. IsVerdict text verdict)) }
    ensures limit { IfOk result (λ verdict.
        IfSome (R.remaining reader.old.inner) (λ text. length text ≤ MOST_REPORT_BYTES)) }
    ensures too_long { IfErr result (λ fault. fault ≡ TooLong
        → IfSome (R.remaining reader.old.inner) (λ text. MOST_REPORT_BYTES < length text)) }
    // A fault of the reader is answered exactly where that one failed.
    ensures marks { reader.new.failed ≡ is_read_fault result }
{
    let text = read_text(alloc, reader)?;
    check_text(alloc, text.as_slice())
}

//! A check that says why.
ghost use Rattle.std.specs.Prelude.{◌≡◌, ◌≤◌, ◌<◌, ℕ, List, [], false, is_some, length, IfErr, IfOk, OnOk, None, Some};
ghost use Rattle.std.specs.List.{AllByRecursion};
ghost use Rattle.ent_check_report.specs.Fault.{is_read_fault};
ghost use Rattle.ent_check_report.specs.Verdicts.{IsVerdict, IsVerdictOn, is_no};
ghost use Rattle.ent_check_report.specs.declared.check.TheConstants.{MOST_REPORT_BYTES};
ghost use Rattle.ent_check_report.specs.declared.fault.CheckFault.TheVariants.{TooLong};
ghost use Rattle.ent_form.specs.Catalogue.{schemas_of};
ghost use Rattle.ent_form.specs.OpeningFault.{opening_fault};
ghost use Rattle.ent_form.specs.ScriptFaults.{script_faults};
ghost use Rattle.ent_history.specs.Verdict.{first_finding};
ghost use Rattle.ent_history.specs.declared.finding.Finding.{Finding};
ghost use Rattle.ent_report_reader.specs.Located.{AreLinesOf, TellsOf};

use crate::check::MOST_REPORT_BYTES;
use crate::explanation::Explanation;
use crate::fault::CheckFault;
use crate::first::first_noted;
use crate::law::found_things_are_told;
use crate::verdict::Verdict;
use ent_history::Rule;
use ent_report_laws::told_histories_are_formed;
use ent_report_reader::{Report, read_report};
use std::alloc::{AllocError, Global};

/// A verdict on a report, and what is said where it is `no`.
#[derive(Drop)]
pub struct Explained {
    pub verdict: Verdict,
    pub explanation: Option<Explanation>,
}

/// The verdict on what is told, where the thing that is found is told; and what is said of it.
fn explain_told(alloc: Global, report: &Report) -> Result<Explained, AllocError>
    requires formed { opening_fault report.now.history.opening ≡ None }
    requires resolved { let history = report.now.history in
        AllByRecursion (λ script. script_faults (schemas_of history.opening.tables) script ≡ []) history.scripts }
    requires told { (finding : Finding) → first_finding report.now.history ≡ Some finding
        → TellsOf report.now.history finding.thing }
    requires lines { (text : List ℕ) × AreLinesOf text report.now.history report.now.lines }
    ensures verdict { (text : List ℕ) → AreLinesOf text report.now.history report.now.lines
        → IfOk result (λ explained. IsVerdictOn text report.now.history explained.verdict) }
    ensures exists { IfOk result (λ explained. is_some explained.explanation ≡ is_no explained.verdict) }
{
    let mut evidence = None;
    let Some(finding) = first_noted(alloc, &report.history, &mut evidence)? else {
        return Ok(Explained {
            verdict: Verdict::Yes,
            explanation: None,
        });
    };
    let Some(line) = report.line_of(finding.thing) else {
        unreachable!()
    };
    let explanation = Explanation::of_finding(alloc, &report.history, finding, evidence);
    Ok(Explained {
        verdict: Verdict::No {
            line,
            rule: finding.rule,
        },
        explanation: Some(explanation),
    })
}

/// The verdict on a text, and what is said of it.
fn explain(alloc: Global, text: &[u8]) -> Result<Explained, AllocError>
    ensures verdict { IfOk result (λ explained. IsVerdict text.now explained.verdict) }
    ensures exists { IfOk result (λ explained. is_some explained.explanation ≡ is_no explained.verdict) }
{
    told_histories_are_formed();
    found_things_are_told();
    match read_report(alloc, text)? {
        Ok(report) => explain_told(alloc, &report),
        Err(line) => Ok(Explained {
            verdict: Verdict::No {
                line,
                rule: Rule::Form,
            },
            explanation: Some(Explanation::of_form(alloc, text, line)),
        }),
    }
}

/// Judges a report in memory as [`crate::check_text`] does, and says of a `no` what was expected and what was found.
pub fn explain_text(alloc: Global, text: &[u8]) -> Result<Explained, CheckFault>
    ensures verdict { IfOk result (λ explained. IsVerdict text.now explained.verdict) }
    // Something is said exactly where the verdict is `no`.
    ensures exists { IfOk result (λ explained. is_some explained.explanation ≡ is_no explained.verdict) }
    ensures limit { OnOk result (length text.now ≤ MOST_REPORT_BYTES) }
    ensures too_long { IfErr result (λ fault. fault ≡ TooLong → MOST_REPORT_BYTES < length text.now) }
    ensures no_stream { is_read_fault result ≡ false }
{
    if text.len() > MOST_REPORT_BYTES {
        return Err(CheckFault::TooLong);
    }
    match explain(alloc, text) {
        Ok(explained) => Ok(explained),
        Err(AllocError) => Err(CheckFault::Memory),
    }
}

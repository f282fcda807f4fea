//! The report of an input in memory.
ghost use Rattle.std.specs.Prelude.{IfErr, IfOk};
ghost use Rattle.ent_c.specs.Text.{IsReport};
ghost use Rattle.ent_engine.specs.Reading.{IsRefused};

use ent_book::ReportVersion;
use ent_engine::{RunFault, RunOptions, report_of as report_in_memory};
use std::alloc::Global;

/// The report of an input, of this version.
pub(crate) fn report_of(
    alloc: Global,
    input: &[u8],
    version: ReportVersion,
) -> Result<Vec<u8>, RunFault>
    ensures report { IfOk result (λ report. IsReport version input.now report.items) }
    ensures refused { IfErr result (λ fault. IsRefused input.now fault) }
{
    let options = RunOptions {
        report: version,
        ..RunOptions::default()
    };
    report_in_memory(alloc, input, options)
}

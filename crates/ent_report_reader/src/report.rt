//! A whole report.
ghost use Rattle.std.specs.Prelude.{IfOk, ◌↔◌, ◌≡◌, ◌+◌, ℕ, List, Some};
ghost use Rattle.ent_book.specs.Report2.{line_count};
ghost use Rattle.ent_report_reader.specs.Located.{AreLinesOf, StandsAt, TellsOf};
ghost use Rattle.ent_report_reader.specs.Reports.{IsReportRead, IsTextRead, StopsAt};

use crate::Draft;
use crate::located::{Located, line_in, lines_above, note};
use crate::pieces::{breaks_off, take_piece};
use ent_book::line_count;
use ent_history::{History, Thing};
use ent_value::Sequence;
use std::alloc::{AllocError, Global};
use std::str;

/// What a text tells, and the line of each thing of it.
#[derive(Drop)]
pub struct Report {
    pub history: History,
    /// In the order in which they stand there.
    pub lines: Sequence<Located>,
}

impl Report {
    /// The line at which a thing stands that is told, counted from 1; none where it isn't told.
    pub fn line_of(&self, thing: Thing) -> Option<u64>
        ensures { (text : List ℕ) → AreLinesOf text self.now.history self.now.lines
            → TellsOf self.now.history thing → (line : ℕ) × (result ≡ Some line) × StandsAt text thing line }
    {
        line_in(self.lines.as_slice(), thing)
    }
}

/// What the pieces of a text tell as far as they stand, the lines of what they tell, and the rest of the text.
fn read_pieces(alloc: Global, text: &str) -> Result<(Draft, Sequence<Located>, &str), AllocError>
    ensures stops { IfOk result (λ x. StopsAt text.now x.0 x.2.now) }
    ensures lines { IfOk result (λ x. AreLinesOf text.now x.0.told x.1) }
{
    let mut draft = Draft::new(alloc);
    let mut lines = Sequence::new(alloc);
    let mut line = 1u64;
    let mut told = draft.counts();
    let mut rest = text;
    while let Some(behind) = take_piece(&mut draft, alloc, rest)? {
        let now = draft.counts();
        note(&mut lines, &told, &now, line)?;
        line += lines_above(rest, behind);
        told = now;
        rest = behind;
    }
    Ok((draft, lines, rest))
}

/// What a text of whole characters tells, or the line of its first fault of form.
fn read_text(alloc: Global, text: &str) -> Result<Result<Report, u64>, AllocError>
    ensures { IfOk result (λ read. IsTextRead text.now read) }
{
    let (draft, lines, rest) = read_pieces(alloc, text)?;
    if draft.has_ended() && rest.is_empty() {
        return Ok(Ok(Report {
            history: draft.into_history(),
            lines,
        }));
    }
    let count = line_count(text.as_bytes());
    if breaks_off(&draft, alloc, rest)? {
        return Ok(Err(count + 1));
    }
    Ok(Err(count - line_count(rest.as_bytes()) + 1))
}

/// What a report of version 2 tells, and at which lines; or the number of the line at which the text isn't one, counted
/// from 1: that of its first byte that isn't UTF-8, wherever it stands; else the line that is missing where the text
/// breaks off inside a script; else the first line that can't stand below those above it, or is missing. An error means
/// that memory ran out, and nothing else.
pub fn read_report(alloc: Global, text: &[u8]) -> Result<Result<Report, u64>, AllocError>
    ensures { IfOk result (λ read. IsReportRead text.now read) }
{
    match str::from_utf8(text) {
        Ok(text) => read_text(alloc, text),
        Err(fault) => {
            let (whole, _) = text.split_at(fault.valid_up_to());
            Ok(Err(line_count(whole) + 1))
        }
    }
}

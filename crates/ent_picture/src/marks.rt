//! How lanes leave their runs.
use crate::bars::{event_at, number_width, tx_of};
use crate::place::Measures;
use crate::sheet::Sheet;
use crate::{Mark, MarkKind, Picture};

/// The marks of all lanes.
pub(crate) fn put_marks(sheet: &mut Sheet, picture: &Picture, measures: Measures) {
    for mark in &picture.marks {
        let tx = tx_of(picture, mark.lane);
        sheet.put(format_args!("<g><title>tx {tx} "));
        put_title(sheet, *mark);
        let event = event_at(picture, mark.column);
        sheet.put(format_args!(", event {event}</title>"));
        let spot = Spot {
            middle: measures.middle(mark.column),
            height: measures.height(mark.lane),
            radius: measures.bar / 2,
        };
        spot.put(sheet, mark.kind, mark.is_back);
        sheet.put("</g>\n");
    }
}

fn put_title(sheet: &mut Sheet, mark: Mark) {
    match mark.kind {
        MarkKind::Committed(number) => sheet.put(format_args!("committed, number {number}")),
        MarkKind::RolledBack => sheet.put("is rolled back, by ROLLBACK"),
        MarkKind::Failed(failure) => {
            let name = failure.name();
            sheet.put(format_args!("failed, {name}"));
        }
        MarkKind::TakenBack => {
            sheet.put("is rolled back with its group");
            sheet.put(what_next(mark.is_back));
        }
        MarkKind::Ended => {
            sheet.put("is left at the end of the run");
            sheet.put(what_next(mark.is_back));
        }
    }
}

fn what_next(is_back: bool) -> &'static str {
    if is_back {
        "; it is in a later run"
    } else {
        "; it gave up"
    }
}

/// Where a mark stands.
#[derive(Clone, Copy)]
pub(crate) struct Spot {
    pub(crate) middle: u64,
    pub(crate) height: u64,
    pub(crate) radius: u64,
}

impl Spot {
    /// The mark of how a lane leaves a run, and whether it is in a later one.
    pub(crate) fn put(self, sheet: &mut Sheet, kind: MarkKind, is_back: bool) {
        match kind {
            MarkKind::Committed(number) => self.put_number(sheet, number),
            MarkKind::RolledBack => self.put_sign(sheet, "M-4 -4L4 4M-4 4L4 -4"),
            MarkKind::Failed(failure) => self.put_failure(sheet, failure.name()),
            MarkKind::TakenBack => self.put_sign(sheet, "M4 0H-4M-1 -3L-4 0L-1 3"),
            MarkKind::Ended if is_back => self.put_sign(sheet, "M-4 0H4M1 -3L4 0L1 3"),
            MarkKind::Ended => self.put_sign(sheet, "M-4 0H4"),
        }
    }

    /// A circle with a sign.
    fn put_sign(self, sheet: &mut Sheet, sign: &str) {
        let Spot {
            middle,
            height,
            radius,
        } = self;
        let radius = radius.min(9);
        sheet.put(format_args!(
            "<circle class=\"c\" cx=\"{middle}\" cy=\"{height}\" r=\"{radius}\"/>\
             <path class=\"k\" d=\"{sign}\" transform=\"translate({middle} {height})\"/>"
        ));
    }

    /// A box with round ends and a width.
    fn put_box(self, sheet: &mut Sheet, width: u64, round: u64) {
        let left = self.middle.saturating_sub(width / 2);
        let top = self.height.saturating_sub(self.radius);
        let height = self.radius.saturating_mul(2);
        sheet.put(format_args!(
            "<rect class=\"c\" x=\"{left}\" y=\"{top}\" width=\"{width}\" height=\"{height}\" rx=\"{round}\"/>"
        ));
    }

    fn put_word(self, sheet: &mut Sheet, word: &str) {
        let middle = self.middle;
        let line = self.height.saturating_add(4);
        sheet.put(format_args!("<text class=\"b m\" x=\"{middle}\" y=\"{line}\">{word}</text>"));
    }

    fn put_number(self, sheet: &mut Sheet, number: u64) {
        self.put_box(sheet, number_width(number).saturating_add(12), self.radius);
        let middle = self.middle;
        let line = self.height.saturating_add(4);
        sheet.put(format_args!("<text class=\"b m\" x=\"{middle}\" y=\"{line}\">{number}</text>"));
    }

    fn put_failure(self, sheet: &mut Sheet, name: &str) {
        self.put_box(sheet, 24, 0);
        self.put_word(sheet, name);
    }
}

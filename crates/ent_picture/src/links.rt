//! What several lanes have in common: joint answers, group commits, cycles of waiting.
use crate::bars::{event_at, tx_of};
use crate::place::{Measures, colour};
use crate::sheet::Sheet;
use crate::{Link, LinkKind, Picture};

/// The links of these sorts: joint answers and cycles, or commits, which stand below the marks.
pub(crate) fn put_links(sheet: &mut Sheet, picture: &Picture, measures: Measures) {
    for link in &picture.links {
        put_link(sheet, picture, link, measures);
    }
}

fn put_link(sheet: &mut Sheet, picture: &Picture, link: &Link, measures: Measures) {
    sheet.put("<g><title>");
    sheet.put(match link.kind {
        LinkKind::Joint(_) => "answered together: tx",
        LinkKind::Commit => "committed together: tx",
        LinkKind::Cycle => "a cycle of waiting: tx",
    });
    put_names(sheet, picture, link.lanes.as_slice());
    let event = event_at(picture, link.column);
    sheet.put(format_args!(", event {event}</title>"));
    let middle = measures.middle(link.column);
    let (top, bottom) = ends(link.lanes.as_slice());
    let span = Span {
        middle,
        top: measures.height(top),
        bottom: measures.height(bottom),
    };
    span.put(sheet, link.kind);
    for lane in &link.lanes {
        put_joint(sheet, link.kind, middle, measures.height(*lane));
    }
    sheet.put("</g>\n");
}

/// The transactions of lanes.
fn put_names(sheet: &mut Sheet, picture: &Picture, lanes: &[u64]) {
    for lane in lanes {
        let tx = tx_of(picture, *lane);
        sheet.put(format_args!(" {tx}"));
    }
}

/// The first and the last of some lanes.
fn ends(lanes: &[u64]) -> (u64, u64) {
    let mut top = u64::MAX;
    let mut bottom = 0u64;
    for lane in lanes {
        top = top.min(*lane);
        bottom = bottom.max(*lane);
    }
    (top.min(bottom), bottom)
}

/// A line from one height to another.
#[derive(Clone, Copy)]
pub(crate) struct Span {
    pub(crate) middle: u64,
    pub(crate) top: u64,
    pub(crate) bottom: u64,
}

impl Span {
    /// The line of a link of this sort.
    pub(crate) fn put(self, sheet: &mut Sheet, kind: LinkKind) {
        match kind {
            LinkKind::Joint(group) => {
                self.put_line(sheet, "#fff", 7, "");
                self.put_line(sheet, "#222", 5, "");
                self.put_line(sheet, colour(group), 3, "");
            }
            LinkKind::Commit => {
                self.put_line(sheet, "#222", 6, "");
                self.put_line(sheet, "#fff", 3, "");
            }
            LinkKind::Cycle => {
                self.put_line(sheet, "#fff", 6, "");
                self.put_line(sheet, "#222", 2, " stroke-dasharray=\"5 4\"");
            }
        }
    }

    fn put_line(self, sheet: &mut Sheet, colour: &str, width: u64, more: &str) {
        let Span {
            middle,
            top,
            bottom,
        } = self;
        sheet.put(format_args!(
            "<path d=\"M{middle} {top}V{bottom}\" stroke=\"{colour}\" stroke-width=\"{width}\"{more}/>"
        ));
    }
}

/// What stands where a link meets a lane of it.
pub(crate) fn put_joint(sheet: &mut Sheet, kind: LinkKind, middle: u64, height: u64) {
    match kind {
        LinkKind::Joint(group) => {
            let colour = colour(group);
            sheet.put(format_args!(
                "<circle cx=\"{middle}\" cy=\"{height}\" r=\"6\" fill=\"{colour}\" stroke=\"#222\" \
                 stroke-width=\"1.5\"/>"
            ));
        }
        LinkKind::Commit => {}
        LinkKind::Cycle => sheet.put(format_args!(
            "<circle class=\"c\" cx=\"{middle}\" cy=\"{height}\" r=\"4\"/>"
        )),
    }
}

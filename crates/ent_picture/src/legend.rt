//! What the signs of a picture mean.
use crate::bars::Shape;
use crate::links::{Span, put_joint};
use crate::marks::Spot;
use crate::place::Measures;
use crate::sheet::Sheet;
use crate::{Demand, LinkKind, MarkKind, What};
use ent_semantics::Failure;

/// How high the legend is, with the room above and below it.
pub(crate) const HEIGHT: u64 = 172;

/// How many signs there are.
const ITEMS: u64 = 15;

/// A demand, for its sign.
const DEMAND: Demand = Demand {
    asker: 1,
    post: 1,
    first: 2,
    second: 3,
};

/// The legend, below the lanes.
pub(crate) fn put_legend(sheet: &mut Sheet, measures: Measures) {
    let top = measures.bottom().saturating_add(24);
    for row in 0..4u64 {
        for column in 0..4u64 {
            let left = column.saturating_mul(244).saturating_add(20);
            let height = row
                .saturating_mul(32)
                .saturating_add(top)
                .saturating_add(14);
            let item = row.saturating_add(column.saturating_mul(4));
            if item < ITEMS {
                put_item(sheet, left, height, item);
            }
        }
    }
}

/// An item: its sign and what it means.
fn put_item(sheet: &mut Sheet, left: u64, height: u64, item: u64) {
    let shape = Shape {
        left,
        top: height.saturating_sub(9),
        width: 40,
        height: 18,
    };
    let spot = Spot {
        middle: left.saturating_add(20),
        height,
        radius: 9,
    };
    match item {
        0..=4 => put_bar_sign(sheet, shape, item),
        5 => put_groups(sheet, left, height),
        6..=8 => put_link_sign(sheet, spot, item),
        _ => put_mark_sign(sheet, spot, item),
    }
    let text = left.saturating_add(50);
    let line = height.saturating_add(4);
    let meaning = meaning(item);
    sheet.put(format_args!("<text x=\"{text}\" y=\"{line}\">{meaning}</text>\n"));
}

fn put_bar_sign(sheet: &mut Sheet, shape: Shape, item: u64) {
    match item {
        0 => {
            shape.put(sheet, What::Statement { answer: None });
            shape.put_word(sheet, "2");
        }
        1 => shape.put(sheet, What::Posted),
        2 => shape.put(sheet, What::HeldBack(DEMAND)),
        3 => {
            shape.put(sheet, What::Blocked(3));
            shape.put_word(sheet, "by 3");
        }
        _ => shape.put(sheet, What::Prepared),
    }
}

/// Colours and patterns of groups.
fn put_groups(sheet: &mut Sheet, left: u64, height: u64) {
    let top = height.saturating_sub(9);
    let strip = height.saturating_add(3);
    let second = left.saturating_add(21);
    sheet.put(format_args!(
        "<rect x=\"{left}\" y=\"{top}\" width=\"19\" height=\"18\" rx=\"3\" fill=\"#0072B2\" fill-opacity=\"0.2\"/>\
         <rect x=\"{left}\" y=\"{strip}\" width=\"19\" height=\"6\" rx=\"2\" fill=\"#0072B2\"/>"
    ));
    sheet.put(format_args!(
        "<rect x=\"{second}\" y=\"{top}\" width=\"19\" height=\"18\" rx=\"3\" fill=\"#E69F00\" fill-opacity=\"0.2\"/>\
         <rect x=\"{second}\" y=\"{strip}\" width=\"19\" height=\"6\" rx=\"2\" fill=\"url(#sample)\"/>"
    ));
}

fn put_link_sign(sheet: &mut Sheet, spot: Spot, item: u64) {
    let kind = match item {
        6 => LinkKind::Joint(0),
        7 => LinkKind::Commit,
        _ => LinkKind::Cycle,
    };
    let (top, bottom) = (spot.height.saturating_sub(9), spot.height.saturating_add(9));
    let span = Span {
        middle: spot.middle,
        top,
        bottom,
    };
    span.put(sheet, kind);
    put_joint(sheet, kind, spot.middle, top);
    put_joint(sheet, kind, spot.middle, bottom);
}

fn put_mark_sign(sheet: &mut Sheet, spot: Spot, item: u64) {
    match item {
        9 => spot.put(sheet, MarkKind::Committed(1), false),
        10 => spot.put(sheet, MarkKind::RolledBack, false),
        11 => spot.put(sheet, MarkKind::Failed(Failure::Overflow), false),
        12 => spot.put(sheet, MarkKind::TakenBack, true),
        13 => spot.put(sheet, MarkKind::Ended, true),
        _ => spot.put(sheet, MarkKind::Ended, false),
    }
}

fn meaning(item: u64) -> &'static str {
    match item {
        0 => "a statement, by its place",
        1 => "posted: waits for partners",
        2 => "held back: a demand fits two",
        3 => "blocked, by whom",
        4 => "prepared: partners aren't yet",
        5 => "groups of partners",
        6 => "a joint answer",
        7 => "committed in one event",
        8 => "a cycle of waiting",
        9 => "committed, with its number",
        10 => "rolled back: ROLLBACK",
        11 => "failed: F1, F2",
        12 => "rolled back with its group",
        13 => "is in a later run",
        _ => "gave up",
    }
}

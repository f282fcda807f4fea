//! What stands around the lanes: head, patterns, runs, events, names and fates.
use crate::idle::Shown;
use crate::legend::HEIGHT;
use crate::place::{Measures, colour, pattern};
use crate::sheet::Sheet;
use crate::{Fate, Lane, Picture, Run};

/// How the texts and the lines of a picture look.
const STYLE: &str = "<style>\
    text{font-family:'DejaVu Sans','Segoe UI',Helvetica,Arial,sans-serif;font-size:12px;fill:#222}\
    .h{font-size:16px;font-weight:bold}.s{font-size:10px;fill:#555}.b{font-weight:bold}.m{text-anchor:middle}\
    .e{text-anchor:end}.o{paint-order:stroke;stroke:#fff;stroke-width:4px;stroke-linejoin:round}\
    .w{fill:#fff;stroke:#333;stroke-width:1.3}.d{stroke-dasharray:4 3}\
    .k{fill:none;stroke:#222;stroke-width:2;stroke-linecap:round}.c{fill:#fff;stroke:#222;stroke-width:2}\
    </style>\n";

/// The patterns of waiting.
const WAITING: &str =
    "<pattern id=\"blocked\" width=\"7\" height=\"7\" patternUnits=\"userSpaceOnUse\">\
    <rect width=\"7\" height=\"7\" fill=\"#f4f4f4\"/>\
    <path d=\"M-2 5L5 -2M0 10L10 0\" stroke=\"#777\" stroke-width=\"1.4\"/></pattern>\
    <pattern id=\"held\" width=\"6\" height=\"6\" patternUnits=\"userSpaceOnUse\">\
    <rect width=\"6\" height=\"6\" fill=\"#f4f4f4\"/><circle cx=\"3\" cy=\"3\" r=\"1.3\" fill=\"#666\"/></pattern>\
    <pattern id=\"sample\" width=\"10\" height=\"10\" patternUnits=\"userSpaceOnUse\">\
    <rect width=\"10\" height=\"10\" fill=\"#E69F00\"/>\
    <path d=\"M-2 8L8 -2M2 12L12 2\" stroke=\"#fff\" stroke-width=\"3\"/></pattern>\n";

/// The beginning of a picture, which says what is left out.
pub(crate) fn put_head(sheet: &mut Sheet, picture: &Picture, measures: Measures, shown: &Shown) {
    let (width, height) = (measures.width(), measures.bottom().saturating_add(HEIGHT));
    sheet.put(format_args!(
        "<svg xmlns=\"http://www.w3.org/2000/svg\" width=\"{width}\" height=\"{height}\" \
         viewBox=\"0 0 {width} {height}\">\n"
    ));
    sheet.put("<title>A run of entangled transactions</title>\n");
    sheet.put(STYLE);
    sheet.put("<defs>");
    sheet.put(WAITING);
    for group in 0..picture.groups.min(42) {
        put_pattern(sheet, group);
    }
    sheet.put("</defs>\n");
    sheet.put(format_args!("<rect width=\"{width}\" height=\"{height}\" fill=\"#fff\"/>\n"));
    put_counts(sheet, picture, shown);
}

fn put_pattern(sheet: &mut Sheet, group: u64) {
    let colour = colour(group);
    let lines = pattern(group);
    sheet.put(format_args!(
        "<pattern id=\"g{group}\" width=\"10\" height=\"10\" patternUnits=\"userSpaceOnUse\">\
         <rect width=\"10\" height=\"10\" fill=\"{colour}\"/>{lines}</pattern>\n"
    ));
}

fn put_counts(sheet: &mut Sheet, picture: &Picture, shown: &Shown) {
    sheet.put("<text class=\"h\" x=\"20\" y=\"32\">");
    put_count(sheet, picture.lanes.len() as u64, "transaction");
    sheet.put(", ");
    put_count(sheet, picture.runs.len() as u64, "run");
    sheet.put(", ");
    put_count(sheet, picture.events, "event");
    sheet.put("</text>\n");
    if shown.idle_lanes > 0 || shown.idle_runs > 0 {
        sheet.put(
            "<text class=\"s\" x=\"20\" y=\"46\">left out, as nothing happens there but waiting: ",
        );
        put_count(sheet, shown.idle_lanes as u64, "transaction");
        sheet.put(", ");
        put_count(sheet, shown.idle_runs as u64, "run");
        sheet.put("</text>\n");
    }
}

fn put_count(sheet: &mut Sheet, count: u64, what: &str) {
    let ending = if count == 1 { "" } else { "s" };
    sheet.put(format_args!("{count} {what}{ending}"));
}

/// The bands of the runs, with their numbers above the lanes.
pub(crate) fn put_runs(sheet: &mut Sheet, picture: &Picture, measures: Measures) {
    for run in &picture.runs {
        put_run(sheet, *run, measures);
    }
}

fn put_run(sheet: &mut Sheet, run: Run, measures: Measures) {
    let number = run.number;
    let ground = if number % 2 == 1 {
        "#f3f5f7"
    } else {
        "#eae6df"
    };
    let left = measures.edge(run.from);
    let width = measures.edge(run.to.saturating_add(1)).saturating_sub(left);
    let top = measures.top().saturating_sub(44);
    let height = measures.bottom().saturating_sub(top);
    sheet.put(format_args!(
        "<rect x=\"{left}\" y=\"{top}\" width=\"{width}\" height=\"{height}\" fill=\"{ground}\"/>\n"
    ));
    let text = left.saturating_add(6);
    let line = top.saturating_add(16);
    let class = if width < 52 { "s" } else { "b" };
    let word = if width < 40 { "" } else { "run " };
    sheet.put(format_args!(
        "<text class=\"{class}\" x=\"{text}\" y=\"{line}\">{word}{number}<title>run {number}</title></text>\n"
    ));
}

/// The numbers of the events, as many as there is room for.
pub(crate) fn put_events(sheet: &mut Sheet, picture: &Picture, measures: Measures) {
    let height = measures.top().saturating_sub(8);
    sheet.put(format_args!("<text class=\"s\" x=\"20\" y=\"{height}\">event</text>\n"));
    let step = if measures.column < 36 { 2 } else { 1 };
    let mut column = 0u64;
    for event in &picture.columns {
        if column % step == 0 {
            let middle = measures.middle(column);
            sheet.put(format_args!(
                "<text class=\"s m\" x=\"{middle}\" y=\"{height}\">{event}</text>\n"
            ));
        }
        column = column.saturating_add(1);
    }
}

/// The lanes with the numbers of their transactions and what became of them.
pub(crate) fn put_lanes(sheet: &mut Sheet, picture: &Picture, measures: Measures) {
    let mut number = 0u64;
    for lane in &picture.lanes {
        put_lane(sheet, *lane, number, measures);
        number = number.saturating_add(1);
    }
    let bottom = measures.bottom();
    put_border(sheet, bottom, measures);
}

/// The line between two lanes.
fn put_border(sheet: &mut Sheet, height: u64, measures: Measures) {
    let right = measures.right().saturating_add(110);
    sheet.put(format_args!("<path d=\"M20 {height}H{right}\" stroke=\"#ccc\"/>\n"));
}

fn put_lane(sheet: &mut Sheet, lane: Lane, number: u64, measures: Measures) {
    put_border(sheet, measures.lane_top(number), measures);
    let tx = lane.tx;
    let line = measures.text(number);
    let right = measures.right().saturating_add(12);
    sheet.put(format_args!(
        "<text x=\"20\" y=\"{line}\">tx <tspan class=\"b\">{tx}</tspan></text>\n<text x=\"{right}\" y=\"{line}\">"
    ));
    put_fate(sheet, lane.fate);
    sheet.put("</text>\n");
}

/// What became of a transaction.
fn put_fate(sheet: &mut Sheet, fate: Fate) {
    match fate {
        Fate::Open => sheet.put("has no fate yet"),
        Fate::Committed(number) => sheet.put(format_args!(
            "committed <tspan class=\"b\">{number}</tspan>"
        )),
        Fate::RolledBack => sheet.put("rolled back"),
        Fate::Failed(failure) => {
            let name = failure.name();
            sheet.put(format_args!("failed {name}"));
        }
        Fate::GaveUp => sheet.put("gave up"),
    }
}

//! What goes on in lanes: their time in runs and in groups, statements and waiting.
use crate::place::{Measures, colour};
use crate::sheet::Sheet;
use crate::{Bar, Demand, Exchange, Life, Picture, Reply, Shade, What};
use ent_group::Tx;

/// The lanes' times in groups.
pub(crate) fn put_shades(sheet: &mut Sheet, picture: &Picture, measures: Measures) {
    for shade in &picture.shades {
        put_shade(sheet, *shade, measures);
    }
}

fn put_shade(sheet: &mut Sheet, shade: Shade, measures: Measures) {
    let left = measures.start(shade.from);
    let width = measures.end(shade.to).saturating_sub(left);
    let top = measures.lane_top(shade.lane).saturating_add(2);
    let height = measures.lane.saturating_sub(4);
    let colour = colour(shade.group);
    sheet.put(format_args!(
        "<rect x=\"{left}\" y=\"{top}\" width=\"{width}\" height=\"{height}\" rx=\"4\" fill=\"{colour}\" \
         fill-opacity=\"0.2\"/>\n"
    ));
    let strip_top = measures.strip_top(shade.lane);
    let strip = measures.strip;
    let pattern = shade.group % 42;
    sheet.put(format_args!(
        "<rect x=\"{left}\" y=\"{strip_top}\" width=\"{width}\" height=\"{strip}\" rx=\"2\" \
         fill=\"url(#g{pattern})\"/>\n"
    ));
}

/// The lanes' times in runs.
pub(crate) fn put_lives(sheet: &mut Sheet, picture: &Picture, measures: Measures) {
    for life in &picture.lives {
        put_life(sheet, *life, measures);
    }
}

fn put_life(sheet: &mut Sheet, life: Life, measures: Measures) {
    let (left, right) = (measures.middle(life.from), measures.middle(life.to));
    let height = measures.height(life.lane);
    sheet.put(format_args!(
        "<path d=\"M{left} {height}H{right}\" stroke=\"#999\" stroke-width=\"2\"/>\
         <circle cx=\"{left}\" cy=\"{height}\" r=\"3\" fill=\"#999\"/>\n"
    ));
}

/// Statements and waiting.
pub(crate) fn put_bars(
    sheet: &mut Sheet,
    picture: &Picture,
    trace: &[Exchange],
    measures: Measures,
) {
    for bar in &picture.bars {
        put_bar(sheet, picture, trace, *bar, measures);
    }
}

fn put_bar(sheet: &mut Sheet, picture: &Picture, trace: &[Exchange], bar: Bar, measures: Measures) {
    sheet.put("<g><title>");
    put_title(sheet, picture, trace, bar);
    sheet.put("</title>");
    let left = measures.start(bar.from);
    let right = match bar.what {
        What::Statement { answer: Some(_) } => measures.end(bar.to),
        _ => measures.end_before(bar.from, bar.to),
    };
    let shape = Shape {
        left,
        top: measures.bar_top(bar.lane),
        width: right.saturating_sub(left),
        height: measures.bar,
    };
    shape.put(sheet, bar.what);
    put_label(sheet, bar, shape);
    sheet.put("</g>\n");
}

/// Where a bar stands.
#[derive(Clone, Copy)]
pub(crate) struct Shape {
    pub(crate) left: u64,
    pub(crate) top: u64,
    pub(crate) width: u64,
    pub(crate) height: u64,
}

impl Shape {
    /// The shape of what goes on.
    pub(crate) fn put(self, sheet: &mut Sheet, what: What) {
        match what {
            What::Statement { .. } => self.put_rect(sheet, 3, "w", ""),
            What::Posted => self.put_rect(sheet, self.height / 2, "w d", ""),
            What::Prepared => self.put_rect(sheet, self.height / 2, "w", " style=\"fill:#ddd\""),
            What::Blocked(_) => self.put_rect(sheet, 3, "w", " style=\"fill:url(#blocked)\""),
            What::HeldBack(_) => self.put_rect(sheet, 3, "w", " style=\"fill:url(#held)\""),
        }
    }

    fn put_rect(self, sheet: &mut Sheet, round: u64, class: &str, more: &str) {
        let Shape {
            left,
            top,
            width,
            height,
        } = self;
        sheet.put(format_args!(
            "<rect class=\"{class}\" x=\"{left}\" y=\"{top}\" width=\"{width}\" height=\"{height}\" \
             rx=\"{round}\"{more}/>"
        ));
    }

    /// A text in the middle, with a light rim.
    pub(crate) fn put_word(self, sheet: &mut Sheet, word: &str) {
        let middle = self.left.saturating_add(self.width / 2);
        let line = self.line();
        sheet.put(format_args!("<text class=\"m o\" x=\"{middle}\" y=\"{line}\">{word}</text>"));
    }

    /// A word and a number in the middle.
    pub(crate) fn put_number(self, sheet: &mut Sheet, word: &str, number: u64) {
        let middle = self.left.saturating_add(self.width / 2);
        let line = self.line();
        sheet.put(format_args!(
            "<text class=\"m o\" x=\"{middle}\" y=\"{line}\">{word}{number}</text>"
        ));
    }

    fn line(self) -> u64 {
        self.top.saturating_add(self.height / 2).saturating_add(4)
    }
}

/// How wide a number is.
pub(crate) fn number_width(number: u64) -> u64 {
    match number {
        0..=9 => 8,
        10..=99 => 16,
        100..=999 => 24,
        1000..=9999 => 32,
        _ => 40,
    }
}

/// What stands in a bar, as far as there is room.
fn put_label(sheet: &mut Sheet, bar: Bar, shape: Shape) {
    match bar.what {
        What::Statement { .. } => put_fitting(sheet, shape, "", bar.place),
        What::Posted => put_longest(sheet, shape, "posted", 46),
        What::Prepared => put_longest(sheet, shape, "prepared", 60),
        What::HeldBack(_) => put_longest(sheet, shape, "held back", 66),
        What::Blocked(holder) => {
            if number_width(holder).saturating_add(26) <= shape.width {
                shape.put_number(sheet, "by ", holder);
            } else {
                put_fitting(sheet, shape, "", holder);
            }
        }
    }
}

fn put_longest(sheet: &mut Sheet, shape: Shape, word: &str, width: u64) {
    if width <= shape.width {
        shape.put_word(sheet, word);
    }
}

fn put_fitting(sheet: &mut Sheet, shape: Shape, word: &str, number: u64) {
    if number_width(number) <= shape.width {
        shape.put_number(sheet, word, number);
    }
}

/// What is told of a bar where the pointer stands on it.
fn put_title(sheet: &mut Sheet, picture: &Picture, trace: &[Exchange], bar: Bar) {
    let place = bar.place;
    let tx = tx_of(picture, bar.lane);
    sheet.put(format_args!("tx {tx}, statement {place}"));
    match bar.what {
        What::Statement { answer } => put_answer(sheet, trace, answer),
        What::Posted => sheet.put(": posted, waits for partners"),
        What::Prepared => sheet.put(": COMMIT, waits for partners"),
        What::Blocked(holder) => sheet.put(format_args!(": blocked by tx {holder}")),
        What::HeldBack(demand) => put_demand(sheet, demand),
    }
    let (first, last) = (bar.first, bar.last);
    sheet.put(format_args!(", event {first} to {last}"));
}

/// The answer of a statement, which stands in the exchange of an index.
fn put_answer(sheet: &mut Sheet, trace: &[Exchange], answer: Option<usize>) {
    let Some(at) = answer else {
        return;
    };
    if let Some(exchange) = trace.get(at) {
        if let Reply::Stepped(text) = &exchange.reply {
            sheet.put(": ");
            sheet.put_text(text.as_slice());
        }
    }
}

fn put_demand(sheet: &mut Sheet, demand: Demand) {
    let (asker, post): (Tx, u64) = (demand.asker, demand.post);
    let (first, second): (Tx, Tx) = (demand.first, demand.second);
    sheet.put(format_args!(
        ": held back, since postcondition {post} of tx {asker} would fit tx {first} and tx {second}"
    ));
}

/// The transaction of a lane.
pub(crate) fn tx_of(picture: &Picture, lane: u64) -> Tx {
    match picture.lanes.get(lane as usize) {
        Some(lane) => lane.tx,
        None => 0,
    }
}

/// The number of the event of a column.
pub(crate) fn event_at(picture: &Picture, column: u64) -> u64 {
    match picture.columns.get(column as usize) {
        Some(event) => *event,
        None => 0,
    }
}

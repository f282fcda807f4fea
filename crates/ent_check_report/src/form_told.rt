//! What can stand at a line at which a text isn't a report.
use crate::page::Page;
use std::alloc::AllocError;
use std::str;

/// The most bytes of a line that is shown.
const MOST_BYTES: usize = 100;

/// What a line has to be that begins with this word.
fn wanted(word: &str) -> &'static str {
    match word {
        "opening" => {
            "opening NAME (COL KIND, ..) COUNT, above the scripts, names by bytes, 65,536 rows together at most"
        }
        "script" => {
            "script N LINES, N from 1, and LINES lines as a script is printed, within the limits and without a fault"
        }
        "tx" =>
            "tx N FATE, below the scripts, N from 1 to how many there are, after 1 to 1,000 runs",
        "joint" => {
            "joint J T.P T.P .., below all transactions and answers, J from 1, transactions rising"
        }
        "table" =>
            "table NAME COUNT, below all joint answers, the tables of the opening in its order",
        "end" => "end, below the last table and its rows, and nothing below it",
        _ => wanted_else(word),
    }
}

/// What a line has to be whose first word isn't fixed.
fn wanted_else(word: &str) -> &'static str {
    match word.as_bytes().first() {
        Some(b'(') => {
            "a row, as many as the COUNT above says, of the kinds of its columns, each after the one above"
        }
        Some(b'0'..=b'9') if word.contains('.') => {
            "T.P VAR=VALUE .., each member of the joint line in its order, with its written variables in theirs"
        }
        Some(b'0'..=b'9') => {
            "P ANSWER, below a transaction that committed, P from 1, of the sort of its statement"
        }
        _ => "a line of a report, in its exact form",
    }
}

/// Whether a line can be shown: it is short, and has only characters of ASCII that are seen.
fn can_be_shown(line: &str) -> bool {
    line.len() <= MOST_BYTES
        && line
            .as_bytes()
            .iter()
            .all(|byte| matches!(*byte, b' '..=b'~'))
}

/// A line, and whether it has an end.
#[derive(Clone, Copy)]
struct Line<'a> {
    text: &'a str,
    has_end: bool,
}

/// The line of a number of a text; none where the text ends above it.
fn line_at(text: &str, number: u64) -> Option<Line<'_>> {
    let mut rest = text;
    for _ in 1..number {
        rest = match rest.split_once('\n') {
            Some((_, behind)) => behind,
            None => return None,
        };
    }
    match rest.split_once('\n') {
        Some((text, _)) => Some(Line {
            text,
            has_end: true,
        }),
        None if rest.is_empty() => None,
        None => Some(Line {
            text: rest,
            has_end: false,
        }),
    }
}

/// Tells what stands in the line of a number.
fn tell_line(page: &mut Page, line: Line<'_>, number: u64) -> Result<(), AllocError> {
    page.words("found: ")?;
    if can_be_shown(line.text) {
        page.words(line.text)?;
    } else {
        page.words("line ")?;
        page.number(number)?;
        page.words(" of the report")?;
    }
    if !line.has_end {
        page.words(", without a line end")?;
    }
    page.words("\n")
}

/// Tells what can stand in the line of a number, and what stands there.
fn tell_at(page: &mut Page, line: Line<'_>, number: u64) -> Result<(), AllocError> {
    page.words("expected: ")?;
    if number == 1 {
        page.words("report 2, the version that can be checked (entangle run --report 2)\n")?;
    } else {
        page.words(wanted(line.text.split(' ').next().unwrap_or("")))?;
        page.words("\n")?;
    }
    tell_line(page, line, number)
}

/// Tells of the line at which a text isn't a report.
pub(crate) fn tell_form(page: &mut Page, text: &[u8], number: u64) -> Result<(), AllocError> {
    let Ok(text) = str::from_utf8(text) else {
        page.words("expected: a text in UTF-8\nfound: a byte that isn't, in line ")?;
        page.number(number)?;
        return page.words("\n");
    };
    match line_at(text, number) {
        Some(line) => tell_at(page, line, number),
        None => {
            page.words("expected: more lines, the last of them end\nfound: ")?;
            page.number(number.saturating_sub(1))?;
            page.words(" lines\n")
        }
    }
}

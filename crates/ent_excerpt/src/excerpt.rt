//! A line that is shown, with carets below it.
ghost use Rattle.std.specs.Prelude.{◌≡◌, ◌+◌, ◌≤◌, ◌<◌, ◌^◌, ◌↔◌, length, IsTrue};
ghost use Rattle.ent_excerpt.specs.Part.{IsEndOf, IsBeginningOf, char_columns, columns, width};

use crate::line::Line;
use std::fmt;
use std::fmt::Write;
use unicode_width::{UnicodeWidthChar, UnicodeWidthStr};

/// The most columns of a line that are shown.
const MOST_COLUMNS: usize = 100;

/// The columns that are kept behind the place where a line is cut.
const COLUMNS_BEHIND: usize = 40;

/// What is shown of a line: the end of what stands before a place in it, and the beginning of what stands from there
/// on, with the width of what is marked there. Lines of up to 100 columns are shown whole.
#[derive(Clone, Copy, Debug)]
pub struct Excerpt<'a> {
    pub before: &'a str,
    pub behind: &'a str,
    /// Whether the line's beginning is left out.
    pub is_cut_before: bool,
    /// Whether the line's end is left out.
    pub is_cut_behind: bool,
    /// How many carets stand below.
    pub carets: usize,
}

impl<'a> Excerpt<'a> {
    ghost use Rattle.ent_excerpt.specs.Excerpt.{IsExcerptOf};

    /// What is shown of a line, where so many columns are marked.
    pub fn of(line: Line<'a>, marked: usize) -> Self
        ensures { IsExcerptOf line.entry.before.now line.entry.behind.now result }
    {
        let parts = shown_parts(line.before, line.behind);
        let is_cut_before = is_shorter(parts.0, line.before);
        let is_cut_behind = is_shorter(parts.1, line.behind);
        let carets = carets_below(parts.1, marked);
        Excerpt {
            before: parts.0,
            behind: parts.1,
            is_cut_before,
            is_cut_behind,
            carets,
        }
    }
}

/// Whether a part is shorter than the text.
fn is_shorter(part: &str, text: &str) -> bool
    ensures { IsTrue result ↔ (length part.now < length text.now) }
{
    part.len() < text.len()
}

/// How many carets stand below what is shown behind a place, where so many columns are marked: one at least.
fn carets_below(shown: &str, marked: usize) -> usize
    ensures { 0 < result }
{
    marked.min(columns(shown)).max(1)
}

/// Whether the parts of a line take no more than 100 columns.
fn is_short(before: &str, behind: &str) -> bool
    ensures { IsTrue result ↔ (width before.now + width behind.now ≤ 100) }
{
    before.width().saturating_add(behind.width()) <= MOST_COLUMNS
}

/// The parts of a line that are shown: both, where they take no more than 100 columns.
fn shown_parts<'a>(before: &'a str, behind: &'a str) -> (&'a str, &'a str)
    ensures end { IsEndOf before.now result.0.now }
    ensures beginning { IsBeginningOf behind.now result.1.now }
    ensures whole { width before.now + width behind.now ≤ 100
        → (result.0.now ≡ before.now) × (result.1.now ≡ behind.now) }
{
    if is_short(before, behind) {
        return (before, behind);
    }
    let room = MOST_COLUMNS.saturating_sub(columns(behind).min(COLUMNS_BEHIND));
    let end = last_columns(before, room);
    let beginning = first_columns(behind, MOST_COLUMNS.saturating_sub(columns(end)));
    (end, beginning)
}

/// The columns that a character takes; a control character is shown as one other character.
fn columns_of(c: char) -> usize
    ensures { result ≡ char_columns c }
{
    c.width().unwrap_or(1)
}

/// How many columns the characters of a text take, each by itself, if 64 bits hold so many. A control character takes
/// one, as it is shown.
pub fn columns(text: &str) -> usize
    ensures { columns text.now < 2 ^ 64 → result ≡ columns text.now }
{
    let mut sum = 0usize;
    for c in text.chars() {
        sum = sum.saturating_add(columns_of(c));
    }
    sum
}

/// A beginning of a text: the longest that takes no more columns.
fn first_columns(text: &str, room: usize) -> &str
    ensures { IsBeginningOf text.now result.now }
{
    beginning(text, first_length(text, room))
}

/// How many bytes at the beginning take no more columns.
fn first_length(text: &str, room: usize) -> usize {
    let mut taken = 0usize;
    for (at, c) in text.char_indices() {
        taken = taken.saturating_add(columns_of(c));
        if taken > room {
            return at;
        }
    }
    text.len()
}

/// An end of a text: the longest that takes no more columns.
fn last_columns(text: &str, room: usize) -> &str
    ensures { IsEndOf text.now result.now }
{
    end(text, left_length(text, room))
}

/// How many bytes at the beginning have to go, for what is left to take no more columns.
fn left_length(text: &str, room: usize) -> usize {
    let mut left = columns(text);
    for (at, c) in text.char_indices() {
        if left <= room {
            return at;
        }
        left = left.saturating_sub(columns_of(c));
    }
    text.len()
}

/// So many bytes at the beginning of a text; all, where a character would be cut.
fn beginning(text: &str, length: usize) -> &str
    ensures { IsBeginningOf text.now result.now }
{
    match text.split_at_checked(length) {
        Some((front, _)) => front,
        None => text,
    }
}

/// What stands behind so many bytes; all, where a character would be cut.
fn end(text: &str, length: usize) -> &str
    ensures { IsEndOf text.now result.now }
{
    match text.split_at_checked(length) {
        Some((_, back)) => back,
        None => text,
    }
}

/// The character that is shown for another: itself, where that is no control character.
fn visible(c: char) -> char {
    if c.is_control() && c != '\t' {
        '\u{fffd}'
    } else {
        c
    }
}

/// Writes a text without control characters.
#[derive(Clone, Copy)]
struct Shown<'a>(&'a str);

impl fmt::Display for Shown<'_> {
    fn fmt<W: fmt::Write>(&self, f: &mut fmt::Formatter<W>) -> fmt::Result {
        for c in self.0.chars() {
            f.write_char(visible(c))?;
        }
        Ok(())
    }
}

/// Writes white space as wide as a text: tabs stay, since nothing else is as wide as one.
#[derive(Clone, Copy)]
struct Blank<'a>(&'a str);

impl fmt::Display for Blank<'_> {
    fn fmt<W: fmt::Write>(&self, f: &mut fmt::Formatter<W>) -> fmt::Result {
        let mut is_first = true;
        for part in self.0.split('\t') {
            if !is_first {
                f.write_char('\t')?;
            }
            is_first = false;
            for _ in 0..part.width() {
                f.write_char(' ')?;
            }
        }
        Ok(())
    }
}

impl fmt::Display for Excerpt<'_> {
    fn fmt<W: fmt::Write>(&self, f: &mut fmt::Formatter<W>) -> fmt::Result {
        let front = if self.is_cut_before { ".." } else { "" };
        let end = if self.is_cut_behind { ".." } else { "" };
        let before = Shown(self.before);
        let behind = Shown(self.behind.strip_suffix('\r').unwrap_or(self.behind));
        writeln!(f, "  {front}{before}{behind}{end}")?;
        let indent = if self.is_cut_before { "  " } else { "" };
        let blank = Blank(self.before);
        write!(f, "  {indent}{blank}")?;
        for _ in 0..self.carets {
            f.write_char('^')?;
        }
        Ok(())
    }
}

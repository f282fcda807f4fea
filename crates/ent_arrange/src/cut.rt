//! The text of an input, cut into the texts of its scripts.
ghost use Rattle.std.specs.Prelude.{◌≡◌, ◌++◌, IfOk};

use ent_text::{Keyword, Symbol, TokenView, Tokens};
use std::alloc::{AllocError, Global};

/// The text of an input in pieces: what stands before its scripts, the text of each script in order, and what stands
/// behind them.
///
/// The text of a script begins where the piece before it ends, so that the comments before a script are its own. A
/// piece ends with the line on which its last token stands, and the comment there; or behind that token, if another one
/// follows on that line.
#[derive(Drop)]
pub(crate) struct Cut<'a> {
    pub(crate) opening: &'a [u8],
    pub(crate) scripts: Vec<&'a [u8]>,
    pub(crate) rest: &'a [u8],
}

impl<'a> Cut<'a> {
    ghost use Rattle.ent_arrange.specs.Cut.{joined};

    /// The pieces of an input that has no fault. Of any text they are pieces, which make up that text.
    pub(crate) fn of(alloc: Global, text: &'a str) -> Result<Self, AllocError>
        ensures { IfOk result (λ cut. joined cut ≡ text.now) }
    {
        let ends = Ends::of(alloc, text)?;
        let (opening, rest) = split_behind_line(text.as_bytes(), ends.opening);
        let mut cut = Cut {
            opening,
            scripts: Vec::with_capacity(alloc, ends.scripts.len())?,
            rest,
        };
        for end in ends.scripts.as_slice() {
            let behind = text.len() - cut.rest.len();
            let (script, rest) = split_behind_line(cut.rest, end.saturating_sub(behind));
            cut.scripts.push(script)?;
            cut.rest = rest;
        }
        Ok(cut)
    }
}

/// Where the parts of an input end, each behind its last token, in bytes from the start of the text.
#[derive(Drop)]
struct Ends {
    /// The end of the declarations and opening rows.
    opening: usize,
    /// The end of each script.
    scripts: Vec<usize>,
}

impl Ends {
    /// Those of an input that has no fault: there BEGIN begins a script and stands nowhere else, and a script ends with
    /// the `;` behind its COMMIT or ROLLBACK.
    fn of(alloc: Global, text: &str) -> Result<Self, AllocError> {
        let mut ends = Ends {
            opening: 0,
            scripts: Vec::new(alloc),
        };
        let mut begun = false;
        let mut ending = false;
        let mut tokens = Tokens::of(text);
        while let Some(front) = tokens.front() {
            let part = part_of(front);
            let end = tokens.end(0);
            match part {
                Part::Begin => begun = true,
                Part::Ending => ending = true,
                Part::Semicolon if ending => {
                    ends.scripts.push(end)?;
                    ending = false;
                }
                Part::Semicolon if !begun => ends.opening = end,
                Part::Semicolon | Part::Other => {}
            }
            tokens = tokens.tail();
        }
        Ok(ends)
    }
}

/// What a token is for the end of a script.
#[derive(Clone, Copy, Debug, PartialEq, Eq)]
enum Part {
    Begin,
    /// COMMIT or ROLLBACK.
    Ending,
    Semicolon,
    Other,
}

fn part_of(token: &TokenView<'_>) -> Part {
    match token {
        TokenView::Word(Keyword::Begin) => Part::Begin,
        TokenView::Word(Keyword::Commit | Keyword::Rollback) => Part::Ending,
        TokenView::Sign(Symbol::Semicolon) => Part::Semicolon,
        _ => Part::Other,
    }
}

/// What stands up to a place and behind it on its line, where that is white space and a comment alone, and what stands
/// behind that.
fn split_behind_line(bytes: &[u8], place: usize) -> (&[u8], &[u8])
    ensures { result.0.now ++ result.1.now ≡ bytes.now }
{
    let behind = bytes.get(place..).unwrap_or(&[]);
    let end = place.saturating_add(blank_line_len(behind));
    bytes.split_at(end.min(bytes.len()))
}

/// How long the rest of a line is, with its end, where it is white space and a comment alone; else 0.
fn blank_line_len(bytes: &[u8]) -> usize {
    let blank = bytes
        .iter()
        .take_while(|byte| matches!(byte, b' ' | b'\t' | b'\r'))
        .count();
    let line = bytes.iter().take_while(|byte| **byte != b'\n').count();
    let behind = bytes.get(blank..).unwrap_or(&[]);
    if line > blank && !behind.starts_with(b"--") {
        return 0;
    }
    line.saturating_add(1).min(bytes.len())
}

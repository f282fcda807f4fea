//! The line that holds a place.
ghost use Rattle.std.specs.Prelude.{◌≡◌, take, drop};
ghost use Rattle.std.specs.Str.{IsCharBoundary};
ghost use Rattle.ent_excerpt.specs.Line.{IsLineAt, IsLastLine, IsFirstLine};

/// A line of a text, in two parts: what stands before a place in it, and from the place on. It ends before its LF.
#[derive(Clone, Copy, Debug)]
pub struct Line<'a> {
    pub before: &'a str,
    pub behind: &'a str,
}

impl<'a> Line<'a> {
    /// The line that holds an offset in bytes; within a character, the place is the character's.
    pub fn of(text: &'a str, offset: usize) -> Self
        ensures { IsCharBoundary text.now offset → IsLineAt text.now offset result.before.now result.behind.now }
    {
        let before = last_line(text_before(text, offset));
        let behind = first_line(text_behind(text, offset));
        Line { before, behind }
    }
}

/// What stands before an offset; within a character, before that.
pub(crate) fn text_before(text: &str, offset: usize) -> &str
    ensures { IsCharBoundary text.now offset → result.now ≡ take offset text.now }
{
    text.split_at(text.floor_char_boundary(offset)).0
}

/// What stands from an offset on; within a character, from that on.
fn text_behind(text: &str, offset: usize) -> &str
    ensures { IsCharBoundary text.now offset → result.now ≡ drop offset text.now }
{
    text.split_at(text.floor_char_boundary(offset)).1
}

/// What stands behind the last LF, or all.
fn last_line(text: &str) -> &str
    ensures { IsLastLine text.now result.now }
{
    match text.rsplit_once('\n') {
        Some((_, line)) => line,
        None => text,
    }
}

/// What stands before the first LF, or all.
fn first_line(text: &str) -> &str
    ensures { IsFirstLine text.now result.now }
{
    match text.split_once('\n') {
        Some((line, _)) => line,
        None => text,
    }
}

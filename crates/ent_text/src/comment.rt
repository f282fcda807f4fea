//! Comments.
ghost use Rattle.std.specs.Prelude.{◌≡◌, ◌≤◌, length};
ghost use Rattle.std.specs.List.{prefix_len};
ghost use Rattle.ent_text.specs.Spelling.{is_in_line};
ghost use Rattle.ent_text.specs.Lexing.{after, begins_comment};

/// Whether these bytes begin a comment.
pub(crate) fn begins_comment(bytes: &[u8]) -> bool
    ensures { result ≡ begins_comment bytes.now }
{
    bytes.starts_with(b"--")
}

fn line_len(bytes: &[u8]) -> usize
    ensures value { result ≡ prefix_len is_in_line bytes.now }
    ensures bound { result ≤ length bytes.now }
{
    bytes.iter().take_while(|byte| **byte != b'\n').count()
}

/// What stands behind the rest of the line: its LF and the bytes that follow, or nothing.
pub(crate) fn behind_line(bytes: &[u8]) -> &[u8]
    ensures { result.now ≡ after is_in_line bytes.now }
{
    bytes.split_at(line_len(bytes)).1
}

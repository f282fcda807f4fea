//! Texts of a trace, made fit to stand in XML.
ghost use Rattle.std.specs.Prelude.{◌≡◌, ◌++◌, ℕ, List, IfOk, OnOk};
ghost use Rattle.ent_picture.specs.Escape.{IsCharacterData, escape, escaped};

use std::alloc::{AllocError, Global};

/// Puts a byte at the end, written so that it is no markup.
#[tactic(auto, using(crate::proofs::Escaping::escape_other))]
fn put(text: &mut Vec<u8>, byte: u8) -> Result<(), AllocError>
    ensures { OnOk result (text.new.items ≡ text.old.items ++ escape byte) }
{
    if byte == b'<' {
        text.extend_from_slice(b"&lt;")
    } else if byte == b'>' {
        text.extend_from_slice(b"&gt;")
    } else if byte == b'&' {
        text.extend_from_slice(b"&amp;")
    } else if byte == b'"' {
        text.extend_from_slice(b"&quot;")
    } else {
        text.push(byte)?;
        Ok(())
    }
}

/// A text with the characters that would be markup, `<`, `>`, `&` and `"`, written by their names.
pub fn escaped(alloc: Global, text: &[u8]) -> Result<Vec<u8>, AllocError>
    ensures { IfOk result (λ made. made.items ≡ escaped text.now) }
{
    let mut made = Vec::new(alloc);
    for byte in text {
        put(&mut made, *byte)?;
    }
    Ok(made)
}

/// A law, which does nothing: what is written so holds no markup. It is the names of the four characters, and bytes
/// that are none of these, one after the other.
#[tactic(auto, using(crate::proofs::Escaping::escaped_is_data))]
pub fn escaped_texts_hold_no_markup()
    ensures { (text : List ℕ) → IsCharacterData (escaped text) }
{}

/// A UTF-8 text in which the two code points that no XML may hold, U+FFFE and U+FFFF, are U+FFFD. Of three bytes each,
/// they differ from that in the last.
pub(crate) fn without_noncharacters(alloc: Global, text: &[u8]) -> Result<Vec<u8>, AllocError> {
    let mut made = Vec::new(alloc);
    let mut before = (0u8, 0u8);
    for byte in text {
        let shown = if before == (0xef, 0xbf) && *byte > 0xbd {
            0xbd
        } else {
            *byte
        };
        made.push(shown)?;
        before = (before.1, *byte);
    }
    Ok(made)
}

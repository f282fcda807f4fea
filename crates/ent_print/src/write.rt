//! A text written whole.
ghost use Rattle.std.specs.Prelude.{◌≡◌, OnOk, OnErr, is_err};
ghost use Rattle.std.specs.Io.KnownBytes.{Appends};
ghost use Rattle.ent_value.specs.Watched.{IsUnmarked};
ghost use Rattle.ent_print.specs.Write.{AppendsBeginning, is_marked};

use ent_value::Watched;
use std::io::Write;
use thiserror::Error;

/// The writer failed, or took no byte of some; what it took is a beginning of the text.
#[derive(Clone, Copy, Debug, PartialEq, Eq, Error)]
#[error("E602: the text can't be written")]
pub struct WriteFault;

/// Writes a text, and hands on what the writer holds back. Where the writer fails, or takes no byte of some, it has a
/// beginning of the text.
///
/// The writer is handed in unmarked, as [`Watched::new`] makes it, so that its marks tell of this call.
pub fn write_whole<W: Write>(writer: &mut Watched<W>, text: &[u8]) -> Result<(), WriteFault>
    requires unmarked { IsUnmarked writer.old }
    ensures written { OnOk result (Appends (W.contents writer.old.inner) (W.contents writer.new.inner) text.now) }
    // What went out before a fault is a beginning of the text.
    ensures beginning { OnErr result
        (AppendsBeginning (W.contents writer.old.inner) (W.contents writer.new.inner) text.now) }
    // A fault is answered exactly where the writer failed, or took no byte.
    ensures marks { is_marked writer.new ≡ is_err result }
{
    let mut rest = text;
    while !rest.is_empty() {
        match writer.write(rest) {
            Ok(0) | Err(_) => return Err(WriteFault),
            Ok(count) => rest = rest.split_at(count).1,
        }
    }
    match writer.flush() {
        Ok(()) => Ok(()),
        Err(_) => Err(WriteFault),
    }
}

//! The text over which a fault is explained.
ghost use Rattle.std.specs.Prelude.{◌≡◌, take};
ghost use Rattle.std.specs.Str.{IsUtf8};
ghost use Rattle.std.specs.Str.Lossy.{utf8_valid_len};

use std::str;

/// The longest beginning of some bytes that is UTF-8: all of them, where they are. It is the text over which a fault of
/// these bytes is explained.
pub fn valid_text(bytes: &[u8]) -> &str
    ensures { result.now ≡ take (utf8_valid_len bytes.now) bytes.now }
{
    match str::from_utf8(bytes) {
        Ok(text) => text,
        Err(fault) => text_of(bytes.split_at(fault.valid_up_to()).0),
    }
}

/// The text that some bytes are.
fn text_of(bytes: &[u8]) -> &str
    requires { IsUtf8 bytes.now }
    ensures { result.now ≡ bytes.now }
{
    match str::from_utf8(bytes) {
        Ok(text) => text,
        Err(_) => unreachable!(),
    }
}

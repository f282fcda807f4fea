//! JSON, put at the end of bytes. Where memory runs out, some of it may have been put.
ghost use Rattle.std.specs.Prelude.{◌≡◌, ◌++◌, ◌<◌, List, ℕ, OnOk};
ghost use Rattle.std.specs.Fmt.{decimal};
ghost use Rattle.ent_feed.specs.Json.{escaped, escaped_byte, hex_digit, list_json, more_json, items_json};
ghost use Rattle.ent_feed.specs.Json.{object_json, text_json};

use std::alloc::{AllocError, Global};

/// What has a place in a line of JSON.
pub(crate) trait Json {
    ghost json: { Self → List ℕ };

    fn put(&self, alloc: Global, out: &mut Vec<u8>) -> Result<(), AllocError>
        ensures { OnOk result (out.new.items ≡ out.old.items ++ json self.now) };
}

/// A number in decimal digits.
pub(crate) fn put_number(alloc: Global, out: &mut Vec<u8>, number: u64) -> Result<(), AllocError>
    ensures { OnOk result (out.new.items ≡ out.old.items ++ decimal number) }
{
    let digits = format!(in alloc; "{number}")?;
    out.extend_from_slice(digits.as_bytes())
}

fn hex_digit(number: u8) -> u8
    requires { number < 16 }
    ensures { result ≡ hex_digit number }
{
    if number < 10 {
        number + b'0'
    } else {
        number + 87
    }
}

/// A control character, by its number.
fn put_control(out: &mut Vec<u8>, byte: u8) -> Result<(), AllocError>
    requires { byte < 32 }
    ensures { OnOk result (out.new.items ≡ out.old.items ++ escaped_byte byte) }
{
    out.extend_from_slice(b"\\u00")?;
    out.push(hex_digit(byte / 16))?;
    out.push(hex_digit(byte % 16))?;
    Ok(())
}

/// A byte of a text.
fn put_byte(out: &mut Vec<u8>, byte: u8) -> Result<(), AllocError>
    ensures { OnOk result (out.new.items ≡ out.old.items ++ escaped_byte byte) }
{
    if byte == b'"' {
        return out.extend_from_slice(b"\\\"");
    }
    if byte == b'\\' {
        return out.extend_from_slice(b"\\\\");
    }
    if byte < 32 {
        return put_control(out, byte);
    }
    out.push(byte)?;
    Ok(())
}

/// The bytes of a text, each as it stands in quotes.
fn put_escaped(out: &mut Vec<u8>, bytes: &[u8]) -> Result<(), AllocError>
    ensures { OnOk result (out.new.items ≡ out.old.items ++ escaped bytes.now) }
{
    for byte in bytes {
        put_byte(out, *byte)?;
    }
    Ok(())
}

/// A text, in quotes.
pub(crate) fn put_text(out: &mut Vec<u8>, bytes: &[u8]) -> Result<(), AllocError>
    ensures { OnOk result (out.new.items ≡ out.old.items ++ text_json bytes.now) }
{
    out.push(b'"')?;
    put_escaped(out, bytes)?;
    out.push(b'"')?;
    Ok(())
}

/// Each behind a comma.
fn put_more<T: Json>(alloc: Global, out: &mut Vec<u8>, items: &[T]) -> Result<(), AllocError>
    ensures { OnOk result (out.new.items ≡ out.old.items ++ more_json T.json items.now) }
{
    for item in items {
        out.push(b',')?;
        item.put(alloc, out)?;
    }
    Ok(())
}

/// With commas between them.
fn put_items<T: Json>(alloc: Global, out: &mut Vec<u8>, items: &[T]) -> Result<(), AllocError>
    ensures { OnOk result (out.new.items ≡ out.old.items ++ items_json T.json items.now) }
{
    match items {
        [] => Ok(()),
        [first, more @ ..] => {
            first.put(alloc, out)?;
            put_more(alloc, out, more)
        }
    }
}

/// In brackets.
pub(crate) fn put_list<T: Json>(
    alloc: Global,
    out: &mut Vec<u8>,
    items: &[T],
) -> Result<(), AllocError>
    ensures { OnOk result (out.new.items ≡ out.old.items ++ list_json T.json items.now) }
{
    out.push(b'[')?;
    put_items(alloc, out, items)?;
    out.push(b']')?;
    Ok(())
}

/// Names with their values, in braces.
pub(crate) fn put_object<T: Json>(
    alloc: Global,
    out: &mut Vec<u8>,
    members: &[T],
) -> Result<(), AllocError>
    ensures { OnOk result (out.new.items ≡ out.old.items ++ object_json T.json members.now) }
{
    out.push(b'{')?;
    put_items(alloc, out, members)?;
    out.push(b'}')?;
    Ok(())
}

/// A number behind a label.
pub(crate) fn put_numbered(
    alloc: Global,
    out: &mut Vec<u8>,
    label: &[u8],
    number: u64,
) -> Result<(), AllocError>
    ensures { OnOk result (out.new.items ≡ out.old.items ++ (label.now ++ decimal number)) }
{
    out.extend_from_slice(label)?;
    put_number(alloc, out, number)
}

/// A list behind a label.
pub(crate) fn put_listed<T: Json>(
    alloc: Global,
    out: &mut Vec<u8>,
    label: &[u8],
    items: &[T],
) -> Result<(), AllocError>
    ensures { OnOk result (out.new.items ≡ out.old.items ++ (label.now ++ list_json T.json items.now)) }
{
    out.extend_from_slice(label)?;
    put_list(alloc, out, items)
}

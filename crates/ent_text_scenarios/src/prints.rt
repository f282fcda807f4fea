//! Scripts as text: `== prints`, then an input a line. Its scripts are printed, and what is printed is read again.
//! Copies of scripts: `== copies`, then an input a line.
use crate::input::input_of;
use crate::streams::put_taken;
use crate::trees::put_input;
use anyhow::{Context, Result};
use ent_print::print_script;
use ent_scenario_files::replies::{Out, put, yes_or_no};
use ent_scenario_files::words::unescaped;
use ent_tree::{Duplicate, Input, Same, Script};
use std::alloc::Global;

pub(crate) fn reply(alloc: Global, line: &str, out: &mut Out) -> Result<()> {
    let text = unescaped(alloc, line)?;
    match input_of(alloc, text.as_str()) {
        Some(input) => put_printed(alloc, text.as_str(), &input, out),
        None => {
            put(out, "no sentence");
            Ok(())
        }
    }
}

/// The printed scripts of an input, behind what is said of reading them after the same opening.
fn put_printed(alloc: Global, text: &str, input: &Input, out: &mut Out) -> Result<()> {
    let printed = printed(alloc, input.scripts.as_slice())?;
    put_again(alloc, text, printed.as_slice(), input, out)?;
    put_taken(out, printed.as_slice());
    Ok(())
}

/// Reads the printed scripts after the opening of a text, and says how they compare with those of its input.
fn put_again(
    alloc: Global,
    text: &str,
    printed: &[u8],
    input: &Input,
    out: &mut Out,
) -> Result<()> {
    let again = text_again(alloc, text, printed)?;
    let read = input_of(alloc, again.as_str());
    drop(again);
    match read {
        Some(read) => put_comparison(alloc, input, &read, out),
        None => {
            put(out, "no sentence: ");
            Ok(())
        }
    }
}

/// Printed scripts after the opening of a text.
fn text_again(alloc: Global, text: &str, printed: &[u8]) -> Result<String> {
    let mut again = Vec::new(alloc);
    again.extend_from_slice(opening_of(text).as_bytes())?;
    again.extend_from_slice(printed)?;
    String::from_utf8(again).context("the printed scripts aren't UTF-8")
}

/// The text before the first script, whose words are in capitals.
fn opening_of(text: &str) -> &str {
    match text.split_once("BEGIN") {
        Some((opening, _)) => opening,
        None => text,
    }
}

fn printed(alloc: Global, scripts: &[Script]) -> Result<Vec<u8>> {
    let mut text = Vec::new(alloc);
    for script in scripts {
        let printed = print_script(alloc, script)?;
        text.extend_from_slice(printed.as_slice())?;
    }
    Ok(text)
}

fn put_comparison(alloc: Global, one: &Input, other: &Input, out: &mut Out) -> Result<()> {
    let one = places_aside(alloc, one)?;
    let other = places_aside(alloc, other)?;
    put(
        out,
        if one == other {
            "the same: "
        } else {
            "another: "
        },
    );
    Ok(())
}

/// The tree of an input without the places, which are digits behind an `@`.
fn places_aside(alloc: Global, input: &Input) -> Result<Vec<u8>> {
    let mut shown = Out::new(alloc);
    put_input(alloc, input, &mut shown);
    let shown = shown.into_bytes()?;
    let mut kept = Vec::new(alloc);
    let mut is_place = false;
    for byte in shown.as_slice() {
        is_place = *byte == b'@' || is_place && byte.is_ascii_digit();
        if !is_place {
            kept.push(*byte)?;
        }
    }
    Ok(kept)
}

/// Replies to `== copies`.
pub(crate) fn reply_to_copies(alloc: Global, line: &str, out: &mut Out) -> Result<()> {
    let text = unescaped(alloc, line)?;
    let read = input_of(alloc, text.as_str());
    drop(text);
    match read {
        Some(input) => put_sameness(alloc, input.scripts.as_slice(), out),
        None => {
            put(out, "no sentence");
            Ok(())
        }
    }
}

/// Whether a copy of the first script is the same as each script, places included.
fn put_sameness(alloc: Global, scripts: &[Script], out: &mut Out) -> Result<()> {
    let [first, ..] = scripts else {
        put(out, "no script");
        return Ok(());
    };
    let copy = first.copy(alloc)?;
    put_each_sameness(&copy, scripts, out);
    Ok(())
}

fn put_each_sameness(copy: &Script, scripts: &[Script], out: &mut Out) {
    let mut before = "";
    for script in scripts {
        put(out, before);
        put(out, yes_or_no(copy.is_same(script)));
        before = " ";
    }
}

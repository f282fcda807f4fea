//! The text of scripts.
ghost use Rattle.std.specs.Prelude.{◌≡◌, ◌++◌, OnOk};
ghost use Rattle.ent_book.specs.Report2.{line_count, numbered_script_text, scripts_text};

use crate::piece::append_number;
use ent_print::print_script;
use ent_tree::Script;
use std::alloc::{AllocError, Global};

/// How many lines are ended in a text, each by its LF.
pub fn line_count(text: &[u8]) -> u64
    ensures { result ≡ line_count text.now }
{
    let mut count = 0u64;
    for byte in text {
        if *byte == b'\n' {
            count += 1;
        }
    }
    count
}

#[tactic(auto, unfolding(crate::specs::Report2::numbered_script_text))]
fn append_script(
    alloc: Global,
    out: &mut Vec<u8>,
    number: u64,
    script: &Script,
) -> Result<(), AllocError>
    ensures { OnOk result (out.new.items ≡ out.old.items ++ numbered_script_text number script.now) }
{
    let text = print_script(alloc, script)?;
    out.extend_from_slice(b"script ")?;
    append_number(alloc, out, number)?;
    out.push(b' ')?;
    append_number(alloc, out, line_count(text.as_slice()))?;
    out.push(b'\n')?;
    out.extend_from_slice(text.as_slice())
}

/// Scripts in order, from number 1.
pub(crate) fn append_scripts(
    alloc: Global,
    out: &mut Vec<u8>,
    scripts: &[Script],
) -> Result<(), AllocError>
    ensures { OnOk result (out.new.items ≡ out.old.items ++ scripts_text 1 scripts.now) }
{
    let mut number = 1u64;
    for script in scripts {
        append_script(alloc, out, number, script)?;
        number += 1;
    }
    Ok(())
}

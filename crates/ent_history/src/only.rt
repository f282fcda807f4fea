//! The one script whose printed text a text can be.
ghost use Rattle.std.specs.Prelude.{◌≡◌, IfOk};
ghost use Rattle.ent_history.specs.Only.{IsOnlyOne};

use crate::unplaced::Unplaced;
use ent_print::places_do_not_show;
use ent_sql::parse_input;
use ent_sql_laws::{printed_text_is_itself, read_scripts_can_be_printed};
use ent_tree::Script;
use ent_value::Refusal;
use std::alloc::{AllocError, Global};

/// The script that the text says, without places, where it says one script; what else stands in the text isn't looked
/// at. If the text is a script's as it is printed, then this one's.
pub(crate) fn only_script(alloc: Global, text: &str) -> Result<Option<Script>, AllocError>
    ensures { IfOk result (IsOnlyOne text.now) }
{
    printed_text_is_itself();
    read_scripts_can_be_printed();
    places_do_not_show();
    let input = match parse_input(alloc, text) {
        Ok(input) => input,
        Err(Refusal::Memory) => return Err(AllocError),
        Err(Refusal::Fault(_)) => return Ok(None),
    };
    match input.scripts.as_slice() {
        [script] => Ok(Some(script.unplaced(alloc)?)),
        _ => Ok(None),
    }
}

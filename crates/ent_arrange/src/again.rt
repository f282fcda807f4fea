//! An arranged text read again: whether it is the input with its scripts in another order.
ghost use Rattle.std.specs.Prelude.{◌≡◌, ◌↔◌, length, map, IfOk, IsTrue};
ghost use Rattle.std.specs.List.{range_with_len};
ghost use Rattle.std.specs.List.Sorted.{IsPermutation};
ghost use Rattle.ent_print.specs.Printing.{script_text};
ghost use Rattle.ent_arrange.specs.Arranged.{ArePicked, IsArranged, WasRead};

use ent_print::print_script;
use ent_sql_laws::read_script_is_itself;
use ent_tree::{Input, Same, Script};
use ent_value::Sequence;
use std::alloc::{AllocError, Global};

/// Whether two scripts are printed alike.
fn are_alike(alloc: Global, one: &Script, other: &Script) -> Result<bool, AllocError>
    ensures { IfOk result (λ alike. IsTrue alike ↔ (script_text one.now ≡ script_text other.now)) }
{
    let one = print_script(alloc, one)?;
    let other = print_script(alloc, other)?;
    Ok(one.as_slice() == other.as_slice())
}

/// Whether scripts are printed as those of other ones at these indices.
fn are_picked(
    alloc: Global,
    scripts: &Sequence<Script>,
    indices: &[usize],
    picked: &[Script],
) -> Result<bool, AllocError>
    ensures { IfOk result (λ same. IsTrue same
        → ArePicked (map script_text scripts.now) indices.now (map script_text picked.now)) }
{
    if picked.len() != indices.len() {
        return Ok(false);
    }
    for (place, index) in indices.iter().enumerate() {
        let Some(script) = scripts.get(*index) else {
            return Ok(false);
        };
        if !are_alike(alloc, script, &picked[place])? {
            return Ok(false);
        }
    }
    Ok(true)
}

/// Whether what was read again is an input with its scripts in this order. It compares the scripts as they are printed,
/// and a printed script is read as that script.
pub(crate) fn is_arranged(
    alloc: Global,
    input: &Input,
    order: &[usize],
    again: &Input,
) -> Result<bool, AllocError>
    requires input { WasRead input.now }
    requires again { WasRead again.now }
    requires order { IsPermutation (range_with_len 0 (length input.now.scripts)) order.now }
    ensures { IfOk result (λ arranged. IsTrue arranged → IsArranged input.now again.now) }
{
    read_script_is_itself();
    if !again.opening.is_same(&input.opening) {
        return Ok(false);
    }
    are_picked(alloc, &input.scripts, order, again.scripts.as_slice())
}

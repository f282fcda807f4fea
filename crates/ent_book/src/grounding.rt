//! The text of groundings: what each written variable of a member stands for.
ghost use Rattle.std.specs.Prelude.{◌≡◌, ◌++◌, OnOk};
ghost use Rattle.ent_book.specs.Report2.{binding_text, bindings_text, grounded_joints_text, grounding_line};
ghost use Rattle.ent_book.specs.Report2.{groundings_text};

use crate::joint::{append_joint, append_member_place};
use crate::variables::member_variables;
use ent_semantics::{JointAnswer, Member};
use ent_tree::Script;
use ent_value::{Name, Value, print_value};
use std::alloc::{AllocError, Global};

/// A variable and its value, behind a space.
fn append_binding(
    alloc: Global,
    out: &mut Vec<u8>,
    name: &Name,
    value: &Value,
) -> Result<(), AllocError>
    ensures { OnOk result (out.new.items ≡ out.old.items ++ binding_text name.now value.now) }
{
    out.push(b' ')?;
    out.extend_from_slice(name.as_bytes())?;
    out.push(b'=')?;
    print_value(alloc, out, value)
}

/// Variables and their values, each behind a space.
fn append_bindings(
    alloc: Global,
    out: &mut Vec<u8>,
    names: &[Name],
    values: &[Value],
) -> Result<(), AllocError>
    ensures { OnOk result (out.new.items ≡ out.old.items ++ bindings_text names.now values.now) }
{
    let mut rest = values;
    for name in names {
        match rest.split_first() {
            Some((value, more)) => {
                append_binding(alloc, out, name, value)?;
                rest = more;
            }
            None => return Ok(()),
        }
    }
    Ok(())
}

fn append_grounding(
    alloc: Global,
    out: &mut Vec<u8>,
    scripts: &[Script],
    member: &Member,
) -> Result<(), AllocError>
    ensures { OnOk result (out.new.items ≡ out.old.items ++ grounding_line scripts.now member.now) }
{
    let names = member_variables(alloc, scripts, member)?;
    append_member_place(alloc, out, member)?;
    append_bindings(alloc, out, names.as_slice(), member.grounding.as_slice())?;
    out.push(b'\n')?;
    Ok(())
}

fn append_groundings(
    alloc: Global,
    out: &mut Vec<u8>,
    scripts: &[Script],
    members: &[Member],
) -> Result<(), AllocError>
    ensures { OnOk result (out.new.items ≡ out.old.items ++ groundings_text scripts.now members.now) }
{
    for member in members {
        append_grounding(alloc, out, scripts, member)?;
    }
    Ok(())
}

/// Joint answers in the order made, from number 1, each followed by the groundings of its members.
pub(crate) fn append_grounded_joints(
    alloc: Global,
    out: &mut Vec<u8>,
    scripts: &[Script],
    joints: &[JointAnswer],
) -> Result<(), AllocError>
    ensures { OnOk result (out.new.items ≡ out.old.items ++ grounded_joints_text scripts.now 1 joints.now) }
{
    let mut number = 1u64;
    for joint in joints {
        append_joint(alloc, out, number, joint)?;
        append_groundings(alloc, out, scripts, joint.members.as_slice())?;
        number += 1;
    }
    Ok(())
}

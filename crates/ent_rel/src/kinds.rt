//! Kinds of rows.
ghost use Rattle.std.specs.Prelude.{◌≡◌, ◌↔◌, IsTrue};
ghost use Rattle.std.specs.Bool.{OnTrue};
ghost use Rattle.ent_value.specs.Value.{kind_of, kinds_of};
ghost use Rattle.ent_page.specs.Key.{IsStorable, AreStorable};

use ent_value::{Kind, Value};

/// Whether values have these kinds. Where they have, their key tells them.
pub(crate) fn have_kinds(values: &[Value], kinds: &[Kind]) -> bool
    ensures kinds { IsTrue result ↔ (kinds_of values.now ≡ kinds.now) }
    ensures stored { OnTrue result (AreStorable values.now) }
{
    if values.len() != kinds.len() {
        return false;
    }
    for (number, value) in values.iter().enumerate() {
        if !has_kind(value, kinds[number]) {
            return false;
        }
    }
    true
}

fn has_kind(value: &Value, kind: Kind) -> bool
    ensures kind { IsTrue result ↔ (kind_of value.now ≡ kind) }
    ensures stored { IsStorable value.now }
{
    match value {
        Value::Int(number) => {
            let _number = *number;
            kind == Kind::Int
        }
        Value::Text(text) => {
            let _bytes = text.as_bytes();
            kind == Kind::Text
        }
    }
}

/// Whether two lists of kinds are the same.
pub(crate) fn are_same_kinds(left: &[Kind], right: &[Kind]) -> bool
    ensures { IsTrue result ↔ (left.now ≡ right.now) }
{
    left == right
}

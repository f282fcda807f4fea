//! What operands are worth.
ghost use Rattle.std.specs.Prelude.{◌≡◌};
ghost use Rattle.std.specs.Option.{option_copied};
ghost use Rattle.ent_semantics.specs.Term.{no_value};
ghost use Rattle.ent_ordinary.specs.Early.{value_there};
ghost use Rattle.ent_ordinary.specs.Worth.{worth_over};

use ent_semantics::Operand;
use ent_value::Value;

/// The value of an operand over a row; a column that isn't there stands for `none`.
pub fn operand_value<'a>(
    row: &'a [Value],
    operand: &'a Operand<Value>,
    none: &'a Value,
) -> &'a Value
    requires { none.now ≡ no_value }
    ensures { result.now ≡ worth_over row.now operand.now }
{
    match operand {
        Operand::Known(value) => value,
        Operand::Column(number) => row.get(*number).unwrap_or(none),
    }
}

/// The value of an operand over the front of a row, where it is there.
pub(crate) fn operand_there<'a>(
    front: &'a [Value],
    operand: &'a Operand<Value>,
) -> Option<&'a Value>
    ensures { option_copied result ≡ value_there front.now operand.now }
{
    match operand {
        Operand::Known(value) => Some(value),
        Operand::Column(number) => front.get(*number),
    }
}

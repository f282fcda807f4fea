//! What terms are worth under a grounding.
ghost use Rattle.std.specs.Prelude.{◌≡◌, IfOk, map};
ghost use Rattle.ent_semantics.specs.Form.{term_worth};
ghost use Rattle.ent_ordinary.specs.Worth.{itself};
ghost use Rattle.ent_semantics.specs.Selection.{holds};
ghost use Rattle.ent_semantics.specs.Term.{no_value};

use ent_ordinary::compares;
use ent_semantics::Term;
use ent_tree::{MOST_PARTS, Test};
use ent_value::{Limited, Row, Value};
use std::alloc::{AllocError, Global};

/// The value of a term under a grounding; a variable that has none stands for `none`.
pub(crate) fn term_value<'a>(
    grounding: &'a [Value],
    term: &'a Term<Value>,
    none: &'a Value,
) -> &'a Value
    requires { none.now ≡ no_value }
    ensures { result.now ≡ term_worth itself grounding.now term.now }
{
    match term {
        Term::Known(value) => value,
        Term::Variable(number) => grounding.get(*number).unwrap_or(none),
    }
}

/// The values of terms under a grounding, as a row.
pub(crate) fn terms_row(
    alloc: Global,
    grounding: &[Value],
    terms: &Limited<Term<Value>, MOST_PARTS>,
) -> Result<Row, AllocError>
    ensures { IfOk result (λ row. row ≡ map (term_worth itself grounding.now) terms.now) }
{
    let none = Value::Int(0);
    let mut values = Vec::with_capacity(alloc, terms.len())?;
    for term in terms.as_slice() {
        values.push(term_value(grounding, term, &none).copy(alloc)?)?;
    }
    Ok(Row::from_vec(values))
}

/// Whether a test between terms is true under a grounding.
pub(crate) fn test_holds(grounding: &[Value], test: &Test<Term<Value>>) -> bool
    ensures { result ≡ holds (term_worth itself grounding.now) test.now }
{
    let none = Value::Int(0);
    let left = term_value(grounding, &test.left, &none);
    let right = term_value(grounding, &test.right, &none);
    compares(test.comparison, left.cmp(right))
}

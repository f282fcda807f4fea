//! Tuples of terms, and whether two of them can be one.
ghost use Rattle.std.specs.Prelude.{◌≡◌, ◌<◌, ◌≤◌, length, slice_index_or, IsTrue};
ghost use Rattle.ent_semantics.specs.Term.{no_value};
ghost use Rattle.ent_unify.specs.Side.{seen, IsWithinBounds};
ghost use Rattle.ent_unify.specs.Equation.{seen_equation, AreWithinBounds, AreRefuted, IsDecided};
ghost use Rattle.ent_unify.specs.Tuple.{AreOtherValues, term_side, tuple_equations};

use crate::equation::{Equation, solve};
use crate::side::{Side, value_is_within_bounds};
use crate::variable::Variable;
use ent_semantics::Term;
use ent_tree::MOST_PARTS;
use ent_value::{Kind, Value};

/// The terms of an atom, with its member and the kinds of that member's variables.
#[derive(Clone, Copy)]
pub(crate) struct Tuple<'a> {
    pub member: usize,
    pub kinds: &'a [Kind],
    pub terms: &'a [Term<Value>],
}

/// Whether two terms are values that differ.
fn are_other_values(term: &Term<Value>, other: &Term<Value>) -> bool
    ensures { IsTrue result → AreOtherValues term.now other.now }
{
    match (term, other) {
        (Term::Known(value), Term::Known(other)) => *value != *other,
        _ => false,
    }
}

impl<'a> Tuple<'a> {
    /// The value or the variable that a term is; `none` stands for a variable that the member doesn't have.
    fn side(self, term: &'a Term<Value>, none: &'a Value) -> Side<'a>
        requires { none.now ≡ no_value }
        ensures value { seen result ≡ term_side self.entry.member self.entry.kinds.now term.now }
        ensures bound { IsWithinBounds (seen result) }
    {
        match term {
            Term::Known(value) => {
                value_is_within_bounds(value);
                Side::Constant(value)
            }
            Term::Variable(index) => match self.kinds.get(*index) {
                Some(kind) => Side::Variable(Variable {
                    member: self.member,
                    index: *index,
                    kind: *kind,
                }),
                None => Side::Constant(none),
            },
        }
    }

    /// The equation of the two terms in one column.
    pub(crate) fn equation(self, other: Tuple<'a>, column: usize, none: &'a Value) -> Equation<'a>
        requires left { column < length self.terms.now }
        requires right { column < length other.terms.now }
        requires none { none.now ≡ no_value }
        ensures value { seen_equation result
            ≡ slice_index_or (tuple_equations self.entry other.entry) column (seen_equation result) }
        ensures bound { AreWithinBounds (seen_equation result) }
    {
        Equation {
            left: self.side(&self.terms[column], none),
            right: other.side(&other.terms[column], none),
        }
    }

    /// Whether the terms in some column are values that differ, whatever stands in the other columns. Most tuples that
    /// can't be one are told by this, which makes no equation.
    pub(crate) fn has_column_apart(self, other: Tuple<'a>) -> bool
        requires columns { length self.terms.now ≡ length other.terms.now }
        ensures { IsTrue result → AreRefuted (tuple_equations self.entry other.entry) }
    {
        for column in 0..self.terms.len() {
            if are_other_values(&self.terms[column], &other.terms[column]) {
                return true;
            }
        }
        false
    }

    /// Whether the two can be one. It has the room of its equations to itself: most tuples are told apart without it.
    #[inline(never)]
    pub(crate) fn unifies(self, other: Tuple<'a>, none: &'a Value) -> bool
        requires columns { length self.terms.now ≡ length other.terms.now }
        requires limit { length self.terms.now ≤ MOST_PARTS }
        requires none { none.now ≡ no_value }
        ensures { IsDecided (tuple_equations self.entry other.entry) result }
    {
        let unset = Equation {
            left: Side::Constant(none),
            right: Side::Constant(none),
        };
        let mut equations = [unset; MOST_PARTS];
        for column in 0..self.terms.len() {
            equations[column] = self.equation(other, column, none);
        }
        solve(&mut equations[..self.terms.len()])
    }
}

//! Equations between values and variables, and how they are solved.
ghost use Rattle.std.specs.Prelude.{◌≡◌, [], ◌∷◌, All, map};
ghost use Rattle.ent_unify.specs.Side.{seen, single, IsWithinBounds};
ghost use Rattle.ent_unify.specs.Equation.{seen_equation, resolved_both, AreWithinBounds, Settles};

use crate::side::Side;
use crate::variable::Variable;

/// Two values or variables that are to be equal.
#[derive(Clone, Copy)]
pub(crate) struct Equation<'a> {
    pub left: Side<'a>,
    pub right: Side<'a>,
}

impl<'a> Equation<'a> {
    fn substituted(self, variable: Variable, by: Side<'a>) -> Equation<'a>
        ensures { seen_equation result ≡ resolved_both (single variable (seen by.entry)) (seen_equation self.entry) }
    {
        Equation {
            left: self.left.substituted(variable, by),
            right: self.right.substituted(variable, by),
        }
    }
}

/// Puts a side in the place of a variable wherever it stands.
fn substitute<'a>(equations: &mut [Equation<'a>], variable: Variable, by: Side<'a>)
    ensures { map seen_equation equations.new
        ≡ map (resolved_both (single variable (seen by.entry))) (map seen_equation equations.old) }
{
    for equation in equations.iter_mut() {
        *equation = equation.substituted(variable, by);
    }
}

/// Makes two sides one in all equations; answers whether they can be one.
fn equate<'a>(equations: &mut [Equation<'a>], left: Side<'a>, right: Side<'a>) -> bool
    requires left { IsWithinBounds (seen left) }
    requires right { IsWithinBounds (seen right) }
    ensures { Settles ((seen left.entry, seen right.entry) ∷ []) (map seen_equation equations.old)
        (map seen_equation equations.new) result }
{
    if left.is_same(right) {
        return true;
    }
    if !left.has_kind_of(right) {
        return false;
    }
    if let Side::Variable(variable) = left {
        substitute(equations, variable, right);
        return true;
    }
    if let Side::Variable(variable) = right {
        substitute(equations, variable, left);
        return true;
    }
    false
}

/// Solves equations, and answers whether they can be solved. What stands for each variable is then put in its place.
pub(crate) fn solve<'a>(equations: &mut [Equation<'a>]) -> bool
    requires { All AreWithinBounds (map seen_equation equations.old) }
    ensures { Settles (map seen_equation equations.old) (map seen_equation equations.old)
        (map seen_equation equations.new) result }
{
    for i in 0..equations.len() {
        let equation = equations[i];
        if !equate(equations, equation.left, equation.right) {
            return false;
        }
    }
    true
}

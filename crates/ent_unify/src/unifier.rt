//! The most general unifier of pairs of atoms.
ghost use Rattle.std.specs.Prelude.{◌≡◌, ◌↔◌, ◌++◌, [], All, length, map, slice_index_or, IsTrue, IfOk, OnOk};
ghost use Rattle.std.specs.Prelude.{MatchOption};
ghost use Rattle.std.specs.List.{flat_map};
ghost use Rattle.std.specs.Option.{option_copied};
ghost use Rattle.ent_semantics.specs.Term.{no_value};
ghost use Rattle.ent_unify.specs.Side.{seen, Substitution};
ghost use Rattle.ent_unify.specs.Equation.{seen_equation, resolved_both, AreRefuted, AreWithinBounds};
ghost use Rattle.ent_unify.specs.Tuple.{tuple_equations};
ghost use Rattle.ent_unify.specs.Unifier.{NoneEquals, IsMostGeneral, kinds_seen, class_of, constant_of, AreEquationsOf};
ghost use Rattle.ent_unify.specs.Unifier.{AreBindingsOf, binding_of, bindings_under, IsPlain};

use crate::atom::has_relation_of;
use crate::equation::{Equation, solve};
use crate::side::Side;
use crate::tuple::Tuple;
use crate::variable::{Representative, Variable};
use ent_semantics::Atom;
use ent_value::{Kind, Value};
use std::alloc::{AllocError, Global};
use std::marker::Model;

/// An atom of a member's statement, the member being a number counted from 0.
#[derive(Clone, Copy)]
pub struct MemberAtom<'a> {
    pub member: usize,
    pub atom: &'a Atom<Value>,
}

/// A variable, and what stands for its class.
#[derive(Drop)]
pub struct ClassBinding {
    pub variable: Variable,
    pub stands: Representative,
}

/// The classes of variables that have one value. A variable of which nothing is known is a class of its own.
#[derive(Drop)]
pub struct Unifier {
    bindings: Vec<ClassBinding>,
}

impl Model for Unifier {
    ghost use Rattle.std.specs.Prelude.{List};
    ghost use Rattle.ent_unify.specs.declared.unifier.ClassBinding.{ClassBinding};

    ghost Value = { List ClassBinding };

    ghost view = { λ u. u.bindings.items };
}

/// Puts down what stands for a side, where it is a variable.
fn push_binding(
    alloc: Global,
    bindings: &mut Vec<ClassBinding>,
    side: Side<'_>,
    stands: Side<'_>,
) -> Result<(), AllocError>
    ensures { OnOk result (bindings.new.items
        ≡ bindings.old.items ++ binding_of (seen side.entry) (seen stands.entry)) }
{
    if let Side::Variable(variable) = side {
        let stands = stands.to_owned(alloc)?;
        bindings.push(ClassBinding { variable, stands })?;
    }
    Ok(())
}

/// What stands for the variables of given equations, where they are solved.
fn bindings_of(
    alloc: Global,
    given: &[Equation<'_>],
    solved: &[Equation<'_>],
) -> Result<Vec<ClassBinding>, AllocError>
    requires { length given.now ≡ length solved.now }
    ensures { (stands : Substitution)
        → map seen_equation solved.now ≡ map (resolved_both stands) (map seen_equation given.now)
        → IfOk result (λ bindings. bindings.items ≡ flat_map (bindings_under stands) (map seen_equation given.now)) }
{
    let mut bindings = Vec::new(alloc);
    for i in 0..given.len() {
        let equation = given[i];
        let resolved = solved[i];
        push_binding(alloc, &mut bindings, equation.left, resolved.left)?;
        push_binding(alloc, &mut bindings, equation.right, resolved.right)?;
    }
    Ok(bindings)
}

/// The unifier of given equations, of which `equations` is a copy; none where they can't be solved.
fn unifier_of<'a>(
    alloc: Global,
    given: &[Equation<'a>],
    equations: &mut [Equation<'a>],
) -> Result<Option<Unifier>, AllocError>
    requires same { equations.old ≡ given.now }
    requires bound { All AreWithinBounds (map seen_equation given.now) }
    ensures { IfOk result (λ unifier. MatchOption unifier (AreRefuted (map seen_equation given.now))
        (λ bindings. AreBindingsOf (map seen_equation given.now) bindings)) }
{
    if !solve(equations) {
        return Ok(None);
    }
    let bindings = bindings_of(alloc, given, equations)?;
    Ok(Some(Unifier { bindings }))
}

/// Puts down the equations of two tuples.
fn push_equations<'a>(
    equations: &mut Vec<Equation<'a>>,
    left: Tuple<'a>,
    right: Tuple<'a>,
    none: &'a Value,
) -> Result<(), AllocError>
    requires columns { length left.terms.now ≡ length right.terms.now }
    requires none { none.now ≡ no_value }
    requires bound { All AreWithinBounds (map seen_equation equations.old.items) }
    ensures pushed { OnOk result (map seen_equation equations.new.items
        ≡ map seen_equation equations.old.items ++ tuple_equations left.entry right.entry) }
    ensures bound { OnOk result (All AreWithinBounds (map seen_equation equations.new.items)) }
{
    for column in 0..left.terms.len() {
        equations.push(left.equation(right, column, none))?;
    }
    Ok(())
}

impl<'a> MemberAtom<'a> {
    /// The atom's terms, with the kinds of its member's variables.
    fn tuple(self, kinds: &'a [&'a [Kind]]) -> Tuple<'a>
        ensures member { result.member ≡ self.entry.member }
        ensures kinds { result.kinds.now ≡ slice_index_or (kinds_seen kinds.now) self.entry.member [] }
        ensures terms { result.terms.now ≡ self.entry.atom.now.terms }
    {
        let kinds: &'a [Kind] = match kinds.get(self.member) {
            Some(kinds) => kinds,
            None => &[],
        };
        Tuple {
            member: self.member,
            kinds,
            terms: self.atom.terms.as_slice(),
        }
    }
}

/// Whether the atoms of a pair have one relation and one length.
fn is_plain(left: MemberAtom<'_>, right: MemberAtom<'_>) -> bool
    ensures { IsTrue result ↔ IsPlain (left.entry, right.entry) }
{
    if !has_relation_of(left.atom, right.atom) {
        return false;
    }
    left.atom.terms.len() == right.atom.terms.len()
}

/// The equations of pairs of atoms; none where two of them can't be one fact.
fn equations_of<'a>(
    alloc: Global,
    kinds: &'a [&'a [Kind]],
    pairs: &'a [(MemberAtom<'a>, MemberAtom<'a>)],
    none: &'a Value,
) -> Result<Option<Vec<Equation<'a>>>, AllocError>
    requires { none.now ≡ no_value }
    ensures { IfOk result (λ equations. MatchOption equations (NoneEquals (kinds_seen kinds.now) pairs.now)
        (λ some. AreEquationsOf (kinds_seen kinds.now) pairs.now (map seen_equation some.items))) }
{
    let mut equations = Vec::new(alloc);
    for pair in pairs {
        if !is_plain(pair.0, pair.1) {
            return Ok(None);
        }
        let left = pair.0.tuple(kinds);
        let right = pair.1.tuple(kinds);
        push_equations(&mut equations, left, right, none)?;
    }
    Ok(Some(equations))
}

fn unify_with<'a>(
    alloc: Global,
    kinds: &'a [&'a [Kind]],
    pairs: &'a [(MemberAtom<'a>, MemberAtom<'a>)],
    none: &'a Value,
) -> Result<Option<Unifier>, AllocError>
    requires { none.now ≡ no_value }
    ensures { IfOk result (λ unifier. MatchOption unifier (NoneEquals (kinds_seen kinds.now) pairs.now)
        (λ bindings. IsMostGeneral (kinds_seen kinds.now) pairs.now bindings)) }
{
    let Some(mut equations) = equations_of(alloc, kinds, pairs, none)? else {
        return Ok(None);
    };
    let given = Vec::from_slice(alloc, equations.as_slice())?;
    unifier_of(alloc, given.as_slice(), equations.as_mut_slice())
}

/// The most general unifier of pairs of atoms: values make all pairs equal exactly where they agree within each class
/// and with its constant. None where no values do. The kinds are those of each member's variables.
pub fn unify(
    alloc: Global,
    kinds: &[&[Kind]],
    pairs: &[(MemberAtom<'_>, MemberAtom<'_>)],
) -> Result<Option<Unifier>, AllocError>
    ensures { IfOk result (λ unifier. MatchOption unifier (NoneEquals (kinds_seen kinds.now) pairs.now)
        (λ bindings. IsMostGeneral (kinds_seen kinds.now) pairs.now bindings)) }
{
    let none = Value::Int(0);
    unify_with(alloc, kinds, pairs, &none)
}

impl Unifier {
    /// What stands for a variable's class: two variables are of one class where the same stands for both. None where
    /// the variable stands for itself and for no other.
    pub fn class_of(&self, variable: Variable) -> Option<&Representative>
        ensures { MatchOption result (class_of self.now variable ≡ Representative.Variable variable)
            (λ stands. class_of self.now variable ≡ stands.now) }
    {
        for binding in self.bindings.as_slice() {
            if binding.variable == variable {
                return Some(&binding.stands);
            }
        }
        None
    }

    /// The value that each variable of a variable's class must have, where there is one.
    pub fn constant_of(&self, variable: Variable) -> Option<&Value>
        ensures { option_copied result ≡ constant_of self.now variable }
    {
        match self.class_of(variable) {
            Some(stands) => stands.constant(),
            None => None,
        }
    }
}

//! The `tuple IN (SELECT ..)` conditions of an entangled statement, resolved.
ghost use Rattle.std.specs.Prelude.{◌≡◌, [], map};
ghost use Rattle.ent_value.specs.Refusal.{Gives};
ghost use Rattle.ent_form.specs.Bindings.{bound_in};
ghost use Rattle.ent_form.specs.Entangled.{demanded_in, member_in, members_from, membership_in, memberships_from};

use crate::binding::Bindings;
use crate::catalogue::Catalogue;
use crate::fault::FormFault;
use crate::lookup::value_of_kind;
use crate::row::same_kind;
use crate::select::select;
use crate::variable::number_of;
use ent_semantics::{Known, Membership, Term as ResolvedTerm};
use ent_tree::{Condition, Identifier, MOST_PARTS, Select, Term, Tuple};
use ent_value::{Kind, Limited, Name, Refusal};
use std::alloc::Global;

/// A variable is demanded in a column of this kind. Where it was demanded before, it was in the same kind.
fn demanded(
    alloc: Global,
    names: &[&Name],
    demanded: &mut Bindings,
    wanted: Kind,
    variable: &Identifier,
) -> Result<ResolvedTerm<Known>, Refusal<FormFault>>
    ensures { let before = bound_in demanded.old in
        Gives (λ term. (term, bound_in demanded.new)) result
        (demanded_in (map (λ name. name.now) names.now) before variable.now wanted (before variable.now.name)) }
{
    match demanded.kind_of(&variable.name) {
        Some(earlier) => {
            if !same_kind(earlier, wanted) {
                return Err(Refusal::Fault(FormFault::WrongKind(variable.place)));
            }
        }
        None => demanded.bind(variable.name.copy(alloc)?, wanted)?,
    }
    Ok(ResolvedTerm::Variable(number_of(names, &variable.name)))
}

/// A term of a tuple, the sub-select's item being of this kind.
fn member(
    alloc: Global,
    names: &[&Name],
    bindings: &Bindings,
    kinds: &mut Bindings,
    wanted: Kind,
    term: &Term,
) -> Result<ResolvedTerm<Known>, Refusal<FormFault>>
    ensures { Gives (λ term. (term, bound_in kinds.new)) result
        (member_in (map (λ name. name.now) names.now) (bound_in bindings.now) (bound_in kinds.old) wanted term.now) }
{
    match term {
        Term::Value(value) => Ok(ResolvedTerm::Known(value_of_kind(
            alloc, bindings, wanted, value,
        )?)),
        Term::Variable(variable) => demanded(alloc, names, kinds, wanted, variable),
    }
}

/// The terms of a tuple side by side with the kinds of the sub-select's items, from left to right.
fn members(
    alloc: Global,
    names: &[&Name],
    bindings: &Bindings,
    kinds: &mut Bindings,
    wanted: &[Kind],
    terms: &Limited<Term, MOST_PARTS>,
) -> Result<Limited<ResolvedTerm<Known>, MOST_PARTS>, Refusal<FormFault>>
    ensures { Gives (λ members. (members, bound_in kinds.new)) result
        (members_from (map (λ name. name.now) names.now) (bound_in bindings.now) [] (bound_in kinds.old) wanted.now
        terms.now) }
{
    let mut members = Limited::with_capacity(alloc, terms.len())?;
    for (kind, term) in wanted.iter().zip(terms.as_slice()) {
        members.push(member(alloc, names, bindings, kinds, *kind, term)?)?;
    }
    Ok(members)
}

/// The sub-select, then the number of its items, then the terms of the tuple.
#[tactic(auto, unfolding(crate::specs::Entangled::membership_in))]
fn membership(
    alloc: Global,
    catalogue: &Catalogue,
    bindings: &Bindings,
    names: &[&Name],
    kinds: &mut Bindings,
    tuple: &Tuple,
    sub_select: &Select,
) -> Result<Membership<Known>, Refusal<FormFault>>
    ensures { Gives (λ membership. (membership, bound_in kinds.new)) result
        (membership_in catalogue.now.tables (bound_in bindings.now) (map (λ name. name.now) names.now)
        (bound_in kinds.old) tuple.now sub_select.now) }
{
    let (form, wanted) = select(alloc, catalogue, bindings, sub_select)?;
    if tuple.terms.len() != wanted.len() {
        return Err(Refusal::Fault(FormFault::Arity(tuple.place)));
    }
    let terms = members(
        alloc,
        names,
        bindings,
        kinds,
        wanted.as_slice(),
        &tuple.terms,
    )?;
    Ok(Membership {
        terms,
        select: form,
    })
}

/// What the `IN (SELECT ..)` conditions demand, from left to right; the variables are demanded in the kinds of the
/// sub-selects' items.
pub(crate) fn memberships(
    alloc: Global,
    catalogue: &Catalogue,
    bindings: &Bindings,
    names: &[&Name],
    kinds: &mut Bindings,
    conditions: &Limited<Condition, MOST_PARTS>,
) -> Result<Limited<Membership<Known>, MOST_PARTS>, Refusal<FormFault>>
    ensures { Gives (λ memberships. (memberships, bound_in kinds.new)) result
        (memberships_from catalogue.now.tables (bound_in bindings.now) (map (λ name. name.now) names.now) []
        (bound_in kinds.old) conditions.now) }
{
    let _limit = conditions.len();
    let mut memberships = Limited::new(alloc);
    for condition in conditions.as_slice() {
        if let Condition::InSelect(tuple, select) = condition {
            let one = membership(alloc, catalogue, bindings, names, kinds, tuple, select)?;
            memberships.push(one)?;
        }
    }
    Ok(memberships)
}

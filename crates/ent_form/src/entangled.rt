//! Entangled statements resolved.
ghost use Rattle.std.specs.Prelude.{◌≡◌, ◌<◌, ◌≤◌, ◌+◌, [], IfOk, OnOk, length, map};
ghost use Rattle.ent_value.specs.Refusal.{Gives};
ghost use Rattle.ent_semantics.specs.Database.{is_among};
ghost use Rattle.ent_form.specs.Bindings.{bound_in, bound_from};
ghost use Rattle.ent_form.specs.Entangled.{term_in, terms_in, no_offer, bind_in, item_in, offer_from};
ghost use Rattle.ent_form.specs.Entangled.{heads_from, atom_from, post_in, others_from, kinds_of, entangled_in};
ghost use Rattle.ent_form.specs.Entangled.{variables_of};
ghost use Rattle.ent_form.specs.Kinds.{none_bound};
ghost use Rattle.ent_form.specs.Lookup.{test_in};
ghost use Rattle.ent_form.specs.Seen.{offer_of};

use crate::binding::{Bindings, KindBinding};
use crate::catalogue::Catalogue;
use crate::fault::FormFault;
use crate::lookup::value;
use crate::membership::memberships;
use crate::row::same_kind;
use crate::scope::is_among;
use crate::variable::{number_of, variables};
use ent_semantics::{
    Atom, Binding as Bind, Entangled as ResolvedEntangled, Known, Term as ResolvedTerm,
};
use ent_tree::{
    Condition, Duplicate, Entangled, EntangledItem, Identifier, MOST_PARTS, Term, Test, Tuple,
};
use ent_value::{Kind, Limited, Name, Refusal, Sequence};
use std::alloc::{AllocError, Global};

/// The select list: its terms, what is bound to them after the answer, and the kinds of what is bound.
#[derive(Drop)]
struct SeenOffer {
    terms: Limited<ResolvedTerm<Known>, MOST_PARTS>,
    binds: Limited<Bind<Known>, MOST_PARTS>,
    bound: Sequence<KindBinding>,
}

/// A value, or a written variable that is demanded in some column.
fn term(
    alloc: Global,
    names: &[&Name],
    kinds: &Bindings,
    bindings: &Bindings,
    term: &Term,
) -> Result<(ResolvedTerm<Known>, Kind), Refusal<FormFault>>
    ensures { Gives (λ found. found) result
        (term_in (map (λ name. name.now) names.now) (bound_in kinds.now) (bound_in bindings.now) term.now) }
{
    match term {
        Term::Value(known) => {
            let (known, kind) = value(alloc, bindings, known)?;
            Ok((ResolvedTerm::Known(known), kind))
        }
        Term::Variable(variable) => match kinds.kind_of(&variable.name) {
            Some(kind) => {
                let number = number_of(names, &variable.name);
                Ok((ResolvedTerm::Variable(number), kind))
            }
            None => Err(Refusal::Fault(FormFault::Unbound(variable.place))),
        },
    }
}

/// Both sides of a test are looked up before their kinds are compared.
#[tactic(auto, unfolding(crate::specs::Lookup::test_in))]
fn test(
    alloc: Global,
    names: &[&Name],
    kinds: &Bindings,
    bindings: &Bindings,
    test: &Test<Term>,
) -> Result<Test<ResolvedTerm<Known>>, Refusal<FormFault>>
    ensures { let lookup = terms_in (map (λ name. name.now) names.now) (bound_in kinds.now) (bound_in bindings.now) in
        Gives (λ form. form) result (test_in lookup test.now) }
{
    let (left, left_kind) = term(alloc, names, kinds, bindings, &test.left)?;
    let (right, right_kind) = term(alloc, names, kinds, bindings, &test.right)?;
    if !same_kind(left_kind, right_kind) {
        return Err(Refusal::Fault(FormFault::WrongKind(test.right.place())));
    }
    Ok(Test {
        left,
        comparison: test.comparison,
        right,
    })
}

/// Whether a host variable of this name is among those that are bound.
fn is_bound(bound: &[KindBinding], name: &Name) -> bool
    ensures { result ≡ is_among (map (λ binding. binding.name) bound.now) name.now }
{
    for binding in bound {
        if binding.name == *name {
            return true;
        }
    }
    false
}

/// A term of the select list goes behind the others, and the host variable that it is bound to, which is bound once.
fn offer(
    alloc: Global,
    offer: &mut SeenOffer,
    binds: &Option<Identifier>,
    term: ResolvedTerm<Known>,
    kind: Kind,
) -> Result<(), Refusal<FormFault>>
    requires terms { length offer.old.terms < MOST_PARTS }
    requires binds { length offer.old.binds < MOST_PARTS }
    ensures offered { Gives (λ _. offer_of offer.new) result (bind_in (offer_of offer.old) binds.now (term, kind)) }
    ensures terms { OnOk result (length offer.new.terms ≡ length offer.old.terms + 1) }
    ensures binds { OnOk result (length offer.new.binds ≤ length offer.old.binds + 1) }
{
    if let Some(variable) = binds {
        if is_bound(offer.bound.as_slice(), &variable.name) {
            drop(term);
            return Err(Refusal::Fault(FormFault::Repeated(variable.place)));
        }
        let bind = Bind {
            variable: variable.name.copy(alloc)?,
            term: term.copy(alloc)?,
        };
        let name = variable.name.copy(alloc)?;
        offer.binds.push(bind)?;
        offer.bound.push(KindBinding { name, kind })?;
    }
    offer.terms.push(term)?;
    Ok(())
}

/// An item of the select list: its term, then what is bound to it.
#[tactic(auto, unfolding(crate::specs::Entangled::item_in))]
fn item(
    alloc: Global,
    names: &[&Name],
    kinds: &Bindings,
    bindings: &Bindings,
    offered: &mut SeenOffer,
    item: &EntangledItem,
) -> Result<(), Refusal<FormFault>>
    requires terms { length offered.old.terms < MOST_PARTS }
    requires binds { length offered.old.binds < MOST_PARTS }
    ensures offered { Gives (λ _. offer_of offered.new) result
        (item_in (map (λ name. name.now) names.now) (bound_in kinds.now) (bound_in bindings.now) (offer_of offered.old)
        item.now) }
    ensures terms { OnOk result (length offered.new.terms ≡ length offered.old.terms + 1) }
    ensures binds { OnOk result (length offered.new.binds ≤ length offered.old.binds + 1) }
{
    let (form, kind) = term(alloc, names, kinds, bindings, &item.term)?;
    offer(alloc, offered, &item.binds, form, kind)
}

/// The select list, item by item.
fn offers(
    alloc: Global,
    names: &[&Name],
    kinds: &Bindings,
    bindings: &Bindings,
    items: &Limited<EntangledItem, MOST_PARTS>,
) -> Result<SeenOffer, Refusal<FormFault>>
    ensures { Gives offer_of result
        (offer_from (map (λ name. name.now) names.now) (bound_in kinds.now) (bound_in bindings.now) no_offer
        items.now) }
{
    let _limit = items.len();
    let mut offered = SeenOffer {
        terms: Limited::new(alloc),
        binds: Limited::new(alloc),
        bound: Sequence::new(alloc),
    };
    for one in items.as_slice() {
        item(alloc, names, kinds, bindings, &mut offered, one)?;
    }
    Ok(offered)
}

/// The heads: each answer relation is named once, and gets the select list's tuple.
fn heads(
    alloc: Global,
    terms: &Limited<ResolvedTerm<Known>, MOST_PARTS>,
    relations: &Limited<Identifier, MOST_PARTS>,
) -> Result<Limited<Atom<Known>, MOST_PARTS>, Refusal<FormFault>>
    ensures { Gives (λ heads. heads) result (heads_from terms.now [] [] relations.now) }
{
    let mut earlier = Vec::new(alloc);
    let mut heads = Limited::with_capacity(alloc, relations.len())?;
    for relation in relations.as_slice() {
        if is_among(&earlier, &relation.name) {
            return Err(Refusal::Fault(FormFault::Repeated(relation.place)));
        }
        earlier.push(&relation.name)?;
        heads.push(Atom {
            relation: relation.name.copy(alloc)?,
            terms: terms.copy(alloc)?,
        })?;
    }
    Ok(heads)
}

/// The terms of a postcondition, from left to right.
fn atom_terms(
    alloc: Global,
    names: &[&Name],
    kinds: &Bindings,
    bindings: &Bindings,
    terms: &Limited<Term, MOST_PARTS>,
) -> Result<Limited<ResolvedTerm<Known>, MOST_PARTS>, Refusal<FormFault>>
    ensures { Gives (λ forms. forms) result
        (atom_from (map (λ name. name.now) names.now) (bound_in kinds.now) (bound_in bindings.now) [] terms.now) }
{
    let mut forms = Limited::with_capacity(alloc, terms.len())?;
    for one in terms.as_slice() {
        let (form, _) = term(alloc, names, kinds, bindings, one)?;
        forms.push(form)?;
    }
    Ok(forms)
}

#[tactic(auto, unfolding(crate::specs::Entangled::post_in))]
fn post(
    alloc: Global,
    names: &[&Name],
    kinds: &Bindings,
    bindings: &Bindings,
    tuple: &Tuple,
    relation: &Identifier,
) -> Result<Atom<Known>, Refusal<FormFault>>
    ensures { Gives (λ post. post) result
        (post_in (map (λ name. name.now) names.now) (bound_in kinds.now) (bound_in bindings.now) tuple.now
        relation.now) }
{
    let terms = atom_terms(alloc, names, kinds, bindings, &tuple.terms)?;
    Ok(Atom {
        relation: relation.name.copy(alloc)?,
        terms,
    })
}

/// Postconditions and tests.
#[derive(Drop)]
struct SeenOthers {
    posts: Limited<Atom<Known>, MOST_PARTS>,
    tests: Limited<Test<ResolvedTerm<Known>>, MOST_PARTS>,
}

/// Postconditions and tests, in order of the text.
fn others(
    alloc: Global,
    names: &[&Name],
    kinds: &Bindings,
    bindings: &Bindings,
    conditions: &Limited<Condition, MOST_PARTS>,
) -> Result<SeenOthers, Refusal<FormFault>>
    ensures { Gives (λ others. (others.posts, others.tests)) result
        (others_from (map (λ name. name.now) names.now) (bound_in kinds.now) (bound_in bindings.now) [] []
        conditions.now) }
{
    let _limit = conditions.len();
    let mut posts = Limited::new(alloc);
    let mut tests = Limited::new(alloc);
    for condition in conditions.as_slice() {
        match condition {
            Condition::InSelect(_, _) => {}
            Condition::InAnswer(tuple, relation) => {
                posts.push(post(alloc, names, kinds, bindings, tuple, relation)?)?;
            }
            Condition::Test(one) => {
                tests.push(test(alloc, names, kinds, bindings, one)?)?;
            }
        }
    }
    Ok(SeenOthers { posts, tests })
}

/// The kinds that variables are demanded in; every variable that stays without one has a fault, and any kind will do.
fn variable_kinds(
    alloc: Global,
    kinds: &Bindings,
    names: &[&Name],
) -> Result<Sequence<Kind>, AllocError>
    ensures { IfOk result (λ result. result ≡ kinds_of (bound_in kinds.now) (map (λ name. name.now) names.now)) }
{
    let mut found = Sequence::new(alloc);
    for name in names {
        found.push(kinds.kind_of(name).unwrap_or(Kind::Int))?;
    }
    Ok(found)
}

/// Binds what an entangled statement binds.
#[tactic(auto, using(crate::proofs::Steps::bound_push))]
fn bind_all(bindings: &mut Bindings, bound: Sequence<KindBinding>) -> Result<(), AllocError>
    ensures { OnOk result (bound_in bindings.new ≡ bound_from (bound_in bindings.old) bound) }
{
    for binding in bound.into_vec() {
        bindings.bind(binding.name, binding.kind)?;
    }
    Ok(())
}

/// An entangled statement of these written variables, of which none is demanded yet.
#[tactic(auto, unfolding(crate::specs::Entangled::entangled_in))]
fn form_of(
    alloc: Global,
    catalogue: &Catalogue,
    bindings: &mut Bindings,
    names: &[&Name],
    kinds: &mut Bindings,
    entangled: &Entangled,
) -> Result<ResolvedEntangled<Known>, Refusal<FormFault>>
    requires names { map (λ name. name.now) names.now ≡ variables_of entangled.now }
    requires kinds { bound_in kinds.old ≡ none_bound }
    ensures { Gives (λ form. (form, bound_in bindings.new)) result
        (entangled_in catalogue.now.tables (bound_in bindings.old) entangled.now) }
{
    let conditions = &entangled.conditions;
    let atoms = memberships(alloc, catalogue, bindings, names, kinds, conditions)?;
    let offered = offers(alloc, names, kinds, bindings, &entangled.items)?;
    let heads = heads(alloc, &offered.terms, &entangled.relations)?;
    let others = others(alloc, names, kinds, bindings, conditions)?;
    let variables = variable_kinds(alloc, kinds, names)?;
    bind_all(bindings, offered.bound)?;
    Ok(ResolvedEntangled {
        variables,
        posts: others.posts,
        heads,
        atoms,
        tests: others.tests,
        binds: offered.binds,
    })
}

/// An entangled statement: all its `IN (SELECT ..)` conditions, then all else in the order of the text. What it binds
/// is bound from then on.
pub(crate) fn entangled(
    alloc: Global,
    catalogue: &Catalogue,
    bindings: &mut Bindings,
    entangled: &Entangled,
) -> Result<ResolvedEntangled<Known>, Refusal<FormFault>>
    ensures { Gives (λ form. (form, bound_in bindings.new)) result
        (entangled_in catalogue.now.tables (bound_in bindings.old) entangled.now) }
{
    let names = variables(alloc, entangled)?;
    let mut kinds = Bindings::new(alloc);
    form_of(alloc, catalogue, bindings, &names, &mut kinds, entangled)
}

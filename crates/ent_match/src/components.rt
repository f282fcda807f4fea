//! The components of a pool.
ghost use Rattle.std.specs.Prelude.{◌≡◌, ◌↔◌, ◌+◌, ◌∷◌, IsTrue, drop, length, IfOk};
ghost use Rattle.ent_semantics.specs.Pool.{IsSafe};
ghost use Rattle.ent_match.specs.Components.{AreComponents, AreFirstPlaces, AscendByFirst, begins_at};
ghost use Rattle.ent_match.specs.Components.{component_at};
ghost use Rattle.ent_match.specs.Fault.{IsByNumber};
ghost use Rattle.ent_match.specs.Labels.{AreOwnLabels, AreShown};
ghost use Rattle.ent_match.specs.Offers.{AreOffers};
ghost use Rattle.ent_match.specs.Remainder.{IsStart};

use crate::label::lower_all;
use crate::link::{Link, mark_all};
use crate::offers::Offer;
use crate::posted::Posted;
use crate::remainder::{Asked, links_of};
use ent_tree::Same;
use ent_value::Sequence;
use std::alloc::{AllocError, Global};

/// The places of so many statements, in their order.
fn own_labels(alloc: Global, count: usize) -> Result<Vec<usize>, AllocError>
    ensures { IfOk result (λ labels. AreOwnLabels count labels.items) }
{
    let mut labels = Vec::with_capacity(alloc, count)?;
    for place in 0..count {
        labels.push(place)?;
    }
    Ok(labels)
}

/// The labels of the statements that aren't removed.
fn shown_labels(
    alloc: Global,
    labels: &[usize],
    removed: &[bool],
) -> Result<Vec<Option<usize>>, AllocError>
    requires { length removed.now ≡ length labels.now }
    ensures { IfOk result (λ firsts. AreShown labels.now removed.now firsts.items) }
{
    let mut firsts = Vec::with_capacity(alloc, labels.len())?;
    for place in 0..labels.len() {
        if removed[place] {
            firsts.push(None)?;
        } else {
            firsts.push(Some(labels[place]))?;
        }
    }
    Ok(firsts)
}

/// Of each statement the place of the first one of its component, where links are put down and `removed` marks the
/// statements with a post that nobody meets.
fn first_places_from(
    alloc: Global,
    members: &[Posted],
    links: &[Link],
    removed: &mut [bool],
) -> Result<Vec<Option<usize>>, AllocError>
    requires by_number { IsByNumber members.now }
    requires safe { IsSafe members.now }
    requires start { IsStart members.now links.now removed.old }
    ensures { IfOk result (λ firsts. AreFirstPlaces members.now firsts.items) }
{
    mark_all(links, removed);
    let mut labels = own_labels(alloc, members.len())?;
    lower_all(links, removed, labels.as_mut_slice());
    shown_labels(alloc, labels.as_slice(), removed)
}

/// Of each statement the place of the first one of its component.
pub(crate) fn first_places_of(
    alloc: Global,
    members: &[Posted],
    offers: &[Offer],
) -> Result<Vec<Option<usize>>, AllocError>
    requires by_number { IsByNumber members.now }
    requires safe { IsSafe members.now }
    requires exact { AreOffers members.now offers.now }
    ensures { IfOk result (λ firsts. AreFirstPlaces members.now firsts.items) }
{
    let Asked { links, mut removed } = links_of(alloc, members, offers)?;
    first_places_from(alloc, members, links.as_slice(), removed.as_mut_slice())
}

/// Whether a component begins at a place, where this is the place of the first one of the component of the statement
/// there.
pub fn begins_at(first: Option<usize>, place: usize) -> bool
    ensures { result ≡ begins_at place first }
{
    match first {
        Some(first) => first == place,
        None => false,
    }
}

/// The statements of the component that begins at a place, by number; they are shared.
pub fn component_at(
    alloc: Global,
    members: &[Posted],
    firsts: &[Option<usize>],
    place: usize,
) -> Result<Sequence<Posted>, AllocError>
    requires { AreFirstPlaces members.now firsts.now }
    ensures { IfOk result (λ component. component ≡ component_at firsts.now place members.now) }
{
    let mut component = Sequence::new(alloc);
    for i in place..members.len() {
        if begins_at(firsts[i], place) {
            let member = members[i].shared()?;
            component.push(member)?;
        }
    }
    Ok(component)
}

/// Whether a statement stands at a place of some.
fn is_next(asked: &[Posted], place: usize, member: &Posted) -> bool
    ensures { IsTrue result ↔ (drop place asked.now ≡ member.now ∷ drop (place + 1) asked.now) }
{
    match asked.get(place) {
        Some(other) => other.is_same(member),
        None => false,
    }
}

/// Whether some statements are those of the component that begins at a place. Nothing is shared.
pub fn is_component_at(
    members: &[Posted],
    firsts: &[Option<usize>],
    place: usize,
    asked: &[Posted],
) -> bool
    requires { AreFirstPlaces members.now firsts.now }
    ensures { IsTrue result ↔ (component_at firsts.now place members.now ≡ asked.now) }
{
    let mut count = 0;
    for i in place..members.len() {
        if begins_at(firsts[i], place) {
            if !is_next(asked, count, &members[i]) {
                return false;
            }
            count += 1;
        }
    }
    count == asked.len()
}

/// The components of statements, of which those that begin a component are known.
pub(crate) fn components_by(
    alloc: Global,
    members: &[Posted],
    firsts: &[Option<usize>],
) -> Result<Vec<Sequence<Posted>>, AllocError>
    requires by_number { IsByNumber members.now }
    requires firsts { AreFirstPlaces members.now firsts.now }
    ensures components { IfOk result (λ lists. AreComponents members.now lists.items) }
    ensures by_first { IfOk result (λ lists. AscendByFirst lists.items) }
{
    let mut components = Vec::new(alloc);
    for place in 0..members.len() {
        if begins_at(firsts[place], place) {
            let component = component_at(alloc, members, firsts, place)?;
            components.push(component)?;
        }
    }
    Ok(components)
}

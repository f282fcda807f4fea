//! The pairs of a post and a head that unify.
ghost use Rattle.std.specs.Prelude.{◌≡◌, ◌++◌, IfOk, OnOk, MatchOption, map};
ghost use Rattle.ent_plan.specs.Pairs.{ArePairs, HasLonePost, PutsPairs, placed_at, placed_heads, placed_posts};
ghost use Rattle.ent_plan.specs.Pairs.{seen, seen_pair};

use ent_match::Posted;
use ent_semantics::Atom;
use ent_unify::{MemberAtom, unifies};
use ent_value::{Kind, Value};
use std::alloc::{AllocError, Global};

/// An atom of a member's statement, with the kinds of that statement's variables.
#[derive(Clone, Copy)]
pub struct PlacedAtom<'a> {
    pub member: usize,
    pub kinds: &'a [Kind],
    pub atom: &'a Atom<Value>,
}

impl<'a> PlacedAtom<'a> {
    fn member_atom(self) -> MemberAtom<'a>
        ensures member { result.member ≡ self.entry.member }
        ensures atom { result.atom.now ≡ self.entry.atom.now }
    {
        MemberAtom {
            member: self.member,
            atom: self.atom,
        }
    }
}

/// Puts down atoms of a member.
fn push_atoms<'a>(
    placed: &mut Vec<PlacedAtom<'a>>,
    member: usize,
    kinds: &'a [Kind],
    atoms: &'a [Atom<Value>],
) -> Result<(), AllocError>
    ensures { OnOk result (map seen placed.new.items
        ≡ map seen placed.old.items ++ map (placed_at member kinds.now) atoms.now) }
{
    for atom in atoms {
        placed.push(PlacedAtom {
            member,
            kinds,
            atom,
        })?;
    }
    Ok(())
}

/// The posts of the members.
pub(crate) fn posts_of<'a>(
    alloc: Global,
    members: &'a [Posted],
) -> Result<Vec<PlacedAtom<'a>>, AllocError>
    ensures { IfOk result (λ placed. map seen placed.items ≡ placed_posts members.now) }
{
    let mut placed = Vec::new(alloc);
    for (place, member) in members.iter().enumerate() {
        let statement = member.statement();
        let kinds = statement.variables.as_slice();
        push_atoms(&mut placed, place, kinds, statement.posts.as_slice())?;
    }
    Ok(placed)
}

/// The heads of the members.
pub(crate) fn heads_of<'a>(
    alloc: Global,
    members: &'a [Posted],
) -> Result<Vec<PlacedAtom<'a>>, AllocError>
    ensures { IfOk result (λ placed. map seen placed.items ≡ placed_heads members.now) }
{
    let mut placed = Vec::new(alloc);
    for (place, member) in members.iter().enumerate() {
        let statement = member.statement();
        let kinds = statement.variables.as_slice();
        push_atoms(&mut placed, place, kinds, statement.heads.as_slice())?;
    }
    Ok(placed)
}

/// Puts down a post with each head that it unifies with, and answers whether there is one.
fn push_pairs<'a>(
    pairs: &mut Vec<(MemberAtom<'a>, MemberAtom<'a>)>,
    post: PlacedAtom<'a>,
    heads: &[PlacedAtom<'a>],
) -> Result<bool, AllocError>
    ensures { IfOk result (PutsPairs (seen post.entry) (map seen heads.now) (map seen_pair pairs.old.items)
        (map seen_pair pairs.new.items)) }
{
    let mut is_met = false;
    for head in heads {
        if unifies(post.atom, post.kinds, head.atom, head.kinds) {
            pairs.push((post.member_atom(), head.member_atom()))?;
            is_met = true;
        }
    }
    Ok(is_met)
}

/// The pairs of a post and a head that unify; none where a post unifies with no head.
pub(crate) fn pairs_of<'a>(
    alloc: Global,
    posts: &[PlacedAtom<'a>],
    heads: &[PlacedAtom<'a>],
) -> Result<Option<Vec<(MemberAtom<'a>, MemberAtom<'a>)>>, AllocError>
    ensures { IfOk result (λ pairs. MatchOption pairs (HasLonePost (map seen posts.now) (map seen heads.now))
        (λ some. ArePairs (map seen posts.now) (map seen heads.now) (map seen_pair some.items))) }
{
    let mut pairs = Vec::new(alloc);
    for post in posts {
        if !push_pairs(&mut pairs, *post, heads)? {
            return Ok(None);
        }
    }
    Ok(Some(pairs))
}

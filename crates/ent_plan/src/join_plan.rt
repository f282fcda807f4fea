//! Plans.
ghost use Rattle.std.specs.Prelude.{◌≡◌, IfOk, MatchOption, map};
ghost use Rattle.ent_semantics.specs.Pool.{IsPool, IsSafe};
ghost use Rattle.ent_unify.specs.Unifier.{kinds_seen};
ghost use Rattle.ent_plan.specs.Agreement.{IsUnifierOf, variables_of};
ghost use Rattle.ent_plan.specs.Plan.{HaveDistinctHeads, HaveNoPlan, IsPlan, named};
ghost use Rattle.ent_plan.specs.Tables.{source_tables};

use crate::class::{Class, rows_of};
use crate::named::shared_of;
use crate::pair::{heads_of, pairs_of, posts_of};
use crate::slot::Slot;
use crate::table::tables_of;
use ent_group::Tx;
use ent_match::{Pool, Posted};
use ent_unify::{Unifier, unify};
use ent_value::{Kind, Sequence};
use std::alloc::{AllocError, Global};
use std::marker::Model;

/// The plan of the coordinating choices of posted statements. Contracts see the statements, what each of their written
/// variables is, and the kinds of the classes, and may rely on it that this is a plan of them.
pub struct JoinPlan {
    members: Vec<Posted>,
    slots: Vec<Sequence<Slot>>,
    kinds: Vec<Kind>,
    tables: Vec<usize>,
}

impl Drop for JoinPlan {
    fn drop(self) {
        let JoinPlan {
            members: _members,
            slots: _slots,
            kinds: _kinds,
            tables: _tables,
        } = self;
    }
}

impl Model for JoinPlan {
    ghost use Rattle.std.specs.Prelude.{◌≡◌};
    ghost use Rattle.ent_plan.specs.Plan.{IsPlan, Plan};
    ghost use Rattle.ent_plan.specs.Tables.{source_tables};

    ghost Value = { Plan };

    ghost view = { λ p. record { members = p.members.items; slots = p.slots.items; kinds = p.kinds.items } };

    ghost invariant = { λ p. IsPlan (record { members = p.members.items; slots = p.slots.items; kinds = p.kinds.items })
        × (p.tables.items ≡ source_tables p.members.items) };
}

/// What the written variables of members are, and the kinds of the classes.
#[derive(Drop)]
pub struct Slots {
    pub slots: Vec<Sequence<Slot>>,
    pub kinds: Vec<Kind>,
}

/// The kinds of each member's variables.
fn kinds_of<'a>(alloc: Global, members: &'a [Posted]) -> Result<Vec<&'a [Kind]>, AllocError>
    ensures { IfOk result (λ kinds. kinds_seen kinds.items ≡ variables_of members.now) }
{
    let mut kinds = Vec::new(alloc);
    for member in members {
        kinds.push(member.statement().variables.as_slice())?;
    }
    Ok(kinds)
}

/// The kinds of classes.
fn class_kinds(alloc: Global, classes: &[Class]) -> Result<Vec<Kind>, AllocError>
    ensures { IfOk result (λ kinds. kinds.items ≡ map (λ class. class.first.kind) classes.now) }
{
    let mut kinds = Vec::new(alloc);
    for class in classes {
        kinds.push(class.first.kind)?;
    }
    Ok(kinds)
}

/// The unifier of the members' posts with the heads that they unify with; none where there is none.
fn unifier_of(
    alloc: Global,
    members: &[Posted],
    kinds: &[&[Kind]],
) -> Result<Option<Unifier>, AllocError>
    requires kinds { kinds_seen kinds.now ≡ variables_of members.now }
    requires one { IsPool members.now }
    requires safe { IsSafe members.now }
    requires heads { HaveDistinctHeads members.now }
    ensures { IfOk result (λ unifier. MatchOption unifier (HaveNoPlan members.now) (IsUnifierOf members.now)) }
{
    let posts = posts_of(alloc, members)?;
    let heads = heads_of(alloc, members)?;
    let Some(pairs) = pairs_of(alloc, posts.as_slice(), heads.as_slice())? else {
        return Ok(None);
    };
    unify(alloc, kinds, pairs.as_slice())
}

/// What the written variables of members are; none where no groundings make each post equal to a head.
fn slots_of(alloc: Global, members: &[Posted]) -> Result<Option<Slots>, AllocError>
    requires one { IsPool members.now }
    requires safe { IsSafe members.now }
    requires heads { HaveDistinctHeads members.now }
    ensures { IfOk result (λ found. MatchOption found (HaveNoPlan members.now)
        (λ some. IsPlan (record { members = members.now; slots = some.slots.items; kinds = some.kinds.items }))) }
{
    let variable_kinds = kinds_of(alloc, members)?;
    let Some(unifier) = unifier_of(alloc, members, variable_kinds.as_slice())? else {
        return Ok(None);
    };
    let mut classes = Vec::new(alloc);
    let slots = rows_of(alloc, &mut classes, &unifier, variable_kinds.as_slice())?;
    let kinds = class_kinds(alloc, classes.as_slice())?;
    Ok(Some(Slots { slots, kinds }))
}

impl JoinPlan {
    /// The plan of posted statements; none where no groundings, whatever rows the tables have, make each post equal to
    /// a head. A pool of the statements is to be safe, and the heads of each of distinct relations, so that a post
    /// unifies with one head at most.
    pub fn of(alloc: Global, members: Vec<Posted>) -> Result<Option<JoinPlan>, AllocError>
        requires one { IsPool members.items }
        requires safe { IsSafe members.items }
        requires heads { HaveDistinctHeads members.items }
        ensures { IfOk result (λ plan. MatchOption plan (HaveNoPlan members.items)
            (λ some. some.members ≡ members.items)) }
    {
        let Some(found) = slots_of(alloc, members.as_slice())? else {
            return Ok(None);
        };
        let tables = tables_of(alloc, members.as_slice())?;
        let Slots { slots, kinds } = found;
        Ok(Some(JoinPlan {
            members,
            slots,
            kinds,
            tables,
        }))
    }

    /// The statements.
    pub fn members(&self) -> &[Posted]
        ensures members { result.now ≡ self.now.members }
        ensures plan { IsPlan self.now }
    {
        self.members.as_slice()
    }

    /// What each written variable of each statement is, in the order of the statements and of their variables.
    pub fn slots(&self) -> &[Sequence<Slot>]
        ensures slots { result.now ≡ self.now.slots }
        ensures plan { IsPlan self.now }
    {
        self.slots.as_slice()
    }

    /// The kinds of the classes by their numbers.
    pub fn kinds(&self) -> &[Kind]
        ensures kinds { result.now ≡ self.now.kinds }
        ensures plan { IsPlan self.now }
    {
        self.kinds.as_slice()
    }

    /// The tables that the sub-selects of the statements name, by number and each once.
    pub fn tables(&self) -> &[usize]
        ensures { result.now ≡ source_tables self.now.members }
    {
        self.tables.as_slice()
    }
}

/// The plan of the pool's statements of some transactions, as those of a component; none where no groundings, whatever
/// rows the tables have, make each post of them equal to a head of them. The heads of each statement are to be of
/// distinct relations.
pub fn combine(alloc: Global, pool: &Pool, txs: &[Tx]) -> Result<Option<JoinPlan>, AllocError>
    requires { HaveDistinctHeads pool.now }
    ensures { IfOk result (λ plan. MatchOption plan (HaveNoPlan (named pool.now txs.now))
        (λ some. some.members ≡ named pool.now txs.now)) }
{
    let members = shared_of(alloc, pool.members(), txs)?;
    JoinPlan::of(alloc, members)
}

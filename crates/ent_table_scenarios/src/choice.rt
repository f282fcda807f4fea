//! Plans and least choices of a pool's statements, over the tables of its opening.
ghost use Rattle.std.specs.Prelude.{◌≡◌, ◌≢◌, Contains, IsTrue};
ghost use Rattle.std.specs.List.{list_any};
ghost use Rattle.ent_value.specs.declared.value.Value.{Value as Held};
ghost use Rattle.ent_semantics.specs.declared.entangled.Atom.{Atom as HeadAtom};
ghost use Rattle.ent_plan.specs.Ranged.{AreRanged, IsRanged, is_variable, stands_in};
ghost use Rattle.ent_plan.specs.Plan.{HasDistinctHeads, HaveDistinctHeads};

use anyhow::{Context, Result, bail};
use ent_group::Tx;
use ent_join::first_with;
use ent_match::{Pool, Posted};
use ent_plan::{JoinPlan, combine};
use ent_rel::{NumberedTable, Table};
use ent_scenario_files::replies::{Out, put, put_number, put_shown, put_value};
use ent_semantics::{Atom, Entangled, Membership, Term};
use ent_value::{Sequence, Ticks, Value};
use std::alloc::Global;
use std::sync::Arc;

fn is_variable(term: &Term<Value>, number: usize) -> bool
    ensures { result ≡ is_variable number term.now }
{
    match term {
        Term::Known(_) => false,
        Term::Variable(other) => *other == number,
    }
}

fn stands_in(membership: &Membership<Value>, number: usize) -> bool
    ensures { result ≡ stands_in number membership.now }
{
    membership
        .terms
        .as_slice()
        .iter()
        .any(|term| is_variable(term, number))
}

fn is_bound(memberships: &[Membership<Value>], number: usize) -> bool
    ensures { result ≡ list_any (stands_in number) memberships.now }
{
    memberships
        .iter()
        .any(|membership| stands_in(membership, number))
}

/// Whether each written variable stands in a tuple of a sub-select.
fn is_ranged(statement: &Entangled<Value>) -> bool
    ensures { IsTrue result → IsRanged statement.now }
{
    for number in 0..statement.variables.len() {
        if !is_bound(statement.atoms.as_slice(), number) {
            return false;
        }
    }
    true
}

fn are_ranged(members: &[Posted]) -> bool
    ensures { IsTrue result → AreRanged members.now }
{
    if let [first, others @ ..] = members {
        return is_ranged(first.statement()) && are_ranged(others);
    }
    true
}

/// Whether no head is of the relation of another one.
fn is_new(heads: &[Atom<Value>], head: &Atom<Value>) -> bool
    ensures { IsTrue result
        → (other : HeadAtom Held) → Contains heads.now other → other.relation ≢ head.now.relation }
{
    for other in heads {
        if other.relation == head.relation {
            return false;
        }
    }
    true
}

/// Whether the heads of a statement are of distinct relations.
fn has_distinct_heads(member: &Posted) -> bool
    ensures { IsTrue result → HasDistinctHeads member.now }
{
    let heads = member.statement().heads.as_slice();
    for (number, head) in heads.iter().enumerate() {
        if !is_new(&heads[..number], head) {
            return false;
        }
    }
    true
}

fn have_distinct_heads(members: &[Posted]) -> bool
    ensures { IsTrue result → HaveDistinctHeads members.now }
{
    for member in members {
        if !has_distinct_heads(member) {
            return false;
        }
    }
    true
}

fn plan(alloc: Global, pool: &Pool, txs: &[Tx]) -> Result<Option<JoinPlan>> {
    if !have_distinct_heads(pool.members()) {
        bail!("a statement has two heads of one relation");
    }
    Ok(combine(alloc, pool, txs)?)
}

/// The tables that the plan of some statements wants.
pub(crate) fn put_plan(alloc: Global, pool: &Pool, txs: &[Tx], out: &mut Out) -> Result<()> {
    match plan(alloc, pool, txs)? {
        None => put(out, "no plan"),
        Some(plan) => put_tables(&plan, out),
    }
    Ok(())
}

fn put_tables(plan: &JoinPlan, out: &mut Out) {
    put(out, "tables");
    for number in plan.tables() {
        put(out, " ");
        put_number(out, *number);
    }
}

/// The tables of these numbers.
fn numbered(alloc: Global, tables: &[Arc<Table>], numbers: &[usize]) -> Result<Vec<NumberedTable>> {
    let mut found = Vec::new(alloc);
    for number in numbers {
        let table = tables.get(*number).context("there is no such table")?;
        found.push(NumberedTable::new(*number, table.clone()?))?;
    }
    Ok(found)
}

fn put_grounding(alloc: Global, tx: Tx, grounding: &Sequence<Value>, out: &mut Out) {
    put_shown(out, &tx);
    put(out, "(");
    for (number, value) in grounding.as_slice().iter().enumerate() {
        if number > 0 {
            put(out, ",");
        }
        put_value(alloc, out, value);
    }
    put(out, ")");
}

fn put_groundings(
    alloc: Global,
    members: &[Posted],
    groundings: &[Sequence<Value>],
    out: &mut Out,
) -> Result<()> {
    for (number, grounding) in groundings.iter().enumerate() {
        if number > 0 {
            put(out, " ");
        }
        let member = members.get(number).context("there is no such member")?;
        put_grounding(alloc, member.tx(), grounding, out);
    }
    Ok(())
}

/// What the search over the tables finds for some statements, and the ticks.
fn put_found(
    alloc: Global,
    plan: &JoinPlan,
    tables: &[Arc<Table>],
    out: &mut Out,
) -> Result<Ticks> {
    if !are_ranged(plan.members()) {
        bail!("a variable stands in no tuple of a sub-select");
    }
    let tables = numbered(alloc, tables, plan.tables())?;
    let mut ticks = Ticks::new();
    let found = first_with(alloc, plan, tables.as_slice(), &mut ticks);
    drop(tables);
    match found? {
        None => put(out, "none"),
        Some(groundings) => {
            let shown = put_groundings(alloc, plan.members(), groundings.as_slice(), out);
            drop(groundings);
            shown?;
        }
    }
    Ok(ticks)
}

/// The least choice of some statements, the values of each in their order of first appearance; and the ticks of the
/// search for it, where they are wanted.
pub(crate) fn put_choice(
    alloc: Global,
    pool: &Pool,
    tables: &[Arc<Table>],
    txs: &[Tx],
    with_ticks: bool,
    out: &mut Out,
) -> Result<()> {
    let Some(plan) = plan(alloc, pool, txs)? else {
        put(out, "no plan");
        return Ok(());
    };
    let ticks = put_found(alloc, &plan, tables, out);
    drop(plan);
    put_ticks(ticks?, with_ticks, out);
    Ok(())
}

fn put_ticks(ticks: Ticks, with_ticks: bool, out: &mut Out) {
    if with_ticks {
        put(out, ", ticks ");
        put_shown(out, &ticks.count());
    }
}

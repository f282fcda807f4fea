//! The least coordinating choice.
ghost use Rattle.std.specs.Prelude.{◌≡◌, ◌+◌, ◌<◌, ◌^◌, [], ◌∷◌, IfOk, List, OnErr, is_some, length, map};
ghost use Rattle.ent_semantics.specs.Form.{Tables};
ghost use Rattle.ent_semantics.specs.Choice.{IsLeastChoiceIfAny};
ghost use Rattle.ent_semantics.specs.Pool.{Posted};
ghost use Rattle.ent_plan.specs.Plan.{slot_value};
ghost use Rattle.ent_join.specs.Laid.{AreLaid};
ghost use Rattle.ent_plan.specs.Ranged.{AreRanged};
ghost use Rattle.ent_join.specs.Row.{AsksForARow};
ghost use Rattle.ent_join.specs.Search.{AreTicks};

use crate::asked::frame_of;
use crate::search::least;
use ent_plan::{JoinPlan, Slot, plan_has_the_choices, plan_keeps_the_order};
use ent_rel::NumberedTable;
use ent_value::{Sequence, Ticks, Value};
use std::alloc::{AllocError, Global};

/// What a slot is worth under a value for each class.
fn slot_value(alloc: Global, values: &[Value], slot: &Slot) -> Result<Value, AllocError>
    ensures { IfOk result (λ value. value ≡ slot_value values.now slot.now) }
{
    match slot {
        Slot::Fixed(value) => value.copy(alloc),
        Slot::Class(number) => match values.get(*number) {
            None => Ok(Value::Int(0)),
            Some(value) => value.copy(alloc),
        },
    }
}

fn valuation(alloc: Global, values: &[Value], slots: &[Slot]) -> Result<Sequence<Value>, AllocError>
    ensures { IfOk result (λ valuation. valuation ≡ map (slot_value values.now) slots.now) }
{
    let mut valuation = Sequence::new(alloc);
    for slot in slots {
        valuation.push(slot_value(alloc, values, slot)?)?;
    }
    Ok(valuation)
}

/// The valuations of statements under a value for each class.
fn valuations(
    alloc: Global,
    values: &[Value],
    slots: &[Sequence<Slot>],
) -> Result<Sequence<Sequence<Value>>, AllocError>
    ensures { IfOk result (λ all. all ≡ map (map (slot_value values.now)) slots.now) }
{
    let mut all = Sequence::new(alloc);
    for some in slots {
        all.push(valuation(alloc, values, some.as_slice())?)?;
    }
    Ok(all)
}

/// The least coordinating choice of the plan's statements over tables, a grounding for each statement; `None` where
/// there is none. The tables are those of [`JoinPlan::tables`], under their numbers.
pub fn first(
    alloc: Global,
    plan: &JoinPlan,
    tables: &[NumberedTable],
) -> Result<Option<Sequence<Sequence<Value>>>, AllocError>
    requires { AreRanged plan.now.members }
    ensures { IfOk result (λ choice. (laid : Tables)
        → AreLaid plan.now.members tables.now laid
        → IsLeastChoiceIfAny laid plan.now.members choice) }
{
    let mut ticks = Ticks::new();
    first_with(alloc, plan, tables, &mut ticks)
}

/// What [`first`] answers. Each value that the search was given is one tick: where the plan is of one statement that
/// asks for a row and nothing else, an answer takes one for each of its written variables, and none takes none. Where
/// memory runs out the ticks are as they were.
pub fn first_with(
    alloc: Global,
    plan: &JoinPlan,
    tables: &[NumberedTable],
    ticks: &mut Ticks,
) -> Result<Option<Sequence<Sequence<Value>>>, AllocError>
    requires { AreRanged plan.now.members }
    ensures choice { IfOk result (λ choice. (laid : Tables)
        → AreLaid plan.now.members tables.now laid
        → IsLeastChoiceIfAny laid plan.now.members choice) }
    ensures ticks { IfOk result (λ choice. (laid : Tables) (member : Posted)
        → AreLaid plan.now.members tables.now laid
        → plan.now.members ≡ member ∷ []
        → AsksForARow laid member.statement
        → AreTicks (length member.statement.variables) ticks.old ticks.new (is_some choice)) }
    ensures err { OnErr result (ticks.new ≡ ticks.old) }
{
    let mut counted = Ticks::new();
    let choice = counted_choice(alloc, plan, tables, &mut counted)?;
    add_ticks(ticks, &counted);
    Ok(choice)
}

/// Adds the ticks of another count.
fn add_ticks(ticks: &mut Ticks, more: &Ticks)
    ensures sum { ticks.old + more.now < 2 ^ 64 → ticks.new ≡ ticks.old + more.now }
    ensures same { more.now ≡ 0 → ticks.new ≡ ticks.old }
{
    for _step in 0..more.count() {
        ticks.add();
    }
}

/// The least coordinating choice, and how many values the search was given.
fn counted_choice(
    alloc: Global,
    plan: &JoinPlan,
    tables: &[NumberedTable],
    ticks: &mut Ticks,
) -> Result<Option<Sequence<Sequence<Value>>>, AllocError>
    requires { AreRanged plan.now.members }
    ensures choice { IfOk result (λ choice. (laid : Tables)
        → AreLaid plan.now.members tables.now laid
        → IsLeastChoiceIfAny laid plan.now.members choice) }
    ensures ticks { IfOk result (λ choice. (laid : Tables) (member : Posted)
        → AreLaid plan.now.members tables.now laid
        → plan.now.members ≡ member ∷ []
        → AsksForARow laid member.statement
        → AreTicks (length member.statement.variables) ticks.old ticks.new (is_some choice)) }
{
    plan_has_the_choices();
    plan_keeps_the_order();
    let kinds = plan.kinds();
    let frame = frame_of(alloc, plan, tables)?;
    if frame.has_empty_domain() {
        return Ok(None);
    }
    match least(alloc, &frame, kinds.len(), ticks)? {
        None => Ok(None),
        Some(values) => Ok(Some(valuations(alloc, values.values(), plan.slots())?)),
    }
}

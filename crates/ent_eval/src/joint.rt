//! Posted statements that are to be answered together.
ghost use Rattle.std.specs.Prelude.{◌≡◌, IfOk, List, MatchOption};
ghost use Rattle.ent_semantics.specs.Choice.{IsLeastChoiceIfAny};
ghost use Rattle.ent_join.specs.Plans.{HaveNoPlan};
ghost use Rattle.ent_protocol.specs.Job.{Numbered, tables_of};
ghost use Rattle.ent_job.specs.Work.{IsJoint};

use ent_join::{JoinPlan, first};
use ent_match::Posted;
use ent_rel::NumberedTable;
use ent_value::{Sequence, Value};
use std::alloc::{AllocError, Global};

/// The same statements, which are shared.
fn shared(alloc: Global, asked: &[Posted]) -> Result<Vec<Posted>, AllocError>
    ensures { IfOk result (λ members. members.items ≡ asked.now) }
{
    let mut members = Vec::with_capacity(alloc, asked.len())?;
    for query in asked {
        members.push(query.shared()?)?;
    }
    Ok(members)
}

/// The plan of the choices of posted statements; none where there are no choices, whatever the rows.
fn plan_of(alloc: Global, asked: &[Posted]) -> Result<Option<JoinPlan>, AllocError>
    requires { (tables : List Numbered) × IsJoint asked.now tables }
    ensures { IfOk result (λ plan. MatchOption plan (HaveNoPlan asked.now) (λ plan. plan.members ≡ asked.now)) }
{
    JoinPlan::of(alloc, shared(alloc, asked)?)
}

/// The least coordinating choice of posted statements over their tables, a grounding for each statement; none where
/// there is none.
pub(crate) fn choice(
    alloc: Global,
    asked: &[Posted],
    tables: &[NumberedTable],
) -> Result<Option<Sequence<Sequence<Value>>>, AllocError>
    requires { IsJoint asked.now tables.now }
    ensures { IfOk result (λ choice. IsLeastChoiceIfAny (tables_of tables.now) asked.now choice) }
{
    match plan_of(alloc, asked)? {
        None => Ok(None),
        Some(plan) => first(alloc, &plan, tables),
    }
}

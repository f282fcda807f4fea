//! A member goes on with the outcome of its statement.
ghost use Rattle.std.specs.Prelude.{◌≡◌, [], IfOk, IsSome, OnErr, OnOk};
ghost use Rattle.std.specs.List.{AllByRecursion};
ghost use Rattle.ent_semantics.specs.FormKinds.{changed_tables};
ghost use Rattle.ent_core.specs.Advance.{MayChange, binding, changing};
ghost use Rattle.ent_run.specs.Places.{Changes, found};
ghost use Rattle.ent_protocol.specs.Finish.{stepped, variable_of, with_bound};
ghost use Rattle.ent_semantics.specs.declared.answer.Answer.TheVariants as answers;

use ent_group::Tx;
use ent_job::Single;
use ent_rel::Delta;
use ent_run::Run;
use ent_semantics::{Answer, Statement};
use ent_tables::StoredTables;
use ent_tree::Duplicate;
use ent_value::{Name, Row, Sequence, Value};
use std::alloc::{AllocError, Global};

/// What a statement binds to a value: the host variable of a SET, and else nothing.
fn bound_by(
    alloc: Global,
    statement: &Statement<Value>,
    value: &Value,
) -> Result<Vec<(Name, Value)>, AllocError>
    ensures { IfOk result (λ bound. bound.items ≡ with_bound (variable_of statement.now) value.now []) }
{
    let mut bound = Vec::new(alloc);
    if let Statement::Set { variable, .. } = statement {
        bound.push((variable.copy(alloc)?, value.copy(alloc)?))?;
    }
    Ok(bound)
}

/// The member of a number takes the rows of its SELECT, and is at the next statement. Where memory runs out nothing
/// changes.
pub(crate) fn show(
    alloc: Global,
    run: &mut Run,
    tx: Tx,
    rows: &Sequence<Row>,
) -> Result<(), AllocError>
    requires { IsSome (found run.old.active tx) }
    ensures ok { OnOk result (Changes (stepped (answers.Rows rows.now)) tx run.old.active run.new.active) }
    ensures prepared { run.new.prepared ≡ run.old.prepared }
    ensures err { OnErr result (run.new ≡ run.old) }
{
    let answer = Answer::Rows(rows.copy(alloc)?);
    run.step(tx, answer)
}

/// The member of a statement binds a value, and is at the next statement. Where memory runs out nothing changes.
pub(crate) fn bind(
    alloc: Global,
    run: &mut Run,
    single: &Single,
    value: &Value,
) -> Result<(), AllocError>
    requires { IsSome (found run.old.active single.now.tx) }
    ensures ok { OnOk result (Changes (binding single.now.statement value.now) single.now.tx run.old.active
        run.new.active) }
    ensures prepared { run.new.prepared ≡ run.old.prepared }
    ensures err { OnErr result (run.new ≡ run.old) }
{
    let answer = Answer::Value(value.copy(alloc)?);
    let bound = bound_by(alloc, single.statement(), value)?;
    run.step_bound(single.tx(), answer, bound)?;
    Ok(())
}

/// The member of a statement changes the statement's table, and is at the next statement. Where memory runs out nothing
/// changes.
pub(crate) fn change(
    alloc: Global,
    run: &mut Run,
    tables: &mut StoredTables,
    single: &Single,
    count: u64,
    delta: &Delta,
) -> Result<(), AllocError>
    requires member { IsSome (found run.old.active single.now.tx) }
    requires may { AllByRecursion (MayChange tables.old delta.now) (changed_tables single.now.statement) }
    ensures ok { OnOk result (Changes (stepped (answers.Count count)) single.now.tx run.old.active run.new.active) }
    ensures prepared { run.new.prepared ≡ run.old.prepared }
    ensures tables { OnOk result (tables.new ≡ changing single.now delta.now tables.old) }
    ensures err { OnErr result ((run.new ≡ run.old) × (tables.new ≡ tables.old)) }
{
    let answer = Answer::Count(count);
    let Some(table) = single.statement().changed_table() else {
        return run.step(single.tx(), answer);
    };
    tables.change(alloc, single.tx(), table, delta)?;
    if run.step(single.tx(), answer).is_err() {
        tables.take_back();
        return Err(AllocError);
    }
    Ok(())
}

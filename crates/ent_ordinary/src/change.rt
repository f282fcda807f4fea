//! Changes of one table.
ghost use Rattle.std.specs.Prelude.{◌≡◌, IfOk, Ok};
ghost use Rattle.ent_value.specs.Refusal.{Gives};
ghost use Rattle.ent_value.specs.Value.{kinds_of};
ghost use Rattle.ent_rel.specs.Change.{deletion};
ghost use Rattle.ent_semantics.specs.Selection.{meets};
ghost use Rattle.ent_ordinary.specs.Worth.{worth_over};
ghost use Rattle.ent_ordinary.specs.Change.{Changes, IsFault, insertion_of, image_or_overflow, replacement_of};
ghost use Rattle.ent_semantics.specs.FormKinds.{KeepsKinds};
ghost use Rattle.ent_ordinary.specs.ExpressionWorth.{image_of};

use crate::changed_row::{image_row, row_of};
use crate::outcome::Outcome;
use crate::{PreparedTests, first_values};
use ent_rel::{StoredRow, Table, TableFull};
use ent_semantics::{Failure, Operand};
use ent_tree::{Expression, Test};
use ent_value::{Refusal, Row, Value};
use std::alloc::{AllocError, Global};

/// What putting a row of some values into a table comes to.
pub(crate) fn insertion(
    alloc: Global,
    table: &Table,
    values: &[Value],
) -> Result<Outcome, AllocError>
    requires { kinds_of values.now ≡ table.now.kinds }
    ensures { IfOk result (λ outcome. Changes table.now (insertion_of table.now.rows values.now) outcome) }
{
    let row = row_of(alloc, values)?;
    match table.insert(alloc, &row) {
        Ok((count, delta)) => Ok(Outcome::Changed { count, delta }),
        Err(Refusal::Memory) => Err(AllocError),
        Err(Refusal::Fault(TableFull)) => Ok(Outcome::Fault(Failure::TableFull)),
    }
}

/// What taking the rows that meet every test out of a table comes to.
pub(crate) fn deletion(
    alloc: Global,
    table: &Table,
    tests: &[Test<Operand<Value>>],
) -> Result<Outcome, AllocError>
    ensures { let left = deletion table.now.rows (meets worth_over tests.now) in
        IfOk result (λ outcome. Changes table.now (Ok left) outcome) }
{
    let prepared = PreparedTests::new(alloc, &[], tests)?;
    let first = first_values(alloc, &[], tests, table.kinds())?;
    let (count, delta) = table.delete_where(
        alloc,
        first.as_slice(),
        |row: &StoredRow<'_>| prepared.meets(row),
    )?;
    Ok(Outcome::Changed { count, delta })
}

/// What a refusal comes to: the fault that it is, or no memory.
fn refused(refusal: Refusal<Failure>) -> Result<Outcome, AllocError>
    ensures { IfOk result (λ outcome. IsFault refusal outcome) }
{
    match refusal {
        Refusal::Memory => Err(AllocError),
        Refusal::Fault(failure) => Ok(Outcome::Fault(failure)),
    }
}

/// What putting its image in the place of each row that meets every test comes to.
pub(crate) fn replacement(
    alloc: Global,
    table: &Table,
    image: &[Expression<Operand<Value>>],
    tests: &[Test<Operand<Value>>],
) -> Result<Outcome, AllocError>
    requires { KeepsKinds table.now.kinds image.now }
    ensures { let after = replacement_of table.now.rows (meets worth_over tests.now) (image_of image.now) in
        IfOk result (λ outcome. Changes table.now after outcome) }
{
    let prepared = PreparedTests::new(alloc, &[], tests)?;
    let first = first_values(alloc, &[], tests, table.kinds())?;
    let replaced = table.replace_where(
        alloc,
        first.as_slice(),
        |old: &StoredRow<'_>| prepared.meets(old),
        |row: &Row| -> Result<Row, Refusal<Failure>>
            ensures { Gives (λ new. new) result (image_or_overflow (image_of image.entry.now) row.now) }
        { image_row(alloc, image, row.values()) },
    );
    match replaced {
        Ok((count, delta)) => Ok(Outcome::Changed { count, delta }),
        Err(refusal) => refused(refusal),
    }
}

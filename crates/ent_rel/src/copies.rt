//! Copies and images of the rows of a list.
ghost use Rattle.std.specs.Prelude.{◌≡◌, Bool, List, Result, IfOk, filter, All, length};
ghost use Rattle.ent_lists.specs.Sets as set;
ghost use Rattle.ent_value.specs.Value.{row_cmp, kinds_of};
ghost use Rattle.ent_value.specs.declared.value.Value.{Value as Cell};
ghost use Rattle.ent_value.specs.declared.value.Kind.{Kind};
ghost use Rattle.ent_rel.specs.Closure.{Answers, Computes, GivesUnless, KeepsKinds, flat};
ghost use Rattle.ent_rel.specs.Change.{images_of};
ghost use Rattle.ent_rel.specs.Part.{IsPart};

use ent_value::{Refusal, Row};
use std::alloc::{AllocError, Global};

/// Copies of the rows that pass a test. Whatever the test does, they are a part of the list.
pub(crate) fn copies_where<F: Fn(&Row) -> bool>(
    alloc: Global,
    rows: &[Row],
    test: F,
) -> Result<Vec<Row>, AllocError>
    requires { F.IsAlwaysCallable test }
    ensures passing { (passes : List Cell → Bool)
        → Computes F.Fn test (set.from_list {R = row_cmp} rows.now) passes
        → IfOk result (λ copies. copies.items ≡ filter passes rows.now) }
    ensures part { IfOk result (λ copies. IsPart rows.now copies.items) }
{
    let mut copies = Vec::new(alloc);
    for row in rows {
        if test(row) {
            copies.push(row.copy(alloc)?)?;
        }
    }
    Ok(copies)
}

/// The images of rows, or the closure's error on the first row that has none.
pub(crate) fn images<E: Drop, G: Fn(&Row) -> Result<Row, E>>(
    alloc: Global,
    rows: &[Row],
    change: G,
) -> Result<Vec<Row>, Refusal<E>>
    requires { G.IsAlwaysCallable change }
    ensures images { (excused : E → Bool) (image : List Cell → Result (List Cell) E)
        → Answers G.Fn change (set.from_list {R = row_cmp} rows.now) excused image
        → GivesUnless excused (λ images. images.items) result (images_of image rows.now) }
    ensures len { IfOk result (λ images. length images.items ≡ length rows.now) }
    ensures kinds { (kinds : List Kind)
        → KeepsKinds G.Fn change (set.from_list {R = row_cmp} rows.now) kinds
        → IfOk result (λ images. All (λ row. kinds_of row ≡ kinds) images.items) }
{
    let mut images = Vec::with_capacity(alloc, rows.len())?;
    for row in rows {
        match change(row) {
            Ok(image) => images.push(image)?,
            Err(error) => return Err(Refusal::Fault(error)),
        }
    }
    Ok(images)
}

/// The result, of two refusals within each other as one: memory ran out, in the call or in the closure, or the fault of
/// the closure.
pub(crate) fn flattened<T: Drop, E: Drop>(
    nested: Result<T, Refusal<Refusal<E>>>,
) -> Result<T, Refusal<E>>
    ensures { result ≡ flat nested }
{
    match nested {
        Ok(value) => Ok(value),
        Err(Refusal::Memory) => Err(Refusal::Memory),
        Err(Refusal::Fault(refusal)) => Err(refusal),
    }
}

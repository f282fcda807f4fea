//! Laws of the changes of tables.
ghost use Rattle.ent_rel.specs.ByRow.{InsertsOne, DeletesMatches, ReplacesMatches, ChangesRows};

/// Which rows stand after a change, row by row: after an insertion the new one and the old ones; after a deletion
/// those that do not match; after a replacement these and the images of those that match; after any change the
/// added ones and the old ones that were not removed.
pub fn changes_by_row<E>()
    ensures insertion { InsertsOne }
    ensures deletion { DeletesMatches }
    ensures replacement { ReplacesMatches E }
    ensures change { ChangesRows }
{}

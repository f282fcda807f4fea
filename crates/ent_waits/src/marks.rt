//! What rows of marks have in common.
ghost use Rattle.std.specs.Prelude.{◌≡◌, ℕ, true};
ghost use Rattle.ent_group.specs.Marks.{has_mark};

use ent_group::Row;

/// True where both rows have a mark at one place; it may be true elsewhere.
pub(crate) fn share_mark(left: Row, right: Row) -> bool
    ensures { (i : ℕ) → has_mark left i ≡ true → has_mark right i ≡ true → result ≡ true }
{
    left & right != 0
}

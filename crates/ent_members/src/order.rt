//! The order of those who wait, where some of them go behind the others.
ghost use Rattle.std.specs.Prelude.{◌≡◌, ◌+◌, ◌≤◌, drop, nat_eq};
ghost use Rattle.indexmap.specs.IndexMap.{IsReordered, index_map_len};
ghost use Rattle.ent_members.specs.TransactionOrder.{first_behind, part_reversed};

use ent_group::Tx;
use indexmap::IndexMap;

/// Up to so many entries are moved one by one, each past all others; for more, one pass for all together is shorter.
const FEW: usize = 3;

/// The entries from one place up to another come into the opposite order.
fn reverse_part(order: &mut IndexMap<Tx, usize>, start: usize, end: usize)
    requires ordered { start ≤ end }
    requires within { end ≤ index_map_len order.old }
    ensures entries { order.new.entries ≡ part_reversed start end order.old.entries }
    ensures reordered { IsReordered nat_eq order.old order.new }
{
    if start == 0 && end == order.len() {
        order.reverse();
        return;
    }
    for step in 0..(end - start) / 2 {
        order.swap_indices(start + step, end - 1 - step);
    }
}

/// As [`put_behind`], one by one.
fn put_each_behind(order: &mut IndexMap<Tx, usize>, start: usize, count: usize)
    requires { start + count ≤ index_map_len order.old }
    ensures entries { drop start order.new.entries ≡ first_behind count (drop start order.old.entries) }
    ensures reordered { IsReordered nat_eq order.old order.new }
{
    if count == 0 {
        return;
    }
    let last = order.len() - 1;
    order.move_index(start + count - 1, last);
    put_each_behind(order, start, count - 1);
}

/// Of the entries from a place on, the first go behind the others, as many as are told, the last of them first.
pub(crate) fn put_behind(order: &mut IndexMap<Tx, usize>, start: usize, count: usize)
    requires { start + count ≤ index_map_len order.old }
    ensures entries { drop start order.new.entries ≡ first_behind count (drop start order.old.entries) }
    ensures reordered { IsReordered nat_eq order.old order.new }
{
    if count <= FEW {
        put_each_behind(order, start, count);
        return;
    }
    let end = order.len();
    reverse_part(order, start, end);
    reverse_part(order, start, end - count);
}

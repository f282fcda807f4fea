//! A search for the least list of values, one value after the other, the least first. Where all values of a place fail,
//! it goes back to the last place that had to do with it. A value that fails whatever comes before it isn't tried
//! again.
ghost use Rattle.std.specs.Prelude.{◌≡◌, ◌≤◌, ◌+◌, Bool, false, List, IfOk, MatchOption, OnOk, length, is_some};
ghost use Rattle.ent_value.specs.declared.value.Value.{Value as Held};
ghost use Rattle.ent_join.specs.Reason.{IsBegun, IsFollowedFor, IsRefusedFor};
ghost use Rattle.ent_join.specs.Dead.{AreDead};
ghost use Rattle.ent_join.specs.Search.{IsGuide, IsLeast, IsSearched, NoDeadEnds, NonePasses, AreTicks};

use crate::cursor::Cursor;
use crate::dead::Dead;
use crate::reason::{Rooms, add_all, clear, set_all};
use ent_value::{Row, Ticks, Value};
use std::alloc::{AllocError, Global};

/// A test of lists of values and of their beginnings, and what may come next behind a beginning. Each answer marks the
/// places of the list for which it stands.
pub(crate) trait Guide {
    ghost passes: { Self → List Held → Bool };

    ghost candidates: { Self → List Held → List Held };

    /// Whether a list passes. What comes before its last value does.
    fn may_pass(&self, values: &[Value], reason: &mut [bool]) -> bool
        requires begun { IsBegun (passes self.now) values.now }
        requires places { length values.now ≤ length reason.old }
        ensures passes { result ≡ passes self.now values.now }
        ensures refused { result ≡ false → IsRefusedFor (passes self.now) values.now reason.new };

    fn candidates_after(&self, beginning: &[Value], reason: &mut [bool]) -> Cursor<'_>
        requires places { length beginning.now ≤ length reason.old }
        ensures candidates { result ≡ candidates self.now beginning.now }
        ensures followed { IsFollowedFor (candidates self.now) beginning.now reason.new };
}

/// Looks for the least list that passes and goes on with `left` more values, and leaves it where there is one. Where
/// there is none, `reason` marks the places for which there is none. Values that are found dead are kept in `dead`.
fn search<G: Guide>(
    alloc: Global,
    guide: &G,
    left: usize,
    values: &mut Vec<Value>,
    reason: &mut [bool],
    rooms: &mut Rooms,
    dead: &mut Dead,
    ticks: &mut Ticks,
) -> Result<bool, AllocError>
    requires guide { IsGuide (length values.old.items + left) (G.candidates guide.now) (G.passes guide.now) }
    requires begun { IsBegun (G.passes guide.now) values.old.items }
    requires places { length reason.old ≡ length values.old.items + left }
    requires rooms { rooms.old ≡ length values.old.items + left }
    requires dead { AreDead (length values.old.items + left) (G.passes guide.now) dead.old }
    ensures found { IfOk result
        (IsSearched (G.passes guide.now) left values.old.items values.new.items reason.new) }
    ensures same { rooms.new ≡ rooms.old }
    ensures dead { OnOk result (AreDead (length values.old.items + left) (G.passes guide.now) dead.new) }
    ensures ticks { NoDeadEnds (length values.old.items + left) (G.candidates guide.now) (G.passes guide.now)
        → IfOk result (AreTicks left ticks.old ticks.new) }
{
    clear(reason);
    if !guide.may_pass(values.as_slice(), reason) {
        return Ok(false);
    }
    if left == 0 {
        return Ok(true);
    }
    let place = values.len();
    let mut gathered = rooms.take(alloc)?;
    let mut cursor = guide.candidates_after(values.as_slice(), gathered.as_mut_slice());
    while let Some(value) = cursor.next_value(ticks) {
        if dead.has(place, value) {
            continue;
        }
        values.push(value.copy(alloc)?)?;
        if search(alloc, guide, left - 1, values, reason, rooms, dead, ticks)? {
            return Ok(true);
        }
        let _ = values.pop();
        if !reason[place] {
            rooms.give_back(gathered)?;
            return Ok(false);
        }
        dead.learn(alloc, place, value, reason)?;
        add_all(gathered.as_mut_slice(), reason);
    }
    set_all(reason, gathered.as_slice());
    rooms.give_back(gathered)?;
    Ok(false)
}

/// The least list of a number of values that passes.
pub(crate) fn least<G: Guide>(
    alloc: Global,
    guide: &G,
    count: usize,
    ticks: &mut Ticks,
) -> Result<Option<Row>, AllocError>
    requires { IsGuide count (G.candidates guide.now) (G.passes guide.now) }
    ensures least { IfOk result (λ found. MatchOption found (NonePasses count (G.passes guide.now))
        (IsLeast count (G.passes guide.now))) }
    ensures ticks { NoDeadEnds count (G.candidates guide.now) (G.passes guide.now)
        → IfOk result (λ found. AreTicks count ticks.old ticks.new (is_some found)) }
{
    let mut values = Vec::new(alloc);
    let mut rooms = Rooms::new(alloc, count);
    let mut reason = rooms.take(alloc)?;
    let mut dead = Dead::new(alloc, count)?;
    if search(
        alloc,
        guide,
        count,
        &mut values,
        reason.as_mut_slice(),
        &mut rooms,
        &mut dead,
        ticks,
    )? {
        Ok(Some(Row::from_vec(values)))
    } else {
        Ok(None)
    }
}

//! Demands that nobody meets who waits.
ghost use Rattle.std.specs.Prelude.{◌≡◌, ◌≤◌, ℕ, Some};
ghost use Rattle.ent_meetings.specs.Lack.{IsLack, LacksSome};
ghost use Rattle.ent_meetings.specs.Meeting.{IsLonely};
ghost use Rattle.ent_meetings.specs.Waiting.{party_at};

use crate::Party;
use crate::index::Index;
use crate::next::Next;

/// What a party demands that nobody may offer.
#[derive(Clone, Copy, Debug, PartialEq, Eq)]
pub enum Lack {
    /// The first such demand, by its place among the party's demands.
    Unoffered(usize),
    /// There is none.
    Nothing,
    /// The looks are used up.
    Stopped,
}

/// The first demand of a party that nobody who waits may offer. Whoever waits with such a demand is lonely. It looks at
/// as many candidates as `looks` says, which counts down.
pub fn unoffered(index: &Index, party: &Party, looks: &mut usize) -> Lack
    ensures lack { IsLack index.now party.now looks.new result }
    ensures looks { looks.new ≤ looks.old }
    ensures lonely { LacksSome result → (root : ℕ) → party_at index.now root ≡ Some party.now
        → IsLonely index.now root }
{
    let demands = party.demands.as_slice();
    for place in 0..demands.len() {
        match index.next_offerer(&demands[place], None, looks) {
            Next::Found(_) => {}
            Next::Nobody => return Lack::Unoffered(place),
            Next::Stopped(_) => return Lack::Stopped,
        }
    }
    Lack::Nothing
}

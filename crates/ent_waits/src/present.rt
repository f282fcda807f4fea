//! Whether statements are a component now.
ghost use Rattle.std.specs.Prelude.{◌≡◌, ◌↔◌, ◌<◌, IfOk, IsTrue, length};
ghost use Rattle.ent_match.specs.Components.{AreFirstPlaces, FirstIs, component_at};
ghost use Rattle.ent_protocol.specs.Member.{pool as pool_of};
ghost use Rattle.ent_protocol.specs.PoolEvents.{IsPresentComponent};
ghost use Rattle.ent_protocol.specs.State.{State};

use ent_match::{Pool, Posted, begins_at, is_component_at, place_of};
use ent_semantics::components_are_classes;
use std::alloc::{AllocError, Global};

/// Whether a component begins at a place, and is of exactly some statements.
fn is_whole_at(members: &[Posted], firsts: &[Option<usize>], place: usize, asked: &[Posted]) -> bool
    requires firsts { AreFirstPlaces members.now firsts.now }
    requires within { place < length firsts.now }
    ensures { IsTrue result
        ↔ (FirstIs firsts.now place place × (component_at firsts.now place members.now ≡ asked.now)) }
{
    begins_at(firsts[place], place) && is_component_at(members, firsts, place, asked)
}

/// Whether some statements are posted just so, of these attempts and at these places, and exactly a component of those
/// that are posted. No statement is shared.
pub fn is_present(alloc: Global, pool: &Pool, asked: &[Posted]) -> Result<bool, AllocError>
    ensures { IfOk result (λ is. (s : State)
        → pool_of s ≡ pool.now
        → IsTrue is ↔ IsPresentComponent s asked.now) }
{
    let Some(first) = asked.first() else {
        return Ok(false);
    };
    let members = pool.members();
    let Some(place) = place_of(members, first.tx()) else {
        return Ok(false);
    };
    components_are_classes();
    let firsts = pool.first_places(alloc)?;
    Ok(is_whole_at(members, firsts.as_slice(), place, asked))
}

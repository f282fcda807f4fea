//! Components that are neither tried nor out.
ghost use Rattle.std.specs.Prelude.{◌≡◌, ◌↔◌, ◌<◌, Contains, IsTrue, MatchOption, length};
ghost use Rattle.ent_match.specs.Components.{AreFirstPlaces, component_at};
ghost use Rattle.ent_protocol.specs.Job.{Joint};
ghost use Rattle.ent_waits.specs.Open.{IsFirstOpen, IsOpenAt, IsOutAmong, NoneIsOpen};

use ent_job::{Job, Work};
use ent_match::{Posted, begins_at, is_component_at};
use ent_value::Sequence;

/// Whether the component that begins at a place is one of some lists.
fn is_among(
    lists: &[Sequence<Posted>],
    members: &[Posted],
    firsts: &[Option<usize>],
    place: usize,
) -> bool
    requires { AreFirstPlaces members.now firsts.now }
    ensures { IsTrue result ↔ Contains lists.now (component_at firsts.now place members.now) }
{
    for other in lists {
        if is_component_at(members, firsts, place, other.as_slice()) {
            return true;
        }
    }
    false
}

/// Whether a job is one of exactly the component that begins at a place.
fn is_job_of(job: &Job, members: &[Posted], firsts: &[Option<usize>], place: usize) -> bool
    requires { AreFirstPlaces members.now firsts.now }
    ensures { IsTrue result ↔ (job.now.work ≡ Joint (component_at firsts.now place members.now)) }
{
    match job.work() {
        Work::One(_) => false,
        Work::Joint(other) => is_component_at(members, firsts, place, other.as_slice()),
    }
}

/// Whether a job of exactly the component that begins at a place is one of those lent.
fn is_out(lent: &[Job], members: &[Posted], firsts: &[Option<usize>], place: usize) -> bool
    requires { AreFirstPlaces members.now firsts.now }
    ensures { IsTrue result ↔ IsOutAmong lent.now (component_at firsts.now place members.now) }
{
    for job in lent {
        if is_job_of(job, members, firsts, place) {
            return true;
        }
    }
    false
}

/// Whether a component begins at a place, and is neither tried nor out.
fn is_open_at(
    members: &[Posted],
    firsts: &[Option<usize>],
    tried: &[Sequence<Posted>],
    lent: &[Job],
    place: usize,
) -> bool
    requires firsts { AreFirstPlaces members.now firsts.now }
    requires within { place < length firsts.now }
    ensures { IsTrue result ↔ IsOpenAt members.now firsts.now tried.now lent.now place }
{
    begins_at(firsts[place], place)
        && !is_among(tried, members, firsts, place)
        && !is_out(lent, members, firsts, place)
}

/// The first place at which a component begins that is neither tried nor out.
pub(crate) fn first_open(
    members: &[Posted],
    firsts: &[Option<usize>],
    tried: &[Sequence<Posted>],
    lent: &[Job],
) -> Option<usize>
    requires { AreFirstPlaces members.now firsts.now }
    ensures { MatchOption result (NoneIsOpen members.now firsts.now tried.now lent.now)
        (IsFirstOpen members.now firsts.now tried.now lent.now) }
{
    for place in 0..firsts.len() {
        if is_open_at(members, firsts, tried, lent, place) {
            return Some(place);
        }
    }
    None
}

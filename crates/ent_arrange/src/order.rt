//! The order of scripts.
ghost use Rattle.std.specs.Prelude.{◌≡◌, length, IfOk};
ghost use Rattle.std.specs.List.{range_with_len};
ghost use Rattle.std.specs.List.Sorted.{IsPermutation};

use crate::blocks::in_blocks;
use crate::meeting::MeetingMember;
use crate::waiting::Waiting;
use ent_tree::Script;
use std::alloc::{AllocError, Global};

/// An order of scripts, and who meets. A script is named by its place in the input, from 0.
#[derive(Drop)]
pub(crate) struct Arrangement {
    /// All scripts, in this order.
    pub(crate) order: Vec<usize>,
    /// How many meetings of two scripts and more there are.
    pub(crate) meetings: usize,
    /// How many scripts the largest of them has; 0 where there is none.
    pub(crate) largest: usize,
    /// Whoever stands in no set of these scripts, without those of meetings, in which each demand may be met.
    pub(crate) lonely: Vec<MeetingMember>,
    /// Scripts that may stand in a meeting, but for which none of a run's size was found.
    pub(crate) unmet: Vec<MeetingMember>,
}

/// The order of scripts: whole meetings, each begun by its first script, its members in order; then those who are in no
/// meeting, in order.
///
/// It is an order of the scripts; no clause says which. Meetings stand in blocks of as many scripts as a run has. One
/// crosses the end of a block only where no other one fits in, and two that may meet stand in different blocks, as long
/// as there are others to put between.
pub(crate) fn order(alloc: Global, scripts: &[Script]) -> Result<Arrangement, AllocError>
    ensures { IfOk result (λ made.
        IsPermutation (range_with_len 0 (length scripts.now)) made.order.items) }
{
    let mut waiting = Waiting::of(alloc, scripts)?;
    let mut meetings = Vec::new(alloc);
    for script in 0..scripts.len() {
        if let Some(meeting) = waiting.meet(alloc, script)? {
            meetings.push(meeting)?;
        }
    }
    let met = in_blocks(alloc, meetings.as_slice())?;
    let (lonely, unmet) = waiting.left(alloc, scripts.len())?;
    Ok(Arrangement {
        order: with_first(alloc, scripts.len(), met.as_slice())?,
        meetings: meetings.iter().filter(|meeting| meeting.len() > 1).count(),
        largest: meetings
            .iter()
            .map(|meeting| meeting.len())
            .filter(|size| *size > 1)
            .max()
            .unwrap_or(0),
        lonely,
        unmet,
    })
}

/// So many scripts: these first, in this order, then the others, in order.
fn with_first(alloc: Global, count: usize, first: &[usize]) -> Result<Vec<usize>, AllocError>
    ensures { IfOk result (λ scripts. IsPermutation (range_with_len 0 count) scripts.items) }
{
    let ranks = ranks(alloc, count, first)?;
    let mut scripts = in_order(alloc, count)?;
    scripts.sort_by_key(|script| ranks.get(*script).copied().unwrap_or(usize::MAX))?;
    Ok(scripts)
}

/// So many scripts, in order.
#[tactic(auto, using(crate::proofs::Numbers::more_numbers))]
fn in_order(alloc: Global, count: usize) -> Result<Vec<usize>, AllocError>
    ensures { IfOk result (λ scripts. scripts.items ≡ range_with_len 0 count) }
{
    let mut scripts = Vec::with_capacity(alloc, count)?;
    for script in 0..count {
        scripts.push(script)?;
    }
    Ok(scripts)
}

/// The place of each of so many scripts among the first ones; the greatest number where it isn't there.
fn ranks(alloc: Global, count: usize, first: &[usize]) -> Result<Vec<usize>, AllocError> {
    let mut ranks = vec![in alloc; usize::MAX; count]?;
    for (rank, script) in first.iter().enumerate() {
        if let Some(own) = ranks.get_mut(*script) {
            *own = rank;
        }
    }
    Ok(ranks)
}

//! What is seen of all transactions, and the joint answers of a run.
ghost use Rattle.std.specs.Prelude.{◌<◌, OnOk, length};

use crate::observation::{Block, Lacking, Need, Observation, Step};
use crate::walk::Walk;
use ent_group::{MOST_MEMBERS, Members, Tx};
use std::alloc::{AllocError, Global};

/// What is kept of a transaction.
#[derive(Drop)]
struct Kept {
    observation: Option<Observation>,
    /// What it lacked when this was seen.
    lacking: Option<Lacking>,
    /// Who ties it to the one for whose sake it was rolled back, from itself to that one.
    tie: Members,
    /// The place of the deadlock for which it was rolled back.
    deadlock: Option<usize>,
}

impl Kept {
    /// Nothing.
    fn new() -> Self {
        Kept {
            observation: None,
            lacking: None,
            tie: Members::new(),
            deadlock: None,
        }
    }
}

/// What was seen last of each transaction in its last run, and by which joint answers it hangs together with the one
/// for whose sake it was rolled back. Where memory runs out for one, less is told of it.
#[derive(Drop)]
pub struct Observations {
    alloc: Global,
    /// By number; there is no transaction 0.
    kept: Vec<Kept>,
    /// The joint answers of the present run.
    joints: Vec<Members>,
    /// The deadlocks that were broken, each with those of its steps that were seen.
    deadlocks: Vec<Vec<Step>>,
}

impl Observations {
    /// Nothing is seen yet.
    pub fn new(alloc: Global) -> Self {
        Observations {
            alloc,
            kept: Vec::new(alloc),
            joints: Vec::new(alloc),
            deadlocks: Vec::new(alloc),
        }
    }

    /// A run of these starts: nothing is seen of them yet.
    pub fn start(&mut self, members: &Members) {
        self.joints.clear();
        for tx in members.as_slice() {
            if let Ok(kept) = self.of_mut(*tx) {
                *kept = Kept::new();
            }
        }
    }

    /// These were answered together.
    pub fn join(&mut self, members: &Members) {
        let _ = self.joints.push(members.copy());
    }

    /// This is seen of a transaction now.
    pub fn see(&mut self, tx: Tx, observation: Option<Observation>) {
        if let Ok(kept) = self.of_mut(tx) {
            kept.observation = observation;
        }
    }

    /// These tables block a transaction now, and this is the least of its group. What its demands lack stays as it was
    /// seen last.
    pub fn see_blocks(&mut self, tx: Tx, group: Tx, blocks: Vec<Block>) {
        let Ok(kept) = self.of_mut(tx) else {
            return;
        };
        if let Some(seen) = kept.observation.as_mut() {
            seen.group = group;
            seen.blocks = blocks;
            return;
        }
        kept.observation = Some(Observation {
            group,
            need: Need::Nothing,
            blocks,
        });
    }

    /// All of these were seen: keeps what each of them lacks.
    pub fn settle(&mut self, members: &Members) {
        for tx in members.as_slice() {
            let lacking = self.lacking_now(*tx);
            if let Ok(kept) = self.of_mut(*tx) {
                kept.lacking = lacking;
            }
        }
    }

    fn lacking_now(&self, tx: Tx) -> Option<Lacking> {
        let way = self.way_to_unmet(tx);
        let last = way.as_slice().last().copied()?;
        let Some(Need::Unmet { number, demand }) = self.need(last) else {
            return None;
        };
        let mut copy = Vec::new(self.alloc);
        if copy.extend_from_slice(demand.as_slice()).is_err() {
            return None;
        }
        Some(Lacking {
            way,
            number: *number,
            demand: copy,
        })
    }

    /// What a transaction lacked when it was seen last in its last run, if it lacked anything.
    pub fn lacking(&self, tx: Tx) -> Option<&Lacking> {
        self.kept.get(tx as usize)?.lacking.as_ref()
    }

    /// A group is rolled back for the sake of one of it.
    pub fn tie(&mut self, group: &Members, by: Tx) {
        for tx in group.as_slice() {
            let way = self.way_between(*tx, by);
            if let Ok(kept) = self.of_mut(*tx) {
                kept.tie = way;
            }
        }
    }

    /// A deadlock is broken: this group is rolled back for it. What was seen of its steps is kept as it is now.
    pub fn break_deadlock(&mut self, cycle: &Members, group: &Members) {
        let steps = self.take_steps(cycle);
        let place = self.deadlocks.len();
        if self.deadlocks.push(steps).is_err() {
            return;
        }
        for tx in group.as_slice() {
            if let Ok(kept) = self.of_mut(*tx) {
                kept.deadlock = Some(place);
            }
        }
    }

    fn take_steps(&mut self, cycle: &Members) -> Vec<Step> {
        let mut steps = Vec::new(self.alloc);
        let first = cycle.get(0).unwrap_or(0);
        for (index, from) in cycle.as_slice().iter().enumerate() {
            let to = cycle.get(index.saturating_add(1)).unwrap_or(first);
            if let Some(block) = self.take_block(*from, to) {
                let _ = steps.push(Step { from: *from, block });
            }
        }
        steps
    }

    /// Takes the table on which another, or else one of its group, blocks a transaction.
    fn take_block(&mut self, from: Tx, to: Tx) -> Option<Block> {
        let place = self.block_place(from, to)?;
        let observation = self.kept.get_mut(from as usize)?.observation.as_mut()?;
        if place < observation.blocks.len() {
            Some(observation.blocks.remove(place))
        } else {
            None
        }
    }

    fn block_place(&self, from: Tx, to: Tx) -> Option<usize> {
        let blocks = self.observation(from)?.blocks.as_slice();
        if let Some(place) = blocks.iter().position(|block| block.holder == to) {
            return Some(place);
        }
        let group = self.group(to)?;
        blocks
            .iter()
            .position(|block| self.group(block.holder) == Some(group))
    }

    fn group(&self, tx: Tx) -> Option<Tx> {
        Some(self.observation(tx)?.group)
    }

    /// The steps of the deadlock for which a transaction was rolled back, as far as they were seen.
    pub fn steps(&self, tx: Tx) -> &[Step] {
        let place = match self.kept.get(tx as usize) {
            Some(kept) => kept.deadlock,
            None => None,
        };
        match place.and_then(|place| self.deadlocks.get(place)) {
            Some(steps) => steps.as_slice(),
            None => &[],
        }
    }

    /// From one to another, each answered together with the next one.
    fn way_between(&self, one: Tx, other: Tx) -> Members {
        let mut walk = Walk::new(one);
        for place in 0..MOST_MEMBERS {
            let Some(tx) = walk.get(place) else {
                break;
            };
            if tx == other {
                return walk.way_to(place);
            }
            for joint in self.joints.iter().filter(|joint| joint.contains(tx)) {
                walk.reach(joint, place);
            }
        }
        Members::new()
    }

    fn of_mut(&mut self, tx: Tx) -> Result<&mut Kept, AllocError> {
        let place = tx as usize;
        extend_to(&mut self.kept, place)?;
        Ok(&mut self.kept[place])
    }

    /// What was seen last of a transaction in its last run, if anything was.
    pub fn observation(&self, tx: Tx) -> Option<&Observation> {
        self.kept.get(tx as usize)?.observation.as_ref()
    }

    /// From a transaction to one that has a demand for which nobody offers a match, each next one offering a match for
    /// a demand of the one before; nobody where there is no such one.
    fn way_to_unmet(&self, tx: Tx) -> Members {
        let mut walk = Walk::new(tx);
        for place in 0..MOST_MEMBERS {
            let Some(here) = walk.get(place) else {
                break;
            };
            match self.need(here) {
                Some(Need::Unmet { .. }) => return walk.way_to(place),
                Some(Need::Met(owners)) => walk.reach(owners, place),
                _ => {}
            }
        }
        Members::new()
    }

    fn need(&self, tx: Tx) -> Option<&Need> {
        Some(&self.observation(tx)?.need)
    }

    /// From a transaction to the one for whose sake it was rolled back, each answered together with the next one.
    pub fn tie_of(&self, tx: Tx) -> &[Tx] {
        match self.kept.get(tx as usize) {
            Some(kept) => kept.tie.as_slice(),
            None => &[],
        }
    }
}

/// Adds empty entries up to this place. If memory runs out, there may be fewer.
fn extend_to(kept: &mut Vec<Kept>, place: usize) -> Result<(), AllocError>
    ensures { OnOk result (place < length kept.new.items) }
{
    while kept.len() <= place {
        kept.push(Kept::new())?;
    }
    Ok(())
}

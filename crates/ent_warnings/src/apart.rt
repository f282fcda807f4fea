//! Scripts that may meet, and stand too far apart to share a run.
use crate::needs::needs_too_many;
use crate::postcondition::Postcondition;
use ent_group::MOST_MEMBERS;
use ent_meetings::{Party, Pattern, is_met};
use ent_tree::Script;
use std::alloc::{AllocError, Global};

/// Demands that only scripts may meet that stand in other blocks of 64 among those that wait for others: in a crowd
/// they share no run with them.
#[derive(Clone, Copy)]
pub(crate) struct Apart<'a> {
    /// The first of them.
    pub(crate) first: Postcondition<'a>,
    pub(crate) count: usize,
}

/// The first demand of this sort of a script that needs more others than a run has room for, so that no other order
/// helps; and the script's number.
#[derive(Clone, Copy)]
pub(crate) struct Hopeless<'a> {
    pub(crate) demand: Postcondition<'a>,
    pub(crate) script: usize,
}

/// A script with an entangled statement, so that it waits for others, and its index.
#[derive(Clone, Copy)]
struct Waiter<'a> {
    script: &'a Script,
    party: &'a Party,
    index: usize,
}

/// What is told of demands that only scripts of other blocks may meet.
#[derive(Clone, Copy)]
pub(crate) struct Distant<'a> {
    /// Those that another order of the scripts may help.
    pub(crate) apart: Option<Apart<'a>>,
    pub(crate) hopeless: Option<Hopeless<'a>>,
}

impl<'a> Distant<'a> {
    /// Those of scripts that offer and demand so.
    pub(crate) fn of(
        alloc: Global,
        scripts: &'a [Script],
        parties: &'a [Party],
    ) -> Result<Self, AllocError> {
        let mut distant = Distant {
            apart: None,
            hopeless: None,
        };
        let mut waiters = Vec::new(alloc);
        for (index, (script, party)) in scripts.iter().zip(parties.iter()).enumerate() {
            if !party.offers.is_empty() {
                waiters.push(Waiter {
                    script,
                    party,
                    index,
                })?;
            }
        }
        if waiters.len() > MOST_MEMBERS {
            for block in waiters.chunks(MOST_MEMBERS) {
                for waiter in block {
                    distant.count(alloc, parties, block, *waiter)?;
                }
            }
        }
        Ok(distant)
    }

    /// Counts the demands of a script of this block.
    fn count(
        &mut self,
        alloc: Global,
        parties: &[Party],
        block: &[Waiter<'_>],
        waiter: Waiter<'a>,
    ) -> Result<(), AllocError> {
        let written = Postcondition::all_of(alloc, waiter.script)?;
        for (postcondition, demand) in written.iter().zip(waiter.party.demands.iter()) {
            if !is_met_in(block, demand) && is_met(parties, demand) {
                self.add(alloc, parties, *postcondition, waiter.index)?;
            }
        }
        Ok(())
    }

    /// Adds a demand. Up to the first one that another order may help, it looks whether any order can.
    fn add(
        &mut self,
        alloc: Global,
        parties: &[Party],
        demand: Postcondition<'a>,
        index: usize,
    ) -> Result<(), AllocError> {
        if let Some(Apart { first, count }) = self.apart {
            self.apart = Some(Apart {
                first,
                count: count.saturating_add(1),
            });
        } else if !needs_too_many(alloc, parties, index)? {
            self.apart = Some(Apart {
                first: demand,
                count: 1,
            });
        } else if self.hopeless.is_none() {
            self.hopeless = Some(Hopeless {
                demand,
                script: index.saturating_add(1),
            });
        }
        Ok(())
    }
}

/// Whether a script of the block may offer what is demanded.
fn is_met_in(block: &[Waiter<'_>], demand: &Pattern) -> bool {
    block.iter().any(|waiter| waiter.party.offers(demand))
}

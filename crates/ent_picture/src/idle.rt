//! Lanes and runs in which nothing happens but waiting: a picture of many lanes leaves them out.
use crate::joints::JointAnswer;
use crate::{Event, Exchange, Reply};
use ent_group::Tx;
use std::alloc::{AllocError, Global};

/// A picture of more lanes leaves out those that are idle.
const MANY_LANES: usize = 20;

/// The lanes of a picture, and how many transactions and runs are left out.
#[derive(Drop)]
pub(crate) struct Shown {
    pub(crate) members: Vec<Tx>,
    pub(crate) idle_lanes: usize,
    pub(crate) idle_runs: usize,
}

impl Shown {
    /// Of many members, by number, those that are picked, and those that were answered, committed, rolled back or
    /// failed in some run; all, where there are few, or none like that.
    pub(crate) fn of(
        alloc: Global,
        trace: &[Exchange],
        joints: &[JointAnswer],
        members: Vec<Tx>,
        picked: &[Tx],
    ) -> Result<Self, AllocError> {
        let mut shown = Vec::new(alloc);
        if members.len() > MANY_LANES {
            let struck = struck_in(alloc, trace, joints)?;
            for tx in members.iter() {
                if struck.binary_search(tx).is_ok() || picked.contains(tx) {
                    shown.push(*tx)?;
                }
            }
        }
        if shown.is_empty() {
            return Ok(Shown {
                members,
                idle_lanes: 0,
                idle_runs: 0,
            });
        }
        Ok(Shown {
            idle_lanes: members.len().saturating_sub(shown.len()),
            members: shown,
            idle_runs: 0,
        })
    }

    /// Leaves out the runs in which no member that is shown was answered, committed, rolled back or failed, where a
    /// picture has many lanes: there they have no members. It counts the runs in which it leaves somebody out.
    pub(crate) fn leave_out_runs(
        &mut self,
        alloc: Global,
        trace: &mut Vec<Exchange>,
        joints: &[JointAnswer],
    ) -> Result<(), AllocError> {
        if self.members.len().saturating_add(self.idle_lanes) <= MANY_LANES {
            return Ok(());
        }
        let mut from = 0usize;
        for index in 1..=trace.len() {
            if begins_run(trace.as_slice(), index) || index == trace.len() {
                if self.is_idle(alloc, trace.as_slice(), joints, from, index)? {
                    self.leave_out(alloc, trace, from, index);
                }
                from = index;
            }
        }
        Ok(())
    }

    /// Whether nobody who is shown was answered, committed, rolled back or failed in the exchanges from one index up to
    /// another.
    fn is_idle(
        &self,
        alloc: Global,
        trace: &[Exchange],
        joints: &[JointAnswer],
        from: usize,
        to: usize,
    ) -> Result<bool, AllocError> {
        let mut struck = Vec::new(alloc);
        for exchange in trace.get(from..to).unwrap_or(&[]) {
            put_struck(&mut struck, &exchange.reply)?;
        }
        for joint in joints {
            if from <= joint.at && joint.at < to {
                struck.extend_from_slice(joint.members.as_slice())?;
            }
        }
        Ok(
            !struck
                .iter()
                .any(|tx| self.members.binary_search(tx).is_ok()),
        )
    }

    fn leave_out(&mut self, alloc: Global, trace: &mut Vec<Exchange>, from: usize, to: usize) {
        let mut is_left_out = false;
        for index in from..to {
            if let Some(exchange) = trace.get_mut(index) {
                if let Reply::Started(members) = &exchange.reply {
                    is_left_out = members
                        .iter()
                        .any(|tx| self.members.binary_search(tx).is_ok());
                }
                quieten(alloc, exchange);
            }
        }
        if is_left_out {
            self.idle_runs = self.idle_runs.saturating_add(1);
        }
    }
}

/// Whether the exchange of an index starts a run.
fn begins_run(trace: &[Exchange], index: usize) -> bool {
    match trace.get(index) {
        Some(exchange) => matches!(exchange.reply, Reply::Started(_)),
        None => false,
    }
}

/// Takes the members out of an exchange: nobody is in the run.
fn quieten(alloc: Global, exchange: &mut Exchange) {
    if let Event::Begin(_) = exchange.event {
        exchange.event = Event::Begin(0);
    }
    match exchange.reply {
        Reply::Started(_) => exchange.reply = Reply::Started(Vec::new(alloc)),
        Reply::Ended(_) => exchange.reply = Reply::Ended(Vec::new(alloc)),
        _ => {}
    }
}

/// Those that were answered, committed, rolled back or failed, each once, by number.
fn struck_in(
    alloc: Global,
    trace: &[Exchange],
    joints: &[JointAnswer],
) -> Result<Vec<Tx>, AllocError> {
    let mut struck = Vec::new(alloc);
    for exchange in trace {
        put_struck(&mut struck, &exchange.reply)?;
    }
    for joint in joints {
        struck.extend_from_slice(joint.members.as_slice())?;
    }
    struck.sort_unstable();
    struck.dedup();
    Ok(struck)
}

/// Puts those of whom a reply says that they committed, were rolled back or failed.
fn put_struck(struck: &mut Vec<Tx>, reply: &Reply) -> Result<(), AllocError> {
    match reply {
        Reply::Committed(commits) => {
            for commit in commits {
                struck.push(commit.tx)?;
            }
        }
        Reply::RolledBack(group) => struck.extend_from_slice(group.as_slice())?,
        Reply::Failed(_, group) => struck.extend_from_slice(group.as_slice())?,
        Reply::Broken { cycle, group } => {
            struck.extend_from_slice(cycle.as_slice())?;
            struck.extend_from_slice(group.as_slice())?;
        }
        _ => {}
    }
    Ok(())
}

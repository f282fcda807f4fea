//! Who was answered together.
//!
//! A trace doesn't say it. Members of a run are begun in turn, and a posted one isn't begun before it is answered: so
//! the members of a joint answer are those that were posted before it and are begun again after it, before another
//! joint answer is made.
use crate::{Event, Exchange, Reply};
use ent_group::Tx;
use std::alloc::{AllocError, Global};
use std::collections::BTreeMap;

/// A joint answer: the index of its exchange, and its members, in the order in which they are begun again.
#[derive(Debug, Drop)]
pub struct JointAnswer {
    pub at: usize,
    pub members: Vec<Tx>,
}

/// The joint answers of a trace, in order.
pub fn joint_answers(alloc: Global, trace: &[Exchange]) -> Result<Vec<JointAnswer>, AllocError> {
    let mut joints = Vec::new(alloc);
    let mut posted = BTreeMap::new(alloc);
    for (at, exchange) in trace.iter().enumerate() {
        match exchange.reply {
            Reply::Started(_) => posted = BTreeMap::new(alloc),
            Reply::Answered => joints.push(JointAnswer {
                at,
                members: Vec::new(alloc),
            })?,
            Reply::Refused(_) => {}
            _ => {
                if let Event::Begin(tx) = exchange.event {
                    begin(&mut joints, &mut posted, tx)?;
                }
            }
        }
        if let (Event::Begin(tx), Reply::Posted) = (exchange.event, &exchange.reply) {
            posted.insert(tx, at)?;
        }
    }
    Ok(joints)
}

/// A transaction is begun: where it was posted before the last joint answer, it is a member of that.
fn begin(
    joints: &mut Vec<JointAnswer>,
    posted: &mut BTreeMap<Tx, usize>,
    tx: Tx,
) -> Result<(), AllocError> {
    let Some(since) = posted.remove(&tx) else {
        return Ok(());
    };
    if let Some(joint) = joints.last_mut() {
        if since < joint.at {
            joint.members.push(tx)?;
        }
    }
    Ok(())
}

//! A look at a core: what stops the members of its run.
use ent_group::{Members, Tx};
use ent_match::Demand;
use ent_members::Conflict;
use ent_reasons::{Block, Need, Observation, Observations, append_demand};
use ent_sched::{BeginRefusal, Core, Obstacle};
use ent_semantics::Atom;
use ent_tree::{Duplicate, Opening};
use ent_value::Value;
use std::alloc::{AllocError, Global};

/// Notes what is seen of the members of a run. Where memory runs out for one, nothing is.
pub(crate) fn look(alloc: Global, observations: &mut Observations, core: &Core) {
    let members = core.members();
    for tx in members.as_slice() {
        observations.see(*tx, observation_of(alloc, core, &members, *tx).ok());
    }
    observations.settle(&members);
}

/// Notes of the members of a run which tables block them. Where memory runs out for one, none do. This takes little
/// time: nothing is looked for among the posted statements.
pub(crate) fn look_at_blocks(alloc: Global, observations: &mut Observations, core: &Core) {
    let members = core.members();
    for tx in members.as_slice() {
        let blocks = match blocks_if_blocked(alloc, core, &members, *tx) {
            Ok(blocks) => blocks,
            Err(_) => Vec::new(alloc),
        };
        observations.see_blocks(*tx, group_of(core, *tx), blocks);
    }
}

/// The tables that block a member which would begin else; none where nobody blocks it, which is found out quickly.
fn blocks_if_blocked(
    alloc: Global,
    core: &Core,
    members: &Members,
    tx: Tx,
) -> Result<Vec<Block>, AllocError> {
    match core.free_member(tx) {
        Err(BeginRefusal::Blocked(_)) => blocks_of(alloc, core, members, tx),
        _ => Ok(Vec::new(alloc)),
    }
}

/// The least member of a member's group.
fn group_of(core: &Core, tx: Tx) -> Tx {
    core.group(tx).get(0).unwrap_or(tx)
}

/// What is seen of a member.
fn observation_of(
    alloc: Global,
    core: &Core,
    members: &Members,
    tx: Tx,
) -> Result<Observation, AllocError> {
    let group = group_of(core, tx);
    let mut need = Need::Nothing;
    let mut blocks = Vec::new(alloc);
    match core.obstacle(tx)? {
        Some(Obstacle::Posted(demand)) => need = need_of(alloc, core, tx, demand)?,
        Some(Obstacle::Blocked(_)) => blocks = blocks_of(alloc, core, members, tx)?,
        _ => {}
    }
    Ok(Observation {
        group,
        need,
        blocks,
    })
}

/// What the demands of a posted statement lack.
fn need_of(alloc: Global, core: &Core, tx: Tx, demand: Demand) -> Result<Need, AllocError> {
    match demand {
        Demand::Met(owners) => Ok(Need::Met(owners)),
        Demand::Unmet(index) => {
            let posted = core.posted(tx);
            match posted.and_then(|query| query.statement().posts.get(index)) {
                Some(post) => unmet(alloc, index, post),
                None => Ok(Need::Nothing),
            }
        }
    }
}

/// A demand for which nobody offers a match.
fn unmet(alloc: Global, index: usize, post: &Atom<Value>) -> Result<Need, AllocError> {
    let mut demand = Vec::new(alloc);
    append_demand(alloc, &mut demand, &post.relation, post.terms.as_slice())?;
    let number = index.saturating_add(1);
    Ok(Need::Unmet { number, demand })
}

/// The tables that others hold in conflict with a member.
fn blocks_of(
    alloc: Global,
    core: &Core,
    members: &Members,
    tx: Tx,
) -> Result<Vec<Block>, AllocError> {
    let mut blocks = Vec::new(alloc);
    for holder in members.as_slice() {
        if *holder == tx {
            continue;
        }
        if let Some(conflict) = core.conflict(tx, *holder) {
            push_block(alloc, &mut blocks, core.opening(), *holder, conflict)?;
        }
    }
    Ok(blocks)
}

fn push_block(
    alloc: Global,
    blocks: &mut Vec<Block>,
    opening: &Opening,
    holder: Tx,
    conflict: Conflict,
) -> Result<(), AllocError> {
    let Conflict { table, asked, held } = conflict;
    if let Some(create) = opening.tables.get(table) {
        blocks.push(Block {
            holder,
            table: create.name.name.copy(alloc)?,
            asked,
            held,
        })?;
    }
    Ok(())
}

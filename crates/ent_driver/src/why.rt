//! What keeps a transaction from moving, told in a line.
ghost use Rattle.std.specs.Prelude.{◌≡◌, ◌<◌, ◌++◌, length, ℕ, IfErr, IfOk, OnOk, Some};
ghost use Rattle.ent_book.specs.Report.{fate_text};
ghost use Rattle.ent_core.specs.Obstacle.{FaresSo, IsObstacle};
ghost use Rattle.ent_core.specs.declared.obstacle.Obstacle.TheVariants as obstacles;
ghost use Rattle.ent_driver.specs.Why.{Explains, IsUnexplained, IsUntold, Says, SaysOutside, TellsWhy};
ghost use Rattle.ent_driver.specs.Why.{blocked_text, dormant_text, held_back_text, held_text, isnt_prepared};
ghost use Rattle.ent_driver.specs.Why.{offers_text, post_text, posted_text, waited_for};
ghost use Rattle.ent_match.specs.declared.demand.Demand.TheVariants.{Met, Unmet};
ghost use Rattle.ent_form.specs.declared.fault.FormFault.{FormFault as Form};
ghost use Rattle.ent_protocol.specs.Begin.{Begins};
ghost use Rattle.ent_protocol.specs.Event as replies;
ghost use Rattle.ent_protocol.specs.Lookup.{standing};

use crate::driver::Driver;
use crate::fault::DriverFault;
use crate::piece::{
    append_both, append_mode, append_numbered_demand, append_table_name, append_tx, append_txs,
};
use ent_book::{append_after, append_fate, append_number};
use ent_core::{Core, Obstacle, Standing};
use ent_form::FormFault;
use ent_group::{Members, Tx};
use ent_match::{Demand, Posted, Unsafe};
use ent_members::Conflict;
use ent_protocol_laws::members_stand_by_number;
use ent_semantics::Fate;
use ent_tree::Opening;
use std::alloc::{AllocError, Global};

// ---- transactions that are no members of a run

fn dormant_text(alloc: Global, runs: u64) -> Result<Vec<u8>, AllocError>
    ensures { IfOk result (λ words. words.items ≡ dormant_text runs) }
{
    let mut out = Vec::from_slice(alloc, b"dormant")?;
    append_after(alloc, &mut out, runs)?;
    out.extend_from_slice(b", and waits for a run")?;
    Ok(out)
}

fn fate_text(alloc: Global, fate: Fate) -> Result<Vec<u8>, AllocError>
    ensures { IfOk result (λ words. words.items ≡ fate_text fate) }
{
    let mut out = Vec::new(alloc);
    append_fate(alloc, &mut out, fate)?;
    Ok(out)
}

/// Where a transaction stands that is no member of a run.
fn outside_text(alloc: Global, core: &Core, tx: Tx) -> Result<Vec<u8>, DriverFault>
    requires outside { Begins {F = Form} core.now tx replies.Absent core.now }
    ensures ok { IfOk result (λ words. SaysOutside (standing core.now tx) words.items) }
    ensures refused { IfErr result (λ fault. IsUntold core.now tx fault) }
{
    let Some(stands) = core.standing(tx) else {
        return Err(DriverFault::Absent);
    };
    match stands {
        Standing::Dormant(runs) => Ok(dormant_text(alloc, runs)?),
        Standing::Finished(fate) => Ok(fate_text(alloc, fate)?),
        _ => unreachable!(),
    }
}

// ---- members whose statements are posted

/// That nobody offers a demand: its number, and how it is written.
fn unmet_text(alloc: Global, query: &Posted, index: usize) -> Result<Vec<u8>, AllocError>
    requires { index < length query.now.statement.posts }
    ensures { IfOk result (λ words. words.items ≡ posted_text query.now (Unmet index)) }
{
    let posts = &query.statement().posts;
    let _count = posts.len();
    let mut out = Vec::from_slice(alloc, b"posted, and nobody offers a match for its demand ")?;
    append_numbered_demand(alloc, &mut out, index, posts.get(index))?;
    Ok(out)
}

/// Who offers each demand.
fn met_text(alloc: Global, query: &Posted, owners: &Members) -> Result<Vec<u8>, AllocError>
    ensures { IfOk result (λ words. words.items ≡ posted_text query.now (Met owners.now)) }
{
    if owners.is_empty() {
        return Vec::from_slice(alloc, b"posted, and it demands nothing");
    }
    let mut out = Vec::from_slice(alloc, b"posted, and each of its demands is offered, by ")?;
    append_txs(alloc, &mut out, owners.as_slice())?;
    Ok(out)
}

/// How the demands of a posted statement fare.
fn demand_text(alloc: Global, query: &Posted, demand: &Demand) -> Result<Vec<u8>, AllocError>
    requires { (index : ℕ) → demand.now ≡ Unmet index → index < length query.now.statement.posts }
    ensures { IfOk result (λ words. words.items ≡ posted_text query.now demand.now) }
{
    match demand {
        Demand::Unmet(index) => unmet_text(alloc, query, *index),
        Demand::Met(owners) => met_text(alloc, query, owners),
    }
}

/// How the demands of a transaction's posted statement fare.
fn posted_text(alloc: Global, core: &Core, tx: Tx, demand: &Demand) -> Result<Vec<u8>, AllocError>
    requires fares { FaresSo core.now tx demand.now }
    ensures { IfOk result (λ words. Says core.now tx (Some (obstacles.Posted demand.now)) words.items) }
{
    // Law: the statements in the pool are of different transactions.
    members_stand_by_number::<FormFault>();
    core.is_reached();
    let Some(query) = core.posted(tx) else {
        unreachable!();
    };
    let words = demand_text(alloc, query, demand)?;
    Ok(words)
}

// ---- members that are prepared, blocked or held back

/// Whether a transaction hasn't asked to commit in this run.
fn isnt_prepared(core: &Core, tx: Tx) -> bool
    ensures { result ≡ isnt_prepared (standing core.now tx) }
{
    match core.standing(tx) {
        Some(Standing::Prepared) => false,
        _ => true,
    }
}

/// Those of a member's group that aren't prepared.
fn waited_for(alloc: Global, core: &Core, tx: Tx) -> Result<Vec<Tx>, AllocError>
    ensures { IfOk result (λ waited. waited.items ≡ waited_for core.now tx) }
{
    let group = core.group(tx);
    let mut waited = Vec::new(alloc);
    for other in group.as_slice() {
        if isnt_prepared(core, *other) {
            waited.push(*other)?;
        }
    }
    Ok(waited)
}

/// Whom a member waits for that asked to commit.
fn prepared_text(alloc: Global, core: &Core, tx: Tx) -> Result<Vec<u8>, AllocError>
    ensures { IfOk result (λ words. Says core.now tx (Some obstacles.Prepared) words.items) }
{
    let waited = waited_for(alloc, core, tx)?;
    let mut out = Vec::from_slice(alloc, b"prepared, and waits for ")?;
    append_txs(alloc, &mut out, waited.as_slice())?;
    Ok(out)
}

/// Which table a holder has, and how it is wanted.
fn append_held(
    out: &mut Vec<u8>,
    opening: &Opening,
    between: Option<Conflict>,
) -> Result<(), AllocError>
    ensures { OnOk result (out.new.items ≡ out.old.items ++ held_text opening.now between) }
{
    let Some(between) = between else {
        return out.extend_from_slice(b"a table that it uses");
    };
    append_table_name(out, opening, between.table)?;
    out.extend_from_slice(b" ")?;
    append_mode(out, between.held)?;
    out.extend_from_slice(b"; the statement uses it ")?;
    append_mode(out, between.asked)
}

/// By whom a member is blocked, and on which table.
fn blocked_text(
    alloc: Global,
    opening: &Opening,
    holder: Tx,
    between: Option<Conflict>,
) -> Result<Vec<u8>, AllocError>
    ensures { IfOk result (λ words. words.items ≡ blocked_text opening.now holder between) }
{
    let mut out = Vec::from_slice(alloc, b"blocked by ")?;
    append_tx(alloc, &mut out, holder)?;
    out.extend_from_slice(b", which holds ")?;
    append_held(&mut out, opening, between)?;
    Ok(out)
}

/// The number of a post, and whose it is.
fn append_post(alloc: Global, out: &mut Vec<u8>, fault: &Unsafe) -> Result<(), AllocError>
    ensures { OnOk result (out.new.items ≡ out.old.items ++ post_text fault.now) }
{
    append_number(alloc, out, fault.post() as u64)?;
    out.extend_from_slice(b" of ")?;
    append_tx(alloc, out, fault.asker())
}

/// The two that offer what a post demands.
fn append_offers(alloc: Global, out: &mut Vec<u8>, first: Tx, second: Tx) -> Result<(), AllocError>
    ensures { OnOk result (out.new.items ≡ out.old.items ++ offers_text first second) }
{
    out.extend_from_slice(b" would meet offers of two, ")?;
    append_both(alloc, out, first, second)
}

/// The post for which a statement isn't posted, and the two that offer what it demands.
fn held_back_text(alloc: Global, fault: &Unsafe) -> Result<Vec<u8>, AllocError>
    ensures { IfOk result (λ words. words.items ≡ held_back_text fault.now) }
{
    let mut out = Vec::from_slice(alloc, b"held back, since demand ")?;
    append_post(alloc, &mut out, fault)?;
    append_offers(alloc, &mut out, fault.first(), fault.second())?;
    Ok(out)
}

// ---- all of these

/// What is said of an obstacle, or that none is there.
fn obstacle_text(
    alloc: Global,
    core: &Core,
    tx: Tx,
    obstacle: &Option<Obstacle>,
) -> Result<Vec<u8>, DriverFault>
    requires is { IsObstacle core.now tx obstacle.now }
    ensures ok { IfOk result (λ words. Says core.now tx obstacle.now words.items) }
    ensures refused { IfErr result (λ fault. IsUntold core.now tx fault) }
{
    let text = match obstacle {
        Some(Obstacle::Absent) => return outside_text(alloc, core, tx),
        Some(Obstacle::Posted(demand)) => posted_text(alloc, core, tx, demand)?,
        Some(Obstacle::Out) => {
            Vec::from_slice(alloc, b"out, and the result of its job is awaited")?
        }
        Some(Obstacle::Prepared) => prepared_text(alloc, core, tx)?,
        Some(Obstacle::Blocked(holder)) => {
            let between = core.conflict(tx, *holder);
            blocked_text(alloc, core.opening(), *holder, between)?
        }
        Some(Obstacle::HeldBack(fault)) => held_back_text(alloc, fault)?,
        None => Vec::from_slice(alloc, b"ready, and nothing blocks it")?,
    };
    Ok(text)
}

/// What keeps a transaction from moving now, in a line with its end.
pub(crate) fn why_text(alloc: Global, core: &Core, tx: Tx) -> Result<Vec<u8>, DriverFault>
    ensures ok { IfOk result (λ text. TellsWhy core.now tx text.items) }
    ensures refused { IfErr result (λ fault. IsUntold core.now tx fault) }
{
    let obstacle = core.obstacle(tx)?;
    let mut text = obstacle_text(alloc, core, tx, &obstacle)?;
    text.push(b'\n')?;
    Ok(text)
}

impl Driver {
    /// What keeps a transaction from moving now, in a line with its end. It begins with a word of where the transaction
    /// stands: `dormant`, `ready`, `blocked`, `held back`, `posted`, `out` or `prepared` of one that may still commit;
    /// else its fate, as the report has it. Behind it stands for what it waits.
    pub fn why(&self, alloc: Global, tx: Tx) -> Result<Vec<u8>, DriverFault>
        ensures ok { IfOk result (λ text. Explains self.now tx text.items) }
        ensures refused { IfErr result (λ fault. IsUnexplained self.now tx fault) }
    {
        match self {
            Driver::Open(core) => why_text(alloc, core, tx),
            _ => Err(DriverFault::Vacant),
        }
    }
}

//! A component is picked.
ghost use Rattle.std.specs.Prelude.{◌≡◌, IfOk, MatchOption, OnErr};
ghost use Rattle.ent_core.specs.Kept.{IsKeptState};
ghost use Rattle.ent_core.specs.Pick.{IsPickedJob, NoneCanBePicked};
ghost use Rattle.ent_core.specs.Reply.{reply_seen};
ghost use Rattle.ent_protocol.specs.PoolEvents.{IsPresentComponent, Picks, joint_job};

use crate::reply::Reply;
use crate::store::Store;
use ent_headline::{picked_statements_fit, used_tables_are_declared};
use ent_job::Job;
use ent_match::Posted;
use ent_value::Sequence;
use ent_waits::{joint_uses, pick as first_to_pick};
use std::alloc::AllocError;

/// The job of a component over the tables as they stand.
fn joint_job(store: &Store, asked: Sequence<Posted>) -> Result<Job, AllocError>
    requires kept { IsKeptState store.now }
    requires present { IsPresentComponent store.now asked }
    ensures { IfOk result (λ job. job ≡ joint_job store.now asked) }
{
    used_tables_are_declared();
    picked_statements_fit();
    let _count = store.tables.len();
    let uses = joint_uses(store.alloc, asked.as_slice())?;
    let tables = store.tables.seen(store.alloc, uses.as_slice())?;
    Ok(Job::joint(asked, tables))
}

/// The job of the component that is picked, where one can be.
fn picked_job(store: &Store) -> Result<Option<Job>, AllocError>
    requires kept { IsKeptState store.now }
    ensures { IfOk result (λ job. MatchOption job (NoneCanBePicked store.now) (IsPickedJob store.now)) }
{
    let picked = first_to_pick(
        store.alloc,
        &store.pool,
        store.tried.as_slice(),
        store.lent.as_slice(),
    )?;
    match picked {
        None => Ok(None),
        Some(asked) => {
            let job = joint_job(store, asked)?;
            Ok(Some(job))
        }
    }
}

/// Lends the job of the component with the least first member, of those that weren't tried and no job of which is out.
pub(crate) fn pick(store: &mut Store) -> Result<Reply, AllocError>
    requires kept { IsKeptState store.old }
    ensures ok { IfOk result (λ reply. Picks store.old (reply_seen reply) store.new) }
    ensures err { OnErr result (store.new ≡ store.old) }
{
    let Some(job) = picked_job(store)? else {
        return Ok(Reply::Nothing);
    };
    let lent = match job.copy(store.alloc) {
        Ok(copy) => copy,
        Err(fault) => {
            drop(job);
            return Err(fault);
        }
    };
    if let Err(fault) = store.lent.lend(lent) {
        drop(job);
        return Err(fault);
    }
    Ok(Reply::Lent(job))
}

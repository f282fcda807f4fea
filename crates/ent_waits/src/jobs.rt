//! Whose jobs are out.
ghost use Rattle.std.specs.Prelude.{◌≡◌, IfOk};
ghost use Rattle.ent_lock.specs.Use.{IsLeastIfAny};
ghost use Rattle.ent_protocol.specs.Member.{pool as pool_of};
ghost use Rattle.ent_protocol.specs.Quiet.{HasJobOut};
ghost use Rattle.ent_protocol.specs.State.{State};
ghost use Rattle.ent_job.specs.Work.{work_seen};
ghost use Rattle.ent_waits.specs.Jobs.{HasPostedQuery, IsWorkOf};

use crate::is_present;
use ent_group::Tx;
use ent_job::{Job, Work};
use ent_lock::lesser;
use ent_match::{Pool, Posted};
use std::alloc::{AllocError, Global};

/// The least transaction of some statements.
fn least_of(asked: &[Posted]) -> Option<Tx>
    ensures { IsLeastIfAny (HasPostedQuery asked.now) result }
{
    let mut least = None;
    for query in asked {
        least = lesser(least, Some(query.tx()));
    }
    least
}

/// The least transaction that work is of. Posted statements that are no component now are of nobody.
fn least_at(alloc: Global, pool: &Pool, work: &Work) -> Result<Option<Tx>, AllocError>
    ensures { IfOk result (λ least. (s : State)
        → pool_of s ≡ pool.now
        → IsLeastIfAny (IsWorkOf s (work_seen work.now)) least) }
{
    match work {
        Work::One(single) => Ok(Some(single.tx())),
        Work::Joint(asked) => {
            if is_present(alloc, pool, asked.as_slice())? {
                Ok(least_of(asked.as_slice()))
            } else {
                Ok(None)
            }
        }
    }
}

/// The least transaction that has a job out: one of its statements, or posted statements with its own that are a
/// component now; none where no job is out. Jobs of posted statements that are no component any more don't count.
pub(crate) fn job_out(alloc: Global, pool: &Pool, lent: &[Job]) -> Result<Option<Tx>, AllocError>
    ensures { IfOk result (λ least. (s : State)
        → pool_of s ≡ pool.now
        → s.lent ≡ lent.now
        → IsLeastIfAny (HasJobOut s) least) }
{
    let mut least = None;
    for job in lent {
        let own = least_at(alloc, pool, job.work())?;
        least = lesser(least, own);
    }
    Ok(least)
}

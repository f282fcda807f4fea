//! Replies: the jobs that they lend, and their lines.
ghost use Rattle.std.specs.Prelude.{◌≡◌, IfSome};
ghost use Rattle.ent_protocol.specs.Job.{IsEvaluated};

use crate::out::{Out, Stop};
use ent_core::Reply;
use ent_eval::{Done, evaluate};
use ent_job::Job;
use ent_trace::put_reply;
use ent_value::Sequence;
use std::alloc::Global;

/// The job that a reply lends.
fn job_of(reply: &Reply) -> Option<&Job> {
    match reply {
        Reply::Lent(job) => Some(job),
        _ => None,
    }
}

/// The job of a number, counted from 1 as replies lend them.
fn job_numbered(replies: &[Reply], number: usize) -> Option<&Job> {
    let mut count = 0usize;
    for reply in replies {
        if let Some(job) = job_of(reply) {
            count = count.saturating_add(1);
            if count == number {
                return Some(job);
            }
        }
    }
    None
}

/// The result of a copy of the job of a number.
pub(crate) fn done_of(
    alloc: Global,
    replies: &[Reply],
    number: usize,
    out: &mut Out,
) -> Option<Done> {
    match job_numbered(replies, number) {
        Some(job) => done(alloc, job, out),
        None => {
            out.stop(Stop::Job);
            None
        }
    }
}

/// The result of a copy of a job.
fn done(alloc: Global, job: &Job, out: &mut Out) -> Option<Done>
    ensures job { IfSome result (λ done. done.job ≡ job.now) }
    ensures meaning { IfSome result (λ done. IsEvaluated done) }
{
    match job.copy(alloc) {
        Ok(copy) => evaluated(alloc, copy, out),
        Err(_) => {
            out.stop(Stop::Memory);
            None
        }
    }
}

fn evaluated(alloc: Global, job: Job, out: &mut Out) -> Option<Done>
    ensures job { IfSome result (λ done. done.job ≡ job) }
    ensures meaning { IfSome result (λ done. IsEvaluated done) }
{
    match evaluate(alloc, job) {
        Ok(done) => Some(done),
        Err(refused) => {
            drop(refused);
            out.stop(Stop::Memory);
            None
        }
    }
}

/// Keeps a reply.
pub(crate) fn push_reply(replies: &mut Sequence<Reply>, reply: Reply, out: &mut Out) {
    if let Err(refused) = replies.push(reply) {
        drop(refused);
        out.stop(Stop::Memory);
    }
}

/// The lines of replies, the jobs that they lend being numbered from 1.
pub(crate) fn put_replies(alloc: Global, out: &mut Out, replies: &[Reply]) {
    let mut next = 1u64;
    for reply in replies {
        put_reply(alloc, &mut out.text, reply, next);
        if job_of(reply).is_some() {
            next = next.saturating_add(1);
        }
    }
}

/// The line of the last of these replies.
pub(crate) fn put_last(alloc: Global, out: &mut Out, replies: &[Reply]) {
    let mut lent = 0u64;
    for reply in replies {
        if job_of(reply).is_some() {
            lent = lent.saturating_add(1);
        }
    }
    if let Some(reply) = replies.last() {
        put_reply(alloc, &mut out.text, reply, lent);
    }
}

//! A client waits for a fate.
ghost use Rattle.std.specs.Prelude.{IfOk, IfSome, Some};
ghost use Rattle.ent_desk.specs.Seen.{GetsReceipts};
ghost use Rattle.ent_serve.specs.Fates.{TellsFate};

use crate::gate::Gate;
use crate::manager::{Headway, Manager};
use ent_desk::{Naming, Session};
use ent_group::Tx;
use ent_semantics::Fate;
use std::alloc::AllocError;
use std::sync::Wait;
use std::thread;
use std::time::{Clock, Duration, Instant};

/// What is left of a time since its start; none where it is over, or where a clock can't be read.
fn left_of<R: Clock>(rt: &R, start: Option<Instant>, most: Duration) -> Option<Duration> {
    most.checked_sub(start?.elapsed(rt).ok()?)
}

impl<L: Naming, G: Gate> Manager<L, G> {
    /// Works in the run once, and tells the fate of a transaction, where it has one then; else how far the work came.
    #[tactic(auto, using(crate::proofs::Serving::agrees))]
    fn work_towards<R: Wait>(
        &self,
        rt: &R,
        session: &mut Session<L>,
        tx: Tx,
    ) -> Result<Result<Fate, Headway>, AllocError>
        ensures session { GetsReceipts session.old session.new }
        ensures fate { IfOk result (λ told. IfOk told (λ fate. TellsFate session.new.receipts tx (Some fate))) }
    {
        let headway = self.work_in_run(rt, session)?;
        match self.fate(rt, session, tx) {
            Some(fate) => Ok(Ok(fate)),
            None => Ok(Err(headway)),
        }
    }

    /// The fate of a transaction, as soon as it has one, whoever's step gives it. Meanwhile it works in the run, as
    /// [`Manager::work_in_run`] does, and sleeps where nothing moves; it starts no run, and ends none, so another
    /// thread is to do that. Where memory runs out it makes its call again, so that no job stays in the session. A
    /// number that no script has yet waits for its script.
    #[tactic(auto, using(crate::proofs::Serving::gets_on, crate::proofs::Serving::gets_same))]
    pub fn wait_for<R: Wait>(&self, rt: &R, session: &mut Session<L>, tx: Tx) -> Fate
        ensures session { GetsReceipts session.old session.new }
        ensures fate { TellsFate session.new.receipts tx (Some result) }
    {
        for _ in rt.forever() {
            let seen = self.bell.count(rt);
            match self.work_towards(rt, session, tx) {
                Ok(Ok(fate)) => return fate,
                Ok(Err(Headway::Moved)) => {}
                Ok(Err(Headway::Idle | Headway::Done)) => self.bell.wait_as_client(rt, seen),
                Err(AllocError) => thread::yield_now(),
            }
        }
        unreachable!()
    }

    /// As [`Manager::wait_for`], for so long at most: None where the time is over first, or where the clock can't be
    /// read. It looks at the clock in each turn, also while memory is out; then a job may be left in the session, and
    /// the session's next call goes on with it. A call that is made is made to its end, also beyond the time.
    #[tactic(auto, using(crate::proofs::Serving::gets_on, crate::proofs::Serving::gets_same))]
    pub fn wait_for_at_most<R: Wait + Clock>(
        &self,
        rt: &R,
        session: &mut Session<L>,
        tx: Tx,
        most: Duration,
    ) -> Option<Fate>
        ensures session { GetsReceipts session.old session.new }
        ensures fate { IfSome result (λ fate. TellsFate session.new.receipts tx (Some fate)) }
    {
        let start = Instant::now(rt).ok();
        for _ in rt.forever() {
            let seen = self.bell.count(rt);
            match self.work_towards(rt, session, tx) {
                Ok(Ok(fate)) => return Some(fate),
                Ok(Err(headway)) => {
                    let left = left_of(rt, start, most)?;
                    if headway != Headway::Moved {
                        self.bell.wait_as_client_at_most(rt, seen, left);
                    }
                }
                Err(AllocError) => {
                    let _left = left_of(rt, start, most)?;
                    thread::yield_now();
                }
            }
        }
        unreachable!()
    }
}

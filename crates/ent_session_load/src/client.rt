//! One client of the service.
use ent_serve::{Headway, Manager, Naming, NotSubmitted, Open, Session};
use ent_tree::Script;
use ent_value::Refusal;
use std::alloc::AllocError;
use std::sync::Wait;
use std::thread;
use std::time::{Clock, Duration, Instant};

/// The longest that a submit took, and how many calls were made again, since memory ran out.
#[derive(Clone, Copy, Debug)]
pub(crate) struct Tally {
    pub(crate) longest: Duration,
    pub(crate) again: usize,
}

impl Tally {
    pub(crate) fn new() -> Self {
        Tally {
            longest: Duration::ZERO,
            again: 0,
        }
    }

    /// What is noted of another client's calls too.
    pub(crate) fn add(&mut self, other: Tally) {
        self.longest = self.longest.max(other.longest);
        self.again = self.again.saturating_add(other.again);
    }

    /// Memory ran out in a call, which is made again.
    fn count(&mut self) {
        self.again = self.again.saturating_add(1);
    }
}

/// A client: its session, the scripts that it has still to submit, and what is noted of its calls.
#[derive(Drop)]
pub(crate) struct Client<L: Naming> {
    pub(crate) session: Session<L>,
    pub(crate) scripts: Vec<Script>,
    pub(crate) tally: Tally,
}

/// The script that comes back where memory ran out; none where it is taken, or refused for good.
fn left(submitted: Result<u64, NotSubmitted>) -> Option<Script> {
    let Err(refused) = submitted else {
        return None;
    };
    if refused.refusal == Refusal::Memory {
        Some(refused.script)
    } else {
        None
    }
}

/// Submits a script, again as often as memory runs out. None where there is no clock.
fn submit<L: Naming, R: Wait + Clock>(
    rt: &R,
    manager: &Manager<L, Open>,
    session: &mut Session<L>,
    tally: &mut Tally,
    script: Script,
) -> Option<()> {
    let mut next = Some(script);
    for _ in rt.forever() {
        let Some(script) = next.take() else { break };
        let start = Instant::now(rt).ok()?;
        next = left(manager.submit(rt, session, script));
        tally.longest = tally.longest.max(start.elapsed(rt).ok()?);
        if next.is_some() {
            tally.count();
        }
    }
    Some(())
}

/// Goes on with what is to be done until there is nothing. Where memory runs out, the call is made again: the session
/// may hold a job for which all others wait.
fn work_out<L: Naming, R: Wait>(
    rt: &R,
    manager: &Manager<L, Open>,
    session: &mut Session<L>,
    tally: &mut Tally,
) {
    for _ in rt.forever() {
        match manager.work(rt, session) {
            Ok(Headway::Done) => break,
            Ok(Headway::Idle) => thread::yield_now(),
            Ok(Headway::Moved) => {}
            Err(AllocError) => tally.count(),
        }
    }
}

/// Submits one script after the other, with a turn of work between any two, and then works until nothing is left.
pub(crate) fn serve<L: Naming, R: Wait + Clock>(
    rt: &R,
    manager: &Manager<L, Open>,
    client: Client<L>,
) -> Client<L> {
    let Client {
        mut session,
        mut scripts,
        mut tally,
    } = client;
    for _ in 0..scripts.len() {
        let Some(script) = scripts.pop() else { break };
        if submit(rt, manager, &mut session, &mut tally, script).is_none() {
            break;
        }
        if manager.work(rt, &mut session).is_err() {
            tally.count();
        }
    }
    work_out(rt, manager, &mut session, &mut tally);
    Client {
        session,
        scripts,
        tally,
    }
}

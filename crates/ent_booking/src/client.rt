//! One client of the service.
use ent_serve::{Gate, Manager, Naming, NotSubmitted, Session};
use ent_tree::Script;
use ent_value::Refusal;
use std::sync::Wait;
use std::thread;
use std::time::{Clock, Duration};

/// A client who comes after a while: what is wanted, and its session.
#[derive(Drop)]
pub(crate) struct Client<L: Naming> {
    pub(crate) after: Duration,
    pub(crate) script: Script,
    pub(crate) session: Session<L>,
}

/// How a submit came out.
#[derive(Drop)]
enum Submitted {
    Taken(u64),
    /// Memory ran out, and the script came back.
    Again(Script),
    Refused,
}

fn outcome_of(told: Result<u64, NotSubmitted>) -> Submitted {
    match told {
        Ok(tx) => Submitted::Taken(tx),
        Err(refused) if refused.refusal == Refusal::Memory => Submitted::Again(refused.script),
        Err(_) => Submitted::Refused,
    }
}

/// Submits a script, again as often as memory runs out: its number, or None where it is refused for good.
fn submit<L: Naming, G: Gate, R: Wait>(
    rt: &R,
    manager: &Manager<L, G>,
    session: &mut Session<L>,
    script: Script,
) -> Option<u64> {
    let mut next = script;
    for _ in rt.forever() {
        match outcome_of(manager.submit(rt, session, next)) {
            Submitted::Taken(tx) => return Some(tx),
            Submitted::Again(script) => next = script,
            Submitted::Refused => return None,
        }
    }
    unreachable!()
}

/// A client goes without having asked for anything.
pub(crate) fn leave<L: Naming>(client: Client<L>) -> Session<L> {
    let Client { session, .. } = client;
    session
}

/// A client comes, submits what is wanted, and waits for its fate. Then it has its session alone.
pub(crate) fn visit<L: Naming, G: Gate, R: Wait + Clock>(
    rt: &R,
    manager: &Manager<L, G>,
    client: Client<L>,
) -> Session<L> {
    let Client {
        after,
        script,
        mut session,
    } = client;
    thread::sleep(rt, after);
    if let Some(tx) = submit(rt, manager, &mut session, script) {
        manager.wait_for(rt, &mut session, tx);
    }
    session
}

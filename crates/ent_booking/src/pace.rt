//! When runs start and end.
use ent_serve::{Gate, Headway, Manager, Naming};
use std::sync::Wait;
use std::sync::atomic::{AtomicBool, Ordering};
use std::thread;
use std::time::{Clock, Duration};

/// How many milliseconds a run lasts, at least.
const RUN: u64 = 5;

/// Ends the run and starts the next one, of all who wait, until the service is closed. Where the run can't end yet, or
/// memory runs out, it goes on until the next time.
pub(crate) fn pace<L: Naming, G: Gate, R: Wait + Clock>(
    rt: &R,
    manager: &Manager<L, G>,
    closed: &AtomicBool,
) {
    for _ in rt.forever() {
        if closed.load(Ordering::SeqCst) {
            break;
        }
        drop(manager.end_run(rt));
        drop(manager.start_run(rt));
        thread::sleep(rt, Duration::from_millis(RUN));
    }
}

/// Ends the last run, in which nobody is left.
pub(crate) fn end_last_run<L: Naming, G: Gate, R: Wait>(rt: &R, manager: &Manager<L, G>) {
    for _ in rt.forever() {
        if let Ok(Headway::Done) = manager.end_run(rt) {
            break;
        }
    }
}

//! Whether every thread of the service could be made.
use std::sync::Wait;
use std::sync::atomic::{AtomicBool, AtomicUsize, Ordering};
use std::thread;
use std::time::{Clock, Duration};

/// How often a thread looks whether all others have come, a millisecond apart.
const MOST_LOOKS: usize = 10_000;

/// Which of so many threads have come. Where a thread can't be made, another one does its work too, and would wait in
/// vain for those who come only behind it.
#[derive(Drop)]
pub(crate) struct Roll {
    expected: usize,
    present: AtomicUsize,
    has_failed: AtomicBool,
}

impl Roll {
    pub(crate) fn new(expected: usize) -> Self {
        Roll {
            expected,
            present: AtomicUsize::new(0),
            has_failed: AtomicBool::new(false),
        }
    }

    /// Waits until all have come, for ten seconds at most: whether they have.
    pub(crate) fn call<R: Wait + Clock>(&self, rt: &R) -> bool {
        let _before = self.present.fetch_add(1, Ordering::SeqCst);
        for _ in 0..MOST_LOOKS {
            if self.has_failed() {
                return false;
            }
            if self.present.load(Ordering::SeqCst) >= self.expected {
                return true;
            }
            thread::sleep(rt, Duration::from_millis(1));
        }
        self.has_failed.store(true, Ordering::SeqCst);
        false
    }

    /// Whether somebody waited in vain.
    pub(crate) fn has_failed(&self) -> bool {
        self.has_failed.load(Ordering::SeqCst)
    }
}

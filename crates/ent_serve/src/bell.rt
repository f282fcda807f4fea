//! Where whoever finds nothing to do waits for what others do, and where workers pass a baton on.
use std::sync::atomic::{AtomicUsize, Ordering};
use std::sync::{Condvar, Mutex, Wait};
use std::thread;
use std::time::{Clock, Duration};

/// How often whoever works looks again whether somebody submits.
const MOST_LOOKS: usize = 8;

/// How often something was done so far, wrapping, and how many clients wait for a fate; how often the baton was taken,
/// wrapping, and whether a worker has it; and whether nothing more is to be done.
#[derive(Drop)]
struct Rings {
    count: u64,
    clients: u64,
    taken: u64,
    is_held: bool,
    is_over: bool,
}

/// The baton, as a worker took it: how often it was taken by then, and the count that was seen when the worker last
/// looked.
#[derive(Clone, Copy)]
pub(crate) struct Baton {
    taken: u64,
    seen: u64,
}

/// Counts what was done, and wakes whoever waits for more. What there is to do and which fates stand is asked of the
/// core, and never of the bell.
///
/// Workers pass a baton on: who has it goes on alone, and the others sleep, until it does a job that takes long. So
/// statements that are short don't hand the core from processor to processor.
#[derive(Drop)]
pub(crate) struct Bell {
    rings: Mutex<Rings>,
    rang: Condvar,
    passed: Condvar,
    /// How many are about to submit.
    submitting: AtomicUsize,
}

impl Bell {
    pub(crate) fn new() -> Self {
        Bell {
            rings: Mutex::new(Rings {
                count: 0,
                clients: 0,
                taken: 0,
                is_held: false,
                is_over: false,
            }),
            rang: Condvar::new(),
            passed: Condvar::new(),
            submitting: AtomicUsize::new(0),
        }
    }

    /// Tells that something was done, and wakes one who waits for it. That is enough: whoever did it goes on, and
    /// whoever is woken and finds something to do wakes the next one.
    pub(crate) fn ring<R: Wait>(&self, rt: &R) {
        let mut rings = self.rings.lock(rt);
        rings.count = rings.count.wrapping_add(1);
        self.rang.notify_one();
    }

    /// Tells that a fate may stand. Where clients wait for one, all are woken, since each waits for its own.
    pub(crate) fn ring_fate<R: Wait>(&self, rt: &R) {
        let mut rings = self.rings.lock(rt);
        rings.count = rings.count.wrapping_add(1);
        if rings.clients > 0 {
            self.rang.notify_all();
        } else {
            self.rang.notify_one();
        }
    }

    /// Tells that nothing more is to be done, and wakes all. No worker waits for the baton any more.
    pub(crate) fn ring_out<R: Wait>(&self, rt: &R) {
        let mut rings = self.rings.lock(rt);
        rings.count = rings.count.wrapping_add(1);
        rings.is_over = true;
        self.rang.notify_all();
        self.passed.notify_all();
    }

    /// Somebody is about to submit.
    pub(crate) fn begin_submit(&self) {
        let _before = self.submitting.fetch_add(1, Ordering::SeqCst);
    }

    /// Somebody has submitted.
    pub(crate) fn end_submit(&self) {
        let _before = self.submitting.fetch_sub(1, Ordering::SeqCst);
    }

    /// Gives way to whoever submits, for a short time: who works asks for the core again and again, so that somebody
    /// who asks for it once might wait long.
    pub(crate) fn give_way(&self) {
        for _ in 0..MOST_LOOKS {
            if self.submitting.load(Ordering::SeqCst) == 0 {
                break;
            }
            thread::yield_now();
        }
    }

    /// The count so far.
    pub(crate) fn count<R: Wait>(&self, rt: &R) -> u64 {
        self.rings.lock(rt).count
    }

    /// The baton that a worker has, as long as it has it; else it waits until no other worker has it.
    pub(crate) fn take_baton<R: Wait>(&self, rt: &R, had: Option<Baton>) -> Baton {
        let mut rings = self.rings.lock(rt);
        let has_it = match had {
            Some(baton) => rings.is_held && rings.taken == baton.taken,
            None => false,
        };
        if !has_it {
            rings = self
                .passed
                .wait_while(rt, rings, |rings| rings.is_held && !rings.is_over);
            rings.taken = rings.taken.wrapping_add(1);
            rings.is_held = true;
        }
        Baton {
            taken: rings.taken,
            seen: rings.count,
        }
    }

    /// Takes the baton from whoever has it, and wakes the next worker. It is for who does a job that takes long.
    pub(crate) fn pass_baton<R: Wait>(&self, rt: &R) {
        let mut rings = self.rings.lock(rt);
        rings.is_held = false;
        self.passed.notify_one();
    }

    /// Lays the baton down, since there was nothing to do, and waits until something was done since, and nobody has it.
    pub(crate) fn rest<R: Wait>(&self, rt: &R, baton: Baton) {
        let mut rings = self.rings.lock(rt);
        if rings.taken == baton.taken {
            rings.is_held = false;
        }
        let _rings = self.passed.wait_while(rt, rings, |rings| {
            !rings.is_over && (rings.is_held || rings.count == baton.seen)
        });
    }

    /// Waits until something was done since the count that was seen, as a client that waits for a fate.
    pub(crate) fn wait_as_client<R: Wait>(&self, rt: &R, seen: u64) {
        let mut rings = self.rings.lock(rt);
        rings.clients = rings.clients.saturating_add(1);
        let mut rings = self.rang.wait_while(rt, rings, |rings| rings.count == seen);
        rings.clients = rings.clients.saturating_sub(1);
    }

    /// The same, for so long at most. A clock that can't be read ends the wait.
    pub(crate) fn wait_as_client_at_most<R: Wait + Clock>(
        &self,
        rt: &R,
        seen: u64,
        most: Duration,
    ) {
        let mut rings = self.rings.lock(rt);
        rings.clients = rings.clients.saturating_add(1);
        let (mut rings, _) = self
            .rang
            .wait_timeout_while(rt, rings, most, |rings| rings.count == seen);
        rings.clients = rings.clients.saturating_sub(1);
    }
}

//! Gates that hold the job of the first transaction until they are told to let it go.
use ent_eval::{Job, Work};
use ent_serve::Gate;
use std::sync::atomic::{AtomicBool, Ordering};
use std::thread;

/// How often a gate looks before it gives up.
const MOST_POLLS: u64 = 10_000_000;

/// Whether the first transaction may go on, whether a gate gave up, and whether its first job came.
#[derive(Drop)]
pub(crate) struct Flags {
    released: AtomicBool,
    gave_up: AtomicBool,
    came: AtomicBool,
}

impl Flags {
    pub(crate) fn new() -> Self {
        Flags {
            released: AtomicBool::new(false),
            gave_up: AtomicBool::new(false),
            came: AtomicBool::new(false),
        }
    }

    pub(crate) fn release(&self) {
        self.released.store(true, Ordering::SeqCst);
    }

    pub(crate) fn gave_up(&self) -> bool {
        self.gave_up.load(Ordering::SeqCst)
    }

    /// Whether a gate is called for the first time.
    fn is_first(&self) -> bool {
        !self.came.swap(true, Ordering::SeqCst)
    }

    /// Whether a job has come to a gate that asks whether it is the first.
    pub(crate) fn came(&self) -> bool {
        self.came.load(Ordering::SeqCst)
    }

    fn wait(&self) {
        for _ in 0..MOST_POLLS {
            if self.released.load(Ordering::SeqCst) {
                return;
            }
            thread::yield_now();
        }
        self.gave_up.store(true, Ordering::SeqCst);
    }
}

/// Whether a job is of a statement of this transaction.
fn is_of(job: &Job, tx: u64) -> bool {
    match job.work() {
        Work::One(single) => single.tx() == tx,
        Work::Joint(_) => false,
    }
}

/// Holds the first transaction's job until it is released.
#[derive(Drop)]
pub(crate) struct Hold<'a> {
    pub(crate) flags: &'a Flags,
}

impl<'a> Gate for Hold<'a> {
    fn before(&self, job: &Job) {
        if is_of(job, 1) {
            self.flags.wait();
        }
    }

    fn takes_long(&self, _job: &Job) -> bool {
        true
    }
}

/// Holds the first transaction's job until the second one's has come.
#[derive(Drop)]
pub(crate) struct Meet<'a> {
    pub(crate) flags: &'a Flags,
}

impl<'a> Gate for Meet<'a> {
    fn before(&self, job: &Job) {
        if is_of(job, 2) {
            self.flags.release();
        }
        if is_of(job, 1) {
            self.flags.wait();
        }
    }

    fn takes_long(&self, _job: &Job) -> bool {
        true
    }
}

/// Holds the first job until it is released, and no other.
#[derive(Drop)]
pub(crate) struct HoldFirst<'a> {
    pub(crate) flags: &'a Flags,
}

impl<'a> Gate for HoldFirst<'a> {
    fn before(&self, _job: &Job) {
        if self.flags.is_first() {
            self.flags.wait();
        }
    }

    fn takes_long(&self, _job: &Job) -> bool {
        true
    }
}

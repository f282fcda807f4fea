//! Stamps of lent jobs: what has one stamp of a manager is of one job.
//!
//! A manager has a log of jobs, which exists in proofs alone. A stamp is a place in it, so who compares two stamps
//! knows as much as who compares the two jobs, rows and all.
ghost use Rattle.std.specs.Prelude.{◌≡◌, IsTrue};
ghost use Rattle.ent_stamp.specs.Stamps.{IsStampOf, head_of};
ghost use Rattle.ent_protocol.specs.Job.{Job as Seen};

use crate::naming::{Naming, Seats};
use ent_eval::Job;
use logbook::{Gain, Offer, Plain, Play, Rule, Seen as Reached, Start, Word};
use std::marker::{Model, PhantomData};

/// The most stamps that a manager gives. Jobs that are lent behind them have none.
const MOST_STAMPS: u64 = 1 << 62;

/// The rule of the log: its first word is how many jobs stand in it.
pub(crate) struct Counting;

impl Rule<Job, u64> for Counting {
    ghost use Rattle.std.specs.Prelude.{[]};
    ghost use base.Fml.{ftrue};
    ghost use Rattle.ent_stamp.specs.Stamps.{IsKept};

    ghost holds = { λ cells log. IsKept cells log };

    ghost first = { [] };

    ghost hinted = { λ number log. Unit {0} };

    ghost shows = { λ log. [] };

    ghost keeps = { λ names log. ftrue };

    ghost moves = { λ ask before after answer. Unit {0} };
}

/// Who takes a stamp trades nothing.
pub(crate) struct Nothing;

impl Gain<Job, u64> for Nothing {
    ghost use base.Fml.{ftrue};

    ghost after = { λ names about answer. ftrue };
}

/// A step that looks.
pub(crate) struct Look;

impl Play<Job, u64> for Look {
    ghost then = { λ step before found after. Unit {0} };
}

/// A step that adds a job.
pub(crate) struct Add;

impl Play<Job, u64> for Add {
    ghost use Rattle.ent_stamp.specs.Stamps.{Adds};

    ghost then = { Adds };
}

/// What a step asks for: the job.
impl Plain<Job, Job, u64> for Add {
    ghost use Rattle.std.specs.Prelude.{None};

    ghost ask = { λ job. job };

    ghost state = { λ job. None };
}

/// A log without jobs, for a manager to be opened. It takes no bytes but a count. Contracts see which log it is.
#[derive(Drop)]
pub struct BlankLog {
    head: Word<Job, u64, Counting>,
    seen: Reached<Job, u64, Counting>,
}

impl Model for BlankLog {
    ghost use Rattle.std.specs.Prelude.{◌≡◌};
    ghost use Rattle.logbook.specs.Pages.{Book, book_coded};
    ghost use Rattle.ent_stamp.specs.Stamps.{head_of};

    ghost Value = { Book };

    ghost coded = { book_coded };

    ghost view = { λ b. b.seen.book };

    ghost invariant = { λ b. b.head ≡ head_of b.seen.book };
}

impl BlankLog {
    /// A new log. A call with `Brand` picks its name for the manager's.
    pub fn new() -> Self {
        let (seen, mut first, _second) = Reached::open(Start::alone(), 0, 0);
        BlankLog {
            head: Word::tracked(0, &mut first),
            seen,
        }
    }

    /// The stamps of a manager that is named by this log.
    pub(crate) fn open<L: Naming>(self) -> StampGiver<L>
        requires { self ≡ L.Scripts.book }
    {
        let BlankLog { head, seen } = self;
        StampGiver {
            head,
            seen,
            of: PhantomData,
        }
    }
}

/// Gives out the stamps of one manager.
#[derive(Drop)]
pub(crate) struct StampGiver<L: Naming> {
    head: Word<Job, u64, Counting>,
    seen: Reached<Job, u64, Counting>,
    of: PhantomData<L>,
    ghost head_is: { head ≡ head_of L.Scripts.book },
    ghost seen_is: { seen.book ≡ L.Scripts.book },
}

/// A stamp of a manager: a number, but for jobs that are lent behind the last one. Contracts see it with the log, as
/// far as that was seen.
#[derive(Drop)]
pub struct Stamp<L: Naming> {
    number: Option<u64>,
    seen: Reached<Job, u64, Counting>,
    of: PhantomData<L>,
}

impl<L: Naming> Model for Stamp<L> {
    ghost use Rattle.std.specs.Prelude.{◌≡◌};
    ghost use Rattle.std.specs.Coded.{codes};
    ghost use Rattle.ent_rel.specs.Relation.{coded_rows};
    ghost use Rattle.ent_stamp.specs.Stamps.{Stamp};

    ghost Value = { Stamp };

    ghost coded = { Prim.hlevel (codes, coded_rows) };

    ghost view = { λ s. (s.number, s.seen.log) };

    ghost invariant = { λ s. s.seen.book ≡ L.Scripts.book };
}

impl<L: Naming> Stamp<L> {
    /// A new stamp, of a job.
    pub(crate) fn new(stamps: &StampGiver<L>, job: &Job) -> Self
        ensures { IsStampOf result job.now }
    {
        let mut seen = stamps.seen.again();
        let mut look: Offer<Job, u64, Counting, Nothing> = seen.plain::<Nothing, Job, Add>(job);
        let next = stamps.head.load::<Look, Nothing>(&mut seen, &mut look);
        let mut number = None;
        if next < MOST_STAMPS {
            let mut offer: Offer<Job, u64, Counting, Nothing> = seen.plain::<Nothing, Job, Add>(
                job,
            );
            let mut pen = seen.no_pen();
            let found = stamps
                .head
                .compare_exchange::<Add, Nothing>(next, next + 1, &mut seen, &mut offer, &mut pen);
            if found == next {
                number = Some(next);
            }
        }
        Stamp {
            number,
            seen,
            of: PhantomData,
        }
    }

    /// The same stamp.
    pub(crate) fn again(&self) -> Self
        ensures { result ≡ self.now }
    {
        Stamp {
            number: self.number,
            seen: self.seen.again(),
            of: PhantomData,
        }
    }

    /// Whether the two are one stamp, and so of one job.
    pub(crate) fn is_same(&self, other: &Stamp<L>) -> bool
        ensures { IsTrue result → (one two : Seen) → IsStampOf self.now one → IsStampOf other.now two → one ≡ two }
    {
        let mut both = self.seen.again();
        both.learn(&other.seen);
        match (self.number, other.number) {
            (Some(mine), Some(theirs)) => mine == theirs,
            _ => false,
        }
    }
}

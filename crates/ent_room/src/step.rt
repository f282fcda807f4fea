//! Steps.
ghost use Rattle.std.specs.Prelude.{◌≡◌, IfOk, OnErr, OnOk, false, true};
ghost use Rattle.ent_room.specs.Acts.{Advances, OnlyShifts};
ghost use Rattle.ent_admission.specs.Admission.{IsAtRest};
ghost use Rattle.ent_room.specs.State.{AreResting, HasNobodyIn};
ghost use Rattle.ent_room.specs.declared.step.Stepped.TheVariants.{Idle};

use crate::batch::Batch;
use crate::law::acts_go_on;
use crate::room::Room;
use crate::work::{MOST_OF_STEP, RUN, Work};
use ent_admission::{Again, NotPlanned, NotTurned};
use ent_feed::NoNumber;
use ent_value::Refusal;
use ent_waiting::{Rank, Station, Ticket, WaitingPlace};
use std::alloc::AllocError;

/// So many ordinary scripts a step runs: half of its work.
const MOST_ORDINARY: usize = 64;

/// What a step did.
#[derive(Clone, Copy, Debug, PartialEq, Eq)]
pub enum Stepped {
    /// There was nothing to do.
    Idle,
    /// Those who wait were looked through, and no run was made. There is more to look at.
    Searched,
    /// At least one run was made.
    Ran,
}

/// Why a step isn't made.
#[derive(Clone, Copy, Debug, PartialEq, Eq)]
pub enum NotStepped {
    /// E407: the epoch would have to end, and its tables have more rows together than an opening has. Draining tables
    /// is the cure.
    TooManyRows,
    /// The epoch would have to end, and has the greatest number that there is; or what came of the batch is to be told,
    /// and needs more groups than there are numbers left.
    NoNumber,
}

impl Room {
    /// Ends the epoch, and keeps its book.
    fn turn_by_itself(&mut self) -> Result<(), Refusal<NotStepped>>
        requires at_rest { IsAtRest self.old.admission }
        ensures advances { Advances self.old self.new }
        ensures at_rest { IsAtRest self.new.admission }
    {
        match self.turn(&[]) {
            Ok(()) => Ok(()),
            Err(Refusal::Memory) => Err(Refusal::Memory),
            Err(Refusal::Fault(NotTurned::TooManyRows)) => {
                Err(Refusal::Fault(NotStepped::TooManyRows))
            }
            Err(Refusal::Fault(NotTurned::NoNumber)) => Err(Refusal::Fault(NotStepped::NoNumber)),
            Err(Refusal::Fault(NotTurned::Busy)) => unreachable!(),
        }
    }

    /// Makes these the next batch. At a refusal nothing changes.
    fn plan_once(&mut self, batch: &Batch) -> Result<(), Refusal<NotPlanned>>
        ensures advances { Advances self.old self.new }
        ensures err { OnErr result (self.new ≡ self.old) }
    {
        let set = batch.set(self.alloc)?;
        self.admission.plan(
            set,
            Again {
                rank: batch.rank,
                root: batch.root,
            },
        )?;
        Ok(())
    }

    /// Whether these become the next batch. Where the core takes fewer scripts more, the epoch ends first.
    fn plan(&mut self, batch: &Batch) -> Result<bool, Refusal<NotStepped>>
        requires at_rest { IsAtRest self.old.admission }
        ensures advances { Advances self.old self.new }
        ensures at_rest { IfOk result (λ planned. planned ≡ false → IsAtRest self.new.admission) }
    {
        acts_go_on();
        'tries: for _ in 0..2 {
            match self.plan_once(batch) {
                Ok(()) => return Ok(true),
                Err(Refusal::Memory) => return Err(Refusal::Memory),
                Err(Refusal::Fault(NotPlanned::MustTurn)) => self.turn_by_itself()?,
                Err(Refusal::Fault(_)) => return Ok(false),
            }
        }
        Ok(false)
    }

    /// An ordinary script, or a meeting, that is to be run by itself; and against whose patience that counts.
    pub(crate) fn meeting(&self, tickets: &[u64], root: Option<u64>) -> Result<Batch, AllocError> {
        let mut places = Vec::with_capacity(self.alloc, tickets.len())?;
        for ticket in tickets {
            places.push(match self.admission.list().waiter(Ticket::new(*ticket)) {
                Some(waiter) => waiter.place,
                None => WaitingPlace::Resting,
            })?;
        }
        Ok(Batch {
            tickets: Vec::from_slice(self.alloc, tickets)?,
            places,
            root,
            rank: Rank::Woken,
            group: self.next_group(),
        })
    }

    /// Whether all of a batch still wait.
    fn all_wait(&self, batch: &Batch) -> bool {
        batch.tickets.as_slice().iter().all(|ticket| {
            self.admission.list().waiter(Ticket::new(*ticket)).is_some()
        })
    }

    /// Somebody who was in a batch, and still waits, comes back to where it stood.
    fn put_back(&mut self, ticket: u64, place: WaitingPlace) -> Result<(), AllocError>
        ensures shifts { OnlyShifts self.old self.new }
    {
        acts_go_on();
        match place {
            WaitingPlace::Resting => self.rest(ticket),
            WaitingPlace::Queued(rank) => self.queue(ticket, rank),
            WaitingPlace::Chosen | WaitingPlace::Submitted(_) => Ok(()),
        }
    }

    /// Notes what came of one of a batch: who ended is forgotten, and who still waits comes back to where it stood.
    fn note_one(&mut self, ticket: u64, place: Option<WaitingPlace>) -> Result<(), AllocError>
        ensures shifts { OnlyShifts self.old self.new }
    {
        acts_go_on();
        if self.admission.list().waiter(Ticket::new(ticket)).is_none() {
            self.prospects.forget(ticket);
            return Ok(());
        }
        match place {
            Some(place) => self.put_back(ticket, place),
            None => Ok(()),
        }
    }

    /// Notes what came of each of a batch.
    fn note_each(&mut self, batch: &Batch) -> Result<(), AllocError>
        ensures shifts { OnlyShifts self.old self.new }
    {
        acts_go_on();
        let tickets = batch.tickets.as_slice();
        for number in 0..tickets.len() {
            self.note_one(tickets[number], batch.place_of(number))?;
        }
        Ok(())
    }

    /// Notes what came of a batch that is over: whether it was in vain, and which tables changed.
    fn note(&mut self, batch: &Batch) -> Result<(), AllocError>
        ensures shifts { OnlyShifts self.old self.new }
    {
        acts_go_on();
        if self.all_wait(batch) {
            self.prospects.note_tried(self.alloc, batch)?;
        }
        self.note_each(batch)?;
        let told = self.next_group().saturating_sub(batch.group);
        self.prospects.note_changes(
            self.admission.epoch().core().opening().tables.as_slice(),
            self.admission.feed().from(batch.group),
            told,
        );
        Ok(())
    }

    /// The batch that is on comes to its end, and is told.
    fn end(&mut self) -> Result<(), Refusal<NoNumber>>
        ensures advances { Advances self.old self.new }
        ensures at_rest { OnOk result (IsAtRest self.new.admission) }
    {
        self.admission.go_on()?;
        Ok(())
    }

    /// Notes what came of the batch that was on, where one was.
    fn note_last(&mut self) -> Result<bool, AllocError>
        ensures shifts { OnlyShifts self.old self.new }
    {
        acts_go_on();
        let Some(batch) = self.batch.take() else {
            return Ok(false);
        };
        match self.note(&batch) {
            Ok(()) => Ok(true),
            Err(AllocError) => {
                self.batch = Some(batch);
                Err(AllocError)
            }
        }
    }

    /// Goes on with the batch that is on, where one is, to its end.
    fn finish(&mut self) -> Result<bool, Refusal<NotStepped>>
        ensures advances { Advances self.old self.new }
        ensures at_rest { OnOk result (IsAtRest self.new.admission) }
    {
        acts_go_on();
        if let Err(refusal) = self.end() {
            return Err(not_told(refusal));
        }
        let noted = self.note_last()?;
        Ok(noted)
    }

    /// A batch that was made up is on.
    fn begin(&mut self, batch: Batch)
        ensures same { self.new ≡ self.old }
    {
        self.batch = Some(batch);
    }

    /// Makes the run of a batch; whether it was made.
    pub(crate) fn make(&mut self, batch: Batch) -> Result<bool, Refusal<NotStepped>>
        requires at_rest { IsAtRest self.old.admission }
        ensures advances { Advances self.old self.new }
        ensures at_rest { OnOk result (IsAtRest self.new.admission) }
    {
        acts_go_on();
        if !self.plan(&batch)? {
            self.prospects.note_tried(self.alloc, &batch)?;
            return Ok(false);
        }
        self.begin(batch);
        self.finish()?;
        Ok(true)
    }

    /// Makes a run of an ordinary script, the one that has waited longest; whether there was one.
    fn make_ordinary(&mut self) -> Result<bool, Refusal<NotStepped>>
        requires at_rest { IsAtRest self.old.admission }
        ensures advances { Advances self.old self.new }
        ensures at_rest { OnOk result (IsAtRest self.new.admission) }
    {
        acts_go_on();
        let station = Station::Queue(Rank::Ordinary);
        let Some(ticket) = self.admission.list().first_from(station, Ticket::new(0)) else {
            return Ok(false);
        };
        let mut batch = self.meeting(&[ticket.number()], None)?;
        batch.rank = Rank::Ordinary;
        self.make(batch)
    }

    /// Makes runs of ordinary scripts, for half of a step's work; whether there was one.
    fn make_all_ordinary(&mut self, work: &mut Work) -> Result<bool, Refusal<NotStepped>>
        requires at_rest { IsAtRest self.old.admission }
        ensures advances { Advances self.old self.new }
        ensures at_rest { OnOk result (IsAtRest self.new.admission) }
    {
        acts_go_on();
        let mut ran = false;
        'runs: for _ in 0..MOST_ORDINARY {
            if !self.make_ordinary()? {
                return Ok(ran);
            }
            work.charge(RUN);
            ran = true;
        }
        Ok(ran)
    }

    /// Whose turn it is.
    fn whose_turn(&mut self) -> Option<u64>
        ensures same { self.new ≡ self.old }
    {
        self.prospects.order.first(self.admission.list())
    }

    /// The next root has its turn, once tried meetings were told that tables changed; whether a run was made, or nothing
    /// if there is nothing left to do.
    fn next_turn(&mut self, work: &mut Work) -> Result<Option<bool>, Refusal<NotStepped>>
        requires at_rest { IsAtRest self.old.admission }
        ensures advances { Advances self.old self.new }
        ensures at_rest { OnOk result (IsAtRest self.new.admission) }
    {
        acts_go_on();
        self.tell_changes(work)?;
        let Some(root) = self.whose_turn() else {
            return Ok(if self.prospects.clocks.is_on() {
                Some(false)
            } else {
                None
            });
        };
        let ran = self.take_turn(root, work)?;
        Ok(Some(ran))
    }

    /// Roots have their turns, for the rest of a step's work; whether a run was made.
    fn take_turns(&mut self, work: &mut Work) -> Result<bool, Refusal<NotStepped>>
        requires at_rest { IsAtRest self.old.admission }
        ensures advances { Advances self.old self.new }
        ensures at_rest { OnOk result (IsAtRest self.new.admission) }
    {
        acts_go_on();
        let mut ran = false;
        'turns: for _ in 0..MOST_OF_STEP {
            if work.is_over() {
                return Ok(ran);
            }
            let Some(made) = self.next_turn(work)? else {
                return Ok(ran);
            };
            ran = ran | made;
        }
        Ok(ran)
    }

    /// Whether nobody stands in the queue of this rank.
    fn is_empty(&self, rank: Rank) -> bool
        ensures { result ≡ true → HasNobodyIn self.now.admission.list rank }
    {
        let station = Station::Queue(rank);
        self.admission
            .list()
            .first_from(station, Ticket::new(0))
            .is_none()
    }

    /// Whether nobody stands in a queue.
    #[tactic(auto, using(crate::proofs::Quiet::in_no_queue))]
    fn is_quiet(&self) -> bool
        ensures { result ≡ true → AreResting self.now.admission.list }
    {
        self.is_empty(Rank::Ordinary) && self.is_empty(Rank::Newcomer) && self.is_empty(Rank::Woken)
    }

    /// What a step did: as long as somebody stands in a queue, or is to be told of a change, there is more to look at.
    fn told(&self, ran: bool) -> Stepped
        ensures { result ≡ Idle → AreResting self.now.admission.list }
    {
        if ran {
            Stepped::Ran
        } else if self.is_quiet() && !self.prospects.clocks.is_on() {
            Stepped::Idle
        } else {
            Stepped::Searched
        }
    }

    /// Makes runs, each of an ordinary script alone or of a meeting alone, as many as its work allows: first of ordinary
    /// scripts, in the order of their tickets, and then of meetings. Each script is submitted for one run, and each run
    /// is made to its end; who has no fate of its own then waits again, or gives up. After each run the feed tells what
    /// came of it. Where memory runs out, or no number is left, what was done stands, and the next step goes on there.
    /// After an idle step all who wait rest.
    pub fn step(&mut self) -> Result<Stepped, Refusal<NotStepped>>
        ensures advances { Advances self.old self.new }
        ensures at_rest { OnOk result (IsAtRest self.new.admission) }
        ensures idle { IfOk result (λ stepped. stepped ≡ Idle → AreResting self.new.admission.list) }
    {
        acts_go_on();
        let finished = self.finish()?;
        let mut work = Work::new(MOST_OF_STEP);
        let ordinary = self.make_all_ordinary(&mut work)?;
        let meetings = self.take_turns(&mut work)?;
        Ok(self.told(finished || ordinary || meetings))
    }
}

/// Why a step isn't made where what came of a batch can't be told.
fn not_told(refusal: Refusal<NoNumber>) -> Refusal<NotStepped> {
    match refusal {
        Refusal::Memory => Refusal::Memory,
        Refusal::Fault(NoNumber) => Refusal::Fault(NotStepped::NoNumber),
    }
}

//! Runs that a service starts and ends, by its clock or as its clients come.
ghost use Rattle.std.specs.Prelude.{◌≡◌, IfOk};
ghost use Rattle.ent_desk.specs.Seen.{GetsReceipts};
ghost use Rattle.ent_serve.specs.Runs.{EndsBehindLock, RecallsBehindLock, StartsBehindLock, headway_in};

use crate::gate::Gate;
use crate::manager::{Headway, Manager};
use ent_desk::{Advance, Naming, Session};
use std::alloc::AllocError;
use std::sync::Wait;

/// What an advance that lends no job tells.
fn headway_of<J>(advance: &Advance<J>) -> Headway
    ensures { result ≡ headway_in advance.now }
{
    match advance {
        Advance::Lent(_) | Advance::Moved => Headway::Moved,
        Advance::Idle => Headway::Idle,
        Advance::Done => Headway::Done,
    }
}

impl<L: Naming, G: Gate> Manager<L, G> {
    /// As [`Manager::work`], but it starts no run, and ends none. Idle: nothing in the run moves, or no run is on; and
    /// not every transaction has its fate.
    pub fn work_in_run<R: Wait>(
        &self,
        rt: &R,
        session: &mut Session<L>,
    ) -> Result<Headway, AllocError>
        ensures { GetsReceipts session.old session.new }
    {
        match session.take_stopped() {
            Some(stopped) => self.resume(rt, session, stopped),
            None => self.advance_in_run(rt, session),
        }
    }

    /// The first event of the run that moves, and where it lends a job, that job.
    fn advance_in_run<R: Wait>(
        &self,
        rt: &R,
        session: &mut Session<L>,
    ) -> Result<Headway, AllocError>
        ensures { GetsReceipts session.old session.new }
    {
        self.bell.give_way();
        let mut desk = self.desk.lock(rt);
        let advance = desk.advance_in_run(self.alloc, session)?;
        let left = desk.take_left();
        drop(desk);
        self.go_on(rt, session, advance, left)
    }

    /// Starts a run of those who wait for one: Moved. Idle: a run is on. Done: nobody waits for one, and every
    /// transaction has its fate. At both, and where memory runs out, nothing changes.
    pub fn start_run<R: Wait>(&self, rt: &R) -> Result<Headway, AllocError>
        ensures { IfOk result StartsBehindLock }
    {
        let mut desk = self.desk.lock(rt);
        let _core = desk.core();
        let started = desk.start_run()?;
        let left = desk.take_left();
        drop(desk);
        Ok(self.told(rt, &started, left))
    }

    /// Ends the run; each member that is left waits for another one, or gives up: Moved. Idle: something in the run
    /// must come first, or no run is on, and somebody waits for one. Done: every transaction has its fate. At both, and
    /// where memory runs out, nothing changes.
    pub fn end_run<R: Wait>(&self, rt: &R) -> Result<Headway, AllocError>
        ensures { IfOk result EndsBehindLock }
    {
        let mut desk = self.desk.lock(rt);
        let _core = desk.core();
        let ended = desk.end_run()?;
        let left = desk.take_left();
        drop(desk);
        Ok(self.told(rt, &ended, left))
    }

    /// Lends no job any more, whoever has one: each is to be done again, and a result that still comes is dropped. So a
    /// run goes on whose job was lent to a session that is lost.
    pub fn recall<R: Wait>(&self, rt: &R)
        ensures { RecallsBehindLock }
    {
        let mut desk = self.desk.lock(rt);
        let _core = desk.core();
        desk.recall();
        drop(desk);
        self.bell.ring(rt);
    }

    /// Rings where something moved, and tells it.
    fn told<J, R: Wait>(&self, rt: &R, advance: &Advance<J>, left: bool) -> Headway
        ensures { result ≡ headway_in advance.now }
    {
        let headway = headway_of(advance);
        if headway == Headway::Moved {
            self.tell(rt, left);
        }
        headway
    }
}

//! A trace, gone over event by event.
ghost use Rattle.std.specs.Prelude.{◌≡◌, IfOk};
ghost use Rattle.std.specs.List.Sorted.{IsStrictlyIncreasing};
ghost use Rattle.ent_picture.specs.Members.{members_of_lanes};

use crate::columns::Columns;
use crate::joints::JointAnswer;
use crate::met::members_of;
use crate::picture::{Bar, Fate, Lane, Life, Link, LinkKind, Mark, MarkKind, Picture, Run, Shade};
use crate::stand::{Stand, State};
use crate::{Commit, Event, Exchange, Reply};
use ent_group::Tx;
use std::alloc::{AllocError, Global};
use std::collections::BTreeMap;

/// What a picture shows of the events so far, and where its lanes stand.
#[derive(Drop)]
pub(crate) struct Scene {
    pub(crate) alloc: Global,
    pub(crate) columns: Columns,
    /// The transactions of the lanes.
    pub(crate) members: Vec<Tx>,
    pub(crate) stands: BTreeMap<Tx, Stand>,
    fates: Vec<Fate>,
    /// How many groups there were.
    pub(crate) groups: u64,
    /// How many runs were started.
    runs: u64,
    /// Whether the present run has its band.
    is_run_shown: bool,
    /// Whether in the last column members begin to wait, and nothing else happens.
    is_waiting: bool,
    /// The transaction of each job; none where the job is of a component.
    jobs: Vec<Option<Tx>>,
    /// How many joint answers were made.
    joints: usize,
    bands: Vec<Run>,
    lives: Vec<Life>,
    pub(crate) shades: Vec<Shade>,
    bars: Vec<Bar>,
    links: Vec<Link>,
    marks: Vec<Mark>,
}

impl Scene {
    fn new(alloc: Global) -> Self {
        Scene {
            alloc,
            columns: Columns::new(alloc),
            members: Vec::new(alloc),
            stands: BTreeMap::new(alloc),
            fates: Vec::new(alloc),
            groups: 0,
            runs: 0,
            is_run_shown: false,
            is_waiting: false,
            jobs: Vec::new(alloc),
            joints: 0,
            bands: Vec::new(alloc),
            lives: Vec::new(alloc),
            shades: Vec::new(alloc),
            bars: Vec::new(alloc),
            links: Vec::new(alloc),
            marks: Vec::new(alloc),
        }
    }

    /// One lane more, below the others.
    fn add_lane(&mut self, tx: Tx) -> Result<(), AllocError> {
        let lane = self.fates.len() as u64;
        self.fates.push(Fate::Open)?;
        self.members.push(tx)?;
        self.stands.insert(tx, Stand::new(lane))?;
        Ok(())
    }

    pub(crate) fn stand(&self, tx: Tx) -> Option<Stand> {
        self.stands.get(&tx).copied()
    }

    pub(crate) fn set_stand(&mut self, tx: Tx, stand: Stand) {
        if let Some(slot) = self.stands.get_mut(&tx) {
            *slot = stand;
        }
    }

    /// The column of the present event; it gets one where it has none.
    pub(crate) fn column(&mut self) -> Result<u64, AllocError> {
        if self.columns.show()? {
            self.is_waiting = false;
        }
        Ok(self.columns.last())
    }

    /// The column in which a lane goes over to another state: the last one, where that may be shared.
    fn column_of_turn(&mut self, stand: Stand, state: State) -> Result<u64, AllocError> {
        let last = self.columns.last();
        let is_shared = if state.is_waiting() {
            self.is_waiting && stand.since < last
        } else {
            stand.state == State::Out && state == State::Ready && stand.since == last
        };
        if is_shared {
            return Ok(last);
        }
        let column = self.column()?;
        self.is_waiting = state.is_waiting();
        Ok(column)
    }

    fn set_fate(&mut self, lane: u64, fate: Fate) {
        if let Some(slot) = self.fates.get_mut(lane as usize) {
            *slot = fate;
        }
    }

    /// The lane of a transaction goes over to another state, where it has a lane and stands otherwise.
    fn turn(&mut self, tx: Tx, state: State, answer: Option<usize>) -> Result<(), AllocError> {
        let Some(stand) = self.stand(tx) else {
            return Ok(());
        };
        if stand.state == state {
            return Ok(());
        }
        let column = self.column_of_turn(stand, state)?;
        let event = self.columns.event();
        if let Some(bar) = stand.bar(column, event, answer) {
            self.bars.push(bar)?;
        }
        self.set_stand(tx, stand.turned(state, column, event));
        Ok(())
    }

    /// The script of a transaction goes on to its next statement.
    fn step(&mut self, tx: Tx) {
        if let Some(stand) = self.stand(tx) {
            let place = stand.place.saturating_add(1);
            self.set_stand(tx, Stand { place, ..stand });
        }
    }

    /// A run is on.
    fn start_run(&mut self, members: &[Tx]) -> Result<(), AllocError> {
        self.runs = self.runs.saturating_add(1);
        self.is_run_shown = false;
        for tx in members {
            if let Some(stand) = self.stand(*tx) {
                self.enter(*tx, stand)?;
            }
        }
        Ok(())
    }

    /// A lane takes part in the run, which has its band then.
    fn enter(&mut self, tx: Tx, stand: Stand) -> Result<(), AllocError> {
        let column = self.column()?;
        if !self.is_run_shown {
            self.bands.push(Run {
                number: self.runs,
                from: column,
                to: column,
            })?;
            self.is_run_shown = true;
        }
        if let Some(left) = stand.left {
            if let Some(mark) = self.marks.get_mut(left) {
                mark.is_back = true;
            }
        }
        self.set_fate(stand.lane, Fate::Open);
        self.set_stand(tx, stand.entering(column));
        Ok(())
    }

    /// A lane leaves the run.
    fn leave(&mut self, tx: Tx, kind: MarkKind) -> Result<(), AllocError> {
        self.turn(tx, State::Away, None)?;
        let Some(stand) = self.stand(tx) else {
            return Ok(());
        };
        let column = self.column()?;
        self.close(stand, column)?;
        let left = self.marks.len();
        self.marks.push(Mark {
            lane: stand.lane,
            column,
            kind,
            is_back: false,
        })?;
        self.set_fate(stand.lane, fate_of(kind));
        self.set_stand(
            tx,
            Stand {
                group: None,
                left: Some(left),
                ..stand
            },
        );
        Ok(())
    }

    /// The time of a lane in its run and in its group ends.
    fn close(&mut self, stand: Stand, column: u64) -> Result<(), AllocError> {
        if let Some(shade) = stand.shade(column) {
            self.shades.push(shade)?;
        }
        self.lives.push(stand.life(column))?;
        Ok(())
    }

    /// The lanes of those of these transactions that have one.
    pub(crate) fn lanes_of(&self, members: &[Tx]) -> Result<Vec<u64>, AllocError> {
        let mut lanes = Vec::new(self.alloc);
        for tx in members {
            if let Some(stand) = self.stand(*tx) {
                lanes.push(stand.lane)?;
            }
        }
        Ok(lanes)
    }

    /// What those of these transactions that have a lane have in common; nothing is shown for none.
    pub(crate) fn link(&mut self, kind: LinkKind, members: &[Tx]) -> Result<(), AllocError> {
        let lanes = self.lanes_of(members)?;
        if lanes.is_empty() {
            return Ok(());
        }
        let column = self.column()?;
        self.links.push(Link {
            column,
            kind,
            lanes,
        })?;
        Ok(())
    }

    fn committed(&mut self, commits: &[Commit]) -> Result<(), AllocError> {
        let members = members_of(self.alloc, commits)?;
        if members.len() > 1 {
            self.link(LinkKind::Commit, members.as_slice())?;
        }
        for commit in commits {
            self.leave(commit.tx, MarkKind::Committed(commit.number))?;
        }
        Ok(())
    }

    /// A group leaves the run, one of it by what it did itself.
    fn group_leaves(
        &mut self,
        of: Option<Tx>,
        kind: MarkKind,
        group: &[Tx],
    ) -> Result<(), AllocError> {
        for tx in group {
            if of == Some(*tx) {
                self.leave(*tx, kind)?;
            } else {
                self.leave(*tx, MarkKind::TakenBack)?;
            }
        }
        Ok(())
    }

    fn end_run(&mut self, members: &[Tx]) -> Result<(), AllocError> {
        for tx in members {
            self.leave(*tx, MarkKind::Ended)?;
        }
        if self.is_run_shown {
            let column = self.columns.last();
            self.set_run_end(column);
        }
        self.is_run_shown = false;
        Ok(())
    }

    fn set_run_end(&mut self, column: u64) {
        if let Some(run) = self.bands.last_mut() {
            run.to = column;
        }
    }

    /// The members of the joint answer that was just made were answered, where it has members with a lane.
    fn answered(&mut self, joints: &[JointAnswer]) -> Result<(), AllocError> {
        let at = self.joints;
        self.joints = at.saturating_add(1);
        let Some(joint) = joints.get(at) else {
            return Ok(());
        };
        let members = joint.members.as_slice();
        for tx in members {
            self.turn(*tx, State::Ready, None)?;
            self.step(*tx);
        }
        self.join(members)
    }

    /// The transaction of a job.
    fn job(&self, number: u64) -> Option<Tx> {
        let index = number.checked_sub(1)? as usize;
        self.jobs.get(index).copied()?
    }

    /// The transaction that an event is about, if it is about one.
    fn subject(&self, event: Event) -> Option<Tx> {
        match event {
            Event::Begin(tx) => Some(tx),
            Event::Finish(job) => self.job(job),
            _ => None,
        }
    }

    /// A transaction's statement was begun or carried out, or its COMMIT was.
    fn go_on(&mut self, tx: Tx, reply: &Reply, at: usize) -> Result<(), AllocError> {
        match reply {
            Reply::Blocked(holder) => self.turn(tx, State::Blocked(*holder), None),
            Reply::HeldBack(demand) => self.turn(tx, State::HeldBack(*demand), None),
            Reply::Posted => self.turn(tx, State::Posted, None),
            Reply::Prepared => self.turn(tx, State::Prepared, None),
            Reply::Lent(_) => self.turn(tx, State::Out, None),
            Reply::Stepped(_) => {
                self.turn(tx, State::Ready, Some(at))?;
                self.step(tx);
                Ok(())
            }
            _ => Ok(()),
        }
    }

    /// Goes over one exchange more, which has this index.
    fn play(
        &mut self,
        exchange: &Exchange,
        at: usize,
        joints: &[JointAnswer],
    ) -> Result<(), AllocError> {
        self.columns.pass();
        let subject = self.subject(exchange.event);
        if let Reply::Lent(_) = exchange.reply {
            self.jobs.push(subject)?;
        }
        match &exchange.reply {
            Reply::Started(members) => self.start_run(members.as_slice()),
            Reply::Committed(commits) => self.committed(commits.as_slice()),
            Reply::RolledBack(group) => {
                self.group_leaves(subject, MarkKind::RolledBack, group.as_slice())
            }
            Reply::Failed(failure, group) => {
                self.group_leaves(subject, MarkKind::Failed(*failure), group.as_slice())
            }
            Reply::Broken { cycle, group } => {
                self.link(LinkKind::Cycle, cycle.as_slice())?;
                self.group_leaves(None, MarkKind::TakenBack, group.as_slice())
            }
            Reply::Ended(members) => self.end_run(members.as_slice()),
            Reply::Answered => self.answered(joints),
            other => match subject {
                Some(tx) => self.go_on(tx, other, at),
                None => Ok(()),
            },
        }
    }

    /// Ends what is still going on at the last column.
    fn finish(&mut self) -> Result<(), AllocError> {
        let column = self.columns.last();
        for at in 0..self.members.len() {
            let tx = self.tx_at(at);
            if let Some(stand) = self.stand(tx) {
                self.finish_lane(stand, column)?;
            }
        }
        if self.is_run_shown {
            self.set_run_end(column);
        }
        Ok(())
    }

    fn finish_lane(&mut self, stand: Stand, column: u64) -> Result<(), AllocError> {
        if stand.state == State::Away {
            return Ok(());
        }
        if let Some(bar) = stand.bar(column, self.columns.event(), None) {
            self.bars.push(bar)?;
        }
        self.close(stand, column)
    }

    /// The transaction of a lane.
    pub(crate) fn tx_at(&self, lane: usize) -> Tx {
        self.members.get(lane).copied().unwrap_or(0)
    }

    /// The picture of the events so far, with lanes for these members.
    fn into_picture(self, members: &[Tx]) -> Result<Picture, AllocError>
        ensures lanes { IfOk result (λ picture. members_of_lanes picture.lanes.items ≡ members.now) }
        ensures by_number { IfOk result (λ picture. IsStrictlyIncreasing picture.columns.items) }
    {
        let Scene {
            alloc,
            columns,
            fates,
            groups,
            bands,
            lives,
            shades,
            bars,
            links,
            marks,
            ..
        } = self;
        let events = columns.event();
        Ok(Picture {
            events,
            groups,
            columns: columns.into_numbers(),
            lanes: lanes(alloc, members, fates.as_slice())?,
            runs: bands,
            lives,
            shades,
            bars,
            links,
            marks,
        })
    }
}

/// A lane for each of these members, in their order.
fn lanes(alloc: Global, members: &[Tx], fates: &[Fate]) -> Result<Vec<Lane>, AllocError>
    ensures { IfOk result (λ lanes. members_of_lanes lanes.items ≡ members.now) }
{
    let mut lanes = Vec::new(alloc);
    for tx in members {
        let fate = fates.get(lanes.len()).copied().unwrap_or(Fate::Open);
        lanes.push(Lane { tx: *tx, fate })?;
    }
    Ok(lanes)
}

fn fate_of(kind: MarkKind) -> Fate {
    match kind {
        MarkKind::Committed(number) => Fate::Committed(number),
        MarkKind::RolledBack => Fate::RolledBack,
        MarkKind::Failed(failure) => Fate::Failed(failure),
        MarkKind::TakenBack | MarkKind::Ended => Fate::GaveUp,
    }
}

/// The picture of a trace with these joint answers, with a lane for each of these members, in their order. The numbers
/// of its columns rise.
pub fn picture_of(
    alloc: Global,
    trace: &[Exchange],
    joints: &[JointAnswer],
    members: &[Tx],
) -> Result<Picture, AllocError>
    ensures lanes { IfOk result (λ picture. members_of_lanes picture.lanes.items ≡ members.now) }
    ensures by_number { IfOk result (λ picture. IsStrictlyIncreasing picture.columns.items) }
{
    let mut scene = Scene::new(alloc);
    for tx in members {
        scene.add_lane(*tx)?;
    }
    for (at, exchange) in trace.iter().enumerate() {
        scene.play(exchange, at, joints)?;
    }
    scene.finish()?;
    scene.into_picture(members)
}

//! A watcher that notes what each transaction was told last, and what stopped it.
ghost use Rattle.std.specs.Prelude.{◌≡◌, [], map, true};
ghost use Rattle.ent_job.specs.Work.{work_seen};
ghost use Rattle.ent_sched.specs.Passed.{reply_seen};
ghost use Rattle.ent_reasons.specs.News.{IsHeard, parties, workers};
ghost use Rattle.ent_protocol.specs.Event.{Event};
ghost use Rattle.ent_sched.specs.Watching.{TellsOf};
ghost use Rattle.ent_trace.specs.Marking.{AreHeld, Marks};

use crate::looks::{look, look_at_blocks};
use crate::news::{News, first_party, news_of};
use ent_eval::{Done, Work};
use ent_group::{Members, Tx};
use ent_match::Posted;
use ent_reasons::{Notes, Observations};
use ent_sched::{Core, MadeEvent, Reply, Watcher};
use std::alloc::Global;

/// Notes what each transaction was told last in its run, and what was seen of it when nothing could be answered.
#[derive(Drop)]
pub struct NoteTaker {
    alloc: Global,
    notes: Notes,
    observations: Observations,
}

impl NoteTaker {
    /// One that was told nothing yet.
    pub fn new(alloc: Global) -> Self
        ensures notes { result.notes.notes ≡ [] }
        ensures whole { result.notes.is_whole ≡ true }
    {
        NoteTaker {
            alloc,
            notes: Notes::new(alloc),
            observations: Observations::new(alloc),
        }
    }

    /// What it has noted, and what it has seen.
    pub fn into_parts(self) -> (Notes, Observations)
        ensures notes { result.0 ≡ self.notes }
        ensures observations { result.1 ≡ self.observations }
    {
        let NoteTaker {
            notes,
            observations,
            ..
        } = self;
        (notes, observations)
    }
}

/// The transactions of posted statements; none where they are more than a list of members holds.
fn posters(asked: &[Posted]) -> Option<Members>
    ensures { AreHeld result (map (λ query. query.tx) asked.now) }
{
    let mut members = Members::new();
    for posted in asked {
        if members.is_full() {
            return None;
        }
        members.push(posted.tx());
    }
    Some(members)
}

/// The transactions of some work; none where they are more than a list of members holds.
fn workers(work: &Work) -> Option<Members>
    ensures { AreHeld result (workers (work_seen work.now)) }
{
    match work {
        Work::One(single) => Some(Members::of(single.tx())),
        Work::Joint(asked) => posters(asked.as_slice()),
    }
}

/// Those whom an event is of; none where they are more than a list of members holds.
fn parties(told: MadeEvent<Option<Members>>) -> Option<Members>
    ensures { (event : Event) → TellsOf Marks told event → AreHeld result (parties event) }
{
    match told {
        MadeEvent::Begin(tx) => Some(Members::of(tx)),
        MadeEvent::Finish(own) => own,
        MadeEvent::JoinAnswer(own) => own,
        MadeEvent::StartRun => Some(Members::new()),
        MadeEvent::Pick => Some(Members::new()),
        MadeEvent::BreakCycle => Some(Members::new()),
        MadeEvent::EndRun => Some(Members::new()),
        MadeEvent::Recall => Some(Members::new()),
    }
}

/// Notes what an event and its reply tell.
fn hear(notes: &mut Notes, told: MadeEvent<Option<Members>>, reply: &Reply)
    ensures { (event : Event)
        → TellsOf Marks told event
        → IsHeard notes.old (event, reply_seen reply.now) notes.new }
{
    match parties(told) {
        Some(own) => {
            let News { of, change } = news_of(&own, reply);
            notes.change_each(of.as_slice(), &change);
        }
        None => notes.lose(),
    }
}

/// Those whose result was handed in; nobody where that is no joint answer.
fn joined(told: &MadeEvent<Option<Members>>) -> Option<&Members> {
    match told {
        MadeEvent::JoinAnswer(own) => own.as_ref(),
        _ => None,
    }
}

/// Who made an event; 0, which is none, where it is of nobody.
fn maker(told: &MadeEvent<Option<Members>>) -> Tx {
    match told {
        MadeEvent::Begin(tx) => *tx,
        MadeEvent::Finish(Some(own)) => first_party(own),
        _ => 0,
    }
}

/// Notes what is seen of a core behind an event and its reply. Who blocks whom is seen whenever nothing is picked, or
/// what was picked is done with, so that it is known before a deadlock is broken.
fn see(
    alloc: Global,
    observations: &mut Observations,
    told: &MadeEvent<Option<Members>>,
    reply: &Reply,
    core: &Core,
) {
    match reply {
        Reply::Started(members) => observations.start(&members.unpacked()),
        Reply::Nothing => look(alloc, observations, core),
        Reply::NoChoice => look_at_blocks(alloc, observations, core),
        Reply::Answered => {
            if let Some(own) = joined(told) {
                observations.join(own);
            }
            look_at_blocks(alloc, observations, core);
        }
        Reply::RolledBack(group) | Reply::Failed(_, group) => {
            observations.tie(&group.unpacked(), maker(told));
        }
        Reply::Broken(cycle, group) => {
            let cycle = cycle.unpacked();
            let group = group.unpacked();
            observations.break_deadlock(&cycle, &group);
            observations.tie(&group, first_party(&cycle));
        }
        _ => {}
    }
}

impl Watcher for NoteTaker {
    type Mark = Option<Members>;

    ghost hears = { λ old heard new. IsHeard old.notes heard.one new.notes };

    ghost marks = { Marks };

    fn listens(&self) -> bool {
        true
    }

    /// The transactions of the result.
    fn mark(&self, done: &Done) -> Option<Members> {
        workers(done.job().work())
    }

    fn tell(&mut self, told: MadeEvent<Option<Members>>, reply: &Reply, core: &Core)
        ensures { (event : Event)
            → TellsOf Marks told event
            → IsHeard self.old.notes (event, reply_seen reply.now) self.new.notes }
    {
        see(self.alloc, &mut self.observations, &told, reply, core);
        hear(&mut self.notes, told, reply);
    }
}

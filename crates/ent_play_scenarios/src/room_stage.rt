//! A room, whose calls are made line by line, and what comes of them.
use crate::coming::Coming;
use crate::room_call::{Call, Entrance, Wait, read_call};
use crate::room_reply;
use anyhow::{Context, Result, bail};
use ent_bound::BoundVariable;
use ent_room::{Room, State, Stepped};
use ent_scenario_files::words::name as name_of;
use ent_value::{Name, Refusal};
use ent_waiting::{Ending, Ticket};
use std::alloc::Global;

/// So many steps `until_idle` makes at most.
const MOST_STEPS: u64 = 1_000_000;

/// A room, the script that is read for it, and the replies to its calls so far.
#[derive(Drop)]
pub(crate) struct Stage {
    alloc: Global,
    room: Room,
    coming: Option<Coming>,
    replies: String,
}

/// How many tickets stand so.
#[derive(Clone, Copy)]
struct Fates {
    committed: u64,
    ended_otherwise: u64,
    waiting: u64,
    unknown: u64,
}

impl Fates {
    /// One more ticket stands so.
    fn count(&mut self, state: State) {
        let count = match state {
            State::Ended(Ending::Committed { .. }) => &mut self.committed,
            State::Ended(_) => &mut self.ended_otherwise,
            State::Unknown => &mut self.unknown,
            _ => &mut self.waiting,
        };
        *count = count.saturating_add(1);
    }
}

/// Whether memory ran out in a call.
fn is_memory<T, F>(answered: &Result<T, Refusal<F>>) -> bool {
    matches!(answered, Err(Refusal::Memory))
}

impl Stage {
    /// A room that is open.
    pub(crate) fn new(alloc: Global, room: Room) -> Self {
        Stage {
            alloc,
            room,
            coming: None,
            replies: String::new(alloc),
        }
    }

    pub(crate) fn into_replies(self) -> String {
        let Stage { replies, .. } = self;
        replies
    }

    pub(crate) fn say(&mut self, reply: &str) -> Result<()> {
        self.replies.push_str(reply)?;
        Ok(())
    }

    /// Takes a line.
    pub(crate) fn take(&mut self, line: &str) -> Result<()> {
        match self.coming.take() {
            Some(coming) => self.go_on(coming, line),
            None => self.begin(line),
        }
    }

    /// A script goes on with a line, or is entered.
    fn go_on(&mut self, mut coming: Coming, line: &str) -> Result<()> {
        if coming.take(self.alloc, line)? {
            self.enter(&coming)
        } else {
            self.coming = Some(coming);
            Ok(())
        }
    }

    /// A line that begins a call.
    fn begin(&mut self, line: &str) -> Result<()> {
        let call = read_call(line)?;
        match self.make(call) {
            Ok(reply) => self.say(reply.as_str()),
            Err(error) => Err(error),
        }
    }

    /// Makes a call; its reply. That of a script comes once its text is read.
    fn make(&mut self, call: Call<'_>) -> Result<String> {
        match call {
            Call::Enter(entrance) => self.expect(entrance),
            Call::Step => self.step(),
            Call::UntilIdle => self.until_idle(),
            Call::Further => self.further(),
            Call::Withdraw(ticket) => self.withdraw(Ticket::new(ticket)),
            Call::Turn(names) => self.turn(names, false),
            Call::TurnReport(names) => self.turn(names, true),
            Call::State(ticket) => self.state(Ticket::new(ticket)),
            Call::Submissions(ticket) => self.submissions(Ticket::new(ticket)),
            Call::Groups(from) => room_reply::groups(self.alloc, self.room.groups(from)),
            Call::Settled(number) => self.settle(number),
            Call::Table(name) => self.table(name),
            Call::Book => room_reply::book(self.alloc, self.room.book()),
            Call::BookReport => room_reply::book_report(self.alloc, self.room.book()),
            Call::Waiting => room_reply::waiting(
                self.alloc,
                self.room.admission().list().waiting(),
            ),
            Call::Fates => self.fates(),
        }
    }

    /// A script comes in, whose text follows.
    fn expect(&mut self, entrance: Entrance) -> Result<String> {
        self.coming = Some(Coming::new(self.alloc, entrance));
        Ok(String::new(self.alloc))
    }

    fn enter(&mut self, coming: &Coming) -> Result<()> {
        let reply = match coming.entrance {
            Entrance::Put { times, wait, steps } => self.put_often(coming, times, wait, steps)?,
            Entrance::Restore {
                ticket,
                batches,
                wait,
            } => self.restore(coming, Ticket::new(ticket), batches, wait)?,
        };
        self.say(reply.as_str())
    }

    /// Puts a script so many times, with a step after each of them where it steps; the reply to the last one.
    fn put_often(
        &mut self,
        coming: &Coming,
        times: i64,
        wait: Wait,
        steps: bool,
    ) -> Result<String> {
        let mut reply = String::new(self.alloc);
        for before in 0..times {
            reply = self.put_and_step(coming, before, wait, steps)?;
        }
        Ok(reply)
    }

    fn put_and_step(
        &mut self,
        coming: &Coming,
        before: i64,
        wait: Wait,
        steps: bool,
    ) -> Result<String> {
        let reply = self.put_once(coming, before, wait)?;
        if steps {
            let stepped = self.step()?;
            drop(stepped);
        }
        Ok(reply)
    }

    fn put_once(&mut self, coming: &Coming, before: i64, wait: Wait) -> Result<String> {
        match coming.bound(self.alloc, before) {
            Ok(bound) => self.put_text(coming.text.as_bytes(), bound.as_slice(), wait),
            Err(refusal) => room_reply::not_bound(self.alloc, refusal),
        }
    }

    fn put_text(&mut self, text: &[u8], bound: &[BoundVariable], wait: Wait) -> Result<String> {
        let mut answered = self.room.put(text, bound, wait.stay()?);
        if is_memory(&answered) {
            self.say("E900\n")?;
            answered = self.room.put(text, bound, wait.stay()?);
        }
        room_reply::put(self.alloc, answered)
    }

    fn restore(
        &mut self,
        coming: &Coming,
        ticket: Ticket,
        batches: u64,
        wait: Wait,
    ) -> Result<String> {
        match coming.bound(self.alloc, 0) {
            Ok(bound) => {
                let text = coming.text.as_bytes();
                self.restore_text(ticket, text, bound.as_slice(), wait, batches)
            }
            Err(refusal) => room_reply::not_bound(self.alloc, refusal),
        }
    }

    fn restore_text(
        &mut self,
        ticket: Ticket,
        text: &[u8],
        bound: &[BoundVariable],
        wait: Wait,
        batches: u64,
    ) -> Result<String> {
        let mut answered = self
            .room
            .restore(ticket, text, bound, wait.stay()?, batches);
        if is_memory(&answered) {
            self.say("E900\n")?;
            answered = self
                .room
                .restore(ticket, text, bound, wait.stay()?, batches);
        }
        room_reply::restored(self.alloc, answered)
    }

    fn step(&mut self) -> Result<String> {
        let mut answered = self.room.step();
        if is_memory(&answered) {
            self.say("E900\n")?;
            answered = self.room.step();
        }
        room_reply::stepped(self.alloc, answered)
    }

    /// Steps until there is nothing to do, and says in how many steps runs were made.
    fn until_idle(&mut self) -> Result<String> {
        let mut ran = 0u64;
        for _ in 0..MOST_STEPS {
            let mut answered = self.room.step();
            if is_memory(&answered) {
                self.say("E900\n")?;
                answered = self.room.step();
            }
            match answered {
                Ok(Stepped::Idle) => return room_reply::idle(self.alloc, ran),
                Ok(Stepped::Searched) => {}
                Ok(Stepped::Ran) => ran = ran.saturating_add(1),
                Err(_) => return room_reply::stepped(self.alloc, answered),
            }
        }
        bail!("there is no end of steps")
    }

    /// Those go on whom a bound stopped.
    fn further(&mut self) -> Result<String> {
        if self.room.further().is_err() {
            self.say("E900\n")?;
            self.room.further()?;
        }
        Ok(String::from_str(self.alloc, "further\n")?)
    }

    fn withdraw(&mut self, ticket: Ticket) -> Result<String> {
        let mut answered = self.room.withdraw(ticket);
        if is_memory(&answered) {
            self.say("E900\n")?;
            answered = self.room.withdraw(ticket);
        }
        room_reply::withdrawn(self.alloc, answered)
    }

    /// Turns, with the tables drained that are named; with the report, where that is told.
    fn turn(&mut self, words: &str, is_told: bool) -> Result<String> {
        let drained = names_of(self.alloc, words)?;
        let mut answered = self.room.turn(drained.as_slice());
        if is_memory(&answered) {
            self.say("E900\n")?;
            answered = self.room.turn(drained.as_slice());
        }
        match answered {
            Ok(()) => room_reply::turned(self.alloc, self.room.book(), is_told),
            Err(refusal) => room_reply::not_turned(self.alloc, refusal),
        }
    }

    /// The groups up to a number are kept no longer.
    fn settle(&mut self, number: u64) -> Result<String> {
        self.room.settled_through(number);
        room_reply::settled(self.alloc, self.room.next_group())
    }

    fn state(&self, ticket: Ticket) -> Result<String> {
        room_reply::state(self.alloc, self.room.state(ticket))
    }

    fn submissions(&self, ticket: Ticket) -> Result<String> {
        room_reply::submissions(self.alloc, self.room.submissions(ticket))
    }

    fn table(&self, word: &str) -> Result<String> {
        let name = name_of(self.alloc, word)?;
        room_reply::table(self.alloc, &name, self.room.table(&name))
    }

    /// How many tickets stand how, of all that were given out.
    fn fates(&self) -> Result<String> {
        let mut fates = Fates {
            committed: 0,
            ended_otherwise: 0,
            waiting: 0,
            unknown: 0,
        };
        for number in 0..self.room.admission().list().next().number() {
            fates.count(self.room.state(Ticket::new(number)));
        }
        Ok(format!(in self.alloc;
            "committed {}, ended otherwise {}, waiting {}, unknown {}\n",
            fates.committed, fates.ended_otherwise, fates.waiting, fates.unknown
        )?)
    }
}

/// The names that words are.
fn names_of(alloc: Global, words: &str) -> Result<Vec<Name>> {
    let mut names = Vec::new(alloc);
    for word in words.split_whitespace() {
        names.push(name_of(alloc, word)?)?;
    }
    Ok(names)
}

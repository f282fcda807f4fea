//! A batch is over, and those of it end or wait again.
ghost use Rattle.std.specs.Prelude.{◌≡◌, ◌<◌, ◌++◌, ℕ, IfErr, IsSome, None, OnErr, OnOk, Some, false, true};
ghost use Rattle.std.specs.Prelude.{vec_capacity, vec_len};
ghost use Rattle.std.specs.BTreeMap.{is_at};
ghost use Rattle.std.specs.BTreeSet.{contains};
ghost use Rattle.std.specs.Ordering.{nat_cmp};
ghost use Rattle.ent_protocol.specs.Reached.{CanClose};
ghost use Rattle.ent_admission.specs.Acts.{Advances};
ghost use Rattle.ent_admission.specs.Admission.{IsAtRest, IsOver, LacksNumbers};
ghost use Rattle.ent_admission.specs.Moves.{Goes, Runs, Settles, WaitsAgain, ended_with, ending_with, news_of, other_ending};
ghost use Rattle.ent_admission.specs.Moves.{submission_at};
ghost use Rattle.ent_meetings.specs.Waiting.{ChangesAt};
ghost use Rattle.ent_value.specs.declared.refusal.Refusal.TheVariants.{Fault};
ghost use Rattle.ent_waiting.specs.WaitingList.{IsSubmitted, Onward, UpdatesAt, ending_as, is_stationed, waiter_of};
ghost use Rattle.ent_waiting.specs.declared.ended.Ending.TheVariants.{GaveUp};
ghost use Rattle.ent_waiting.specs.declared.waiter.Waiter.{Waiter as WaiterSeen};
ghost use Rattle.ent_waiting.specs.declared.queues.Station.TheVariants.{Batch};

use crate::admission::Admission;
use crate::batch::counts_for;
use ent_feed::{EndedTicket, NoNumber, OtherEnding};
use ent_meetings::Index;
use ent_semantics::Fate;
use ent_value::Refusal;
use ent_waiting::{Ending, Station, Submission, Ticket, WaitingList, WaitingPlace};
use std::alloc::AllocError;

/// How a script ends with the fate of its transaction. Who only gave up the one run waits again.
fn ending_of(submission: Submission, fate: Option<Fate>) -> Option<Ending>
    ensures { result ≡ ending_with submission.epoch fate }
{
    match fate {
        Some(Fate::Committed { number, runs: _ }) => Some(Ending::Committed {
            epoch: submission.epoch,
            number,
        }),
        Some(Fate::RolledBack { runs: _ }) => Some(Ending::RolledBack),
        Some(Fate::Failed { failure, runs: _ }) => Some(Ending::Failed(failure)),
        Some(Fate::GaveUp { runs: _ }) | None => None,
    }
}

/// An ending that no commit tells.
fn other_ending(ending: Ending) -> Option<OtherEnding>
    ensures { result ≡ other_ending ending }
{
    match ending {
        Ending::RolledBack => Some(OtherEnding::RolledBack),
        Ending::Failed(failure) => Some(OtherEnding::Failed(failure)),
        Ending::GaveUp => Some(OtherEnding::GaveUp),
        Ending::Committed { .. } | Ending::Withdrawn => None,
    }
}

/// Notes how a ticket ended, where no commit tells it.
fn note(news: &mut Vec<EndedTicket>, ticket: Ticket, ending: Ending)
    requires room { vec_len news.old < vec_capacity news.old }
    ensures { news.new.items ≡ news.old.items ++ news_of ticket (Some ending) }
{
    if let Some(ending) = other_ending(ending) {
        news.push_reserved(EndedTicket { ticket, ending });
    }
}

/// Who waits no more under a ticket goes from the index too, and is noted: it gave up.
fn keep_up(index: &mut Index, news: &mut Vec<EndedTicket>, list: &WaitingList, ticket: Ticket)
    requires room { vec_len news.old < vec_capacity news.old }
    ensures gone { waiter_of list.now ticket ≡ None → ChangesAt ticket None index.old index.new }
    ensures stays { IsSome (waiter_of list.now ticket) → index.new ≡ index.old }
    ensures noted { waiter_of list.now ticket ≡ None
        → news.new.items ≡ news.old.items ++ news_of ticket (Some GaveUp) }
    ensures not_noted { IsSome (waiter_of list.now ticket) → news.new.items ≡ news.old.items }
{
    if list.waiter(ticket).is_none() {
        index.remove(ticket.number());
        note(news, ticket, Ending::GaveUp);
    }
}

impl Admission {
    /// The run of those who are submitted is made to its end. Where memory runs out, what was done stands.
    fn run(&mut self) -> Result<(), AllocError>
        requires all_in { (ticket : ℕ) → contains nat_cmp self.old.coming ticket ≡ false }
        ensures runs { Runs self.old self.new }
        ensures over { OnOk result (CanClose self.new.epoch.core) }
        ensures list { self.new.list ≡ self.old.list }
        ensures opening { self.new.epoch.core.opening ≡ self.old.epoch.core.opening }
        ensures coming { self.new.coming ≡ self.old.coming }
        ensures again { self.new.again ≡ self.old.again }
    {
        self.epoch.run(self.alloc)?;
        Ok(())
    }

    /// The transaction that the script of a ticket is.
    fn submission(&self, ticket: Ticket) -> Option<Submission>
        ensures { result ≡ submission_at (waiter_of self.now.list ticket) }
    {
        match self.list.waiter(ticket)?.place {
            WaitingPlace::Submitted(submission) => Some(submission),
            _ => None,
        }
    }

    /// One of a batch that is over ends. Where memory runs out nothing changes.
    fn end(&mut self, ticket: u64, ending: Ending) -> Result<(), AllocError>
        requires all_in { (other : ℕ) → contains nat_cmp self.old.coming other ≡ false }
        requires submitted { IsSubmitted self.old.list ticket }
        ensures ok { OnOk result ((waiter : WaiterSeen)
            → waiter_of self.old.list ticket ≡ Some waiter
            → self.new.list ≡ ending_as ticket ending true waiter self.old.list) }
        ensures updates { OnOk result (UpdatesAt ticket None self.old.list.waiters self.new.list.waiters) }
        ensures news { OnOk result (self.new.news ≡ self.old.news ++ news_of ticket (Some ending)) }
        ensures epoch { self.new.epoch ≡ self.old.epoch }
        ensures coming { self.new.coming ≡ self.old.coming }
        ensures again { self.new.again ≡ self.old.again }
        ensures feed { self.new.feed ≡ self.old.feed }
        ensures err { OnErr result (self.new ≡ self.old) }
        ensures onward { Onward self.old.list self.new.list }
    {
        self.news.reserve(1)?;
        let own = Ticket::new(ticket);
        self.list.end(own, ending)?;
        self.index.remove(ticket);
        note(&mut self.news, own, ending);
        Ok(())
    }

    /// One of a batch that is over waits again, or gives up where its patience is used up. Where memory runs out
    /// nothing changes.
    fn wait_again(&mut self, ticket: u64) -> Result<(), AllocError>
        requires all_in { (other : ℕ) → contains nat_cmp self.old.coming other ≡ false }
        requires submitted { IsSubmitted self.old.list ticket }
        ensures ok { OnOk result ((waiter : WaiterSeen)
            → waiter_of self.old.list ticket ≡ Some waiter
            → WaitsAgain self.old.again ticket waiter self.old.list self.new.list) }
        ensures news { OnOk result ((waiter : WaiterSeen)
            → waiter_of self.old.list ticket ≡ Some waiter
            → self.new.news ≡ self.old.news ++ news_of ticket (ended_with None self.old.again ticket waiter)) }
        ensures epoch { self.new.epoch ≡ self.old.epoch }
        ensures coming { self.new.coming ≡ self.old.coming }
        ensures again { self.new.again ≡ self.old.again }
        ensures feed { self.new.feed ≡ self.old.feed }
        ensures err { OnErr result (self.new ≡ self.old) }
        ensures onward { Onward self.old.list self.new.list }
    {
        let own = Ticket::new(ticket);
        let counts = counts_for(self.again, ticket);
        self.news.reserve(1)?;
        self.list.wait_again(own, self.again.rank, counts, false)?;
        keep_up(&mut self.index, &mut self.news, &self.list, own);
        Ok(())
    }

    /// One of a batch that is over ends, or waits again. Where memory runs out nothing changes.
    fn settle(&mut self, ticket: u64) -> Result<(), AllocError>
        requires over { CanClose self.old.epoch.core }
        requires all_in { (other : ℕ) → contains nat_cmp self.old.coming other ≡ false }
        requires batch { is_stationed Batch (waiter_of self.old.list ticket) ≡ true }
        ensures ok { OnOk result (Settles self.old self.new) }
        ensures settled { OnOk result (is_stationed Batch (waiter_of self.new.list ticket) ≡ false) }
        ensures others { OnOk result ((other : ℕ)
            → is_at (nat_cmp ticket) other ≡ false
            → waiter_of self.new.list other ≡ waiter_of self.old.list other) }
        ensures epoch { self.new.epoch ≡ self.old.epoch }
        ensures coming { self.new.coming ≡ self.old.coming }
        ensures again { self.new.again ≡ self.old.again }
        ensures feed { self.new.feed ≡ self.old.feed }
        ensures err { OnErr result (self.new ≡ self.old) }
        ensures opening { self.new.epoch.core.opening ≡ self.old.epoch.core.opening }
        ensures onward { Onward self.old.list self.new.list }
    {
        let own = Ticket::new(ticket);
        let Some(submission) = self.submission(own) else {
            unreachable!();
        };
        match ending_of(submission, self.epoch.fate(submission.tx)) {
            Some(ending) => self.end(ticket, ending)?,
            None => self.wait_again(ticket)?,
        }
        Ok(())
    }

    /// All of a batch that is over end, or wait again. Where memory runs out, some do.
    fn settle_all(&mut self) -> Result<(), AllocError>
        requires over { CanClose self.old.epoch.core }
        requires all_in { (ticket : ℕ) → contains nat_cmp self.old.coming ticket ≡ false }
        ensures goes { Goes self.old self.new }
        ensures over { OnOk result (IsOver self.new) }
        ensures opening { self.new.epoch.core.opening ≡ self.old.epoch.core.opening }
        ensures onward { Onward self.old.list self.new.list }
    {
        let mut from = 0;
        while let Some(next) = self.list.first_from(Station::Batch, Ticket::new(from)) {
            from = next.number();
            self.settle(from)?;
        }
        Ok(())
    }

    /// Goes on with the batch to its end, up to what is told of it: all of it are submitted, their run is made, and
    /// each of them ends or waits again. Where memory runs out, what was done stands.
    fn finish(&mut self) -> Result<(), AllocError>
        ensures goes { Goes self.old self.new }
        ensures over { OnOk result (IsOver self.new) }
        ensures opening { self.new.epoch.core.opening ≡ self.old.epoch.core.opening }
        ensures onward { Onward self.old.list self.new.list }
    {
        self.enter_all()?;
        self.run()?;
        self.settle_all()?;
        Ok(())
    }

    /// Goes on with the batch to its end: all of it are submitted, their run is made, and each of them ends or waits
    /// again. The feed then tells it: each group that committed, and behind them, in one group, who ended otherwise.
    /// Where no batch is on and all is told nothing happens. Where memory runs out, or the feed has no number left,
    /// what was done stands, and the next call goes on there.
    pub fn go_on(&mut self) -> Result<(), Refusal<NoNumber>>
        ensures goes { Goes self.old self.new }
        ensures ok { OnOk result (IsAtRest self.new) }
        ensures advances { Advances self.old self.new }
        ensures opening { self.new.epoch.core.opening ≡ self.old.epoch.core.opening }
        ensures onward { Onward self.old.list self.new.list }
        ensures no_number { IfErr result (λ refusal. refusal ≡ Fault (record {}) → LacksNumbers self.new) }
    {
        self.finish()?;
        self.tell()?;
        Ok(())
    }
}

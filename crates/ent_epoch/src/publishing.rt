//! Groups of what was noted.
ghost use Rattle.std.specs.Prelude.{◌≡◌, ◌+◌, ◌<◌, ◌≤◌, ◌^◌, [], All, IfOk, drop, length, map, suc, unwrap_or};
ghost use Rattle.std.specs.List.{IsDistinct};
ghost use Rattle.ent_book.specs.Report.{entry_answers};
ghost use Rattle.ent_sched.specs.Passed.{numbered_from};
ghost use Rattle.ent_protocol.specs.Reached.{table_names};
ghost use Rattle.ent_semantics.specs.Database.{same_name};
ghost use Rattle.ent_semantics.specs.Serial.{numbered};
ghost use Rattle.ent_epoch.specs.Publishing.{AreGroupsOf, IsGroupOf, commit_at};
ghost use Rattle.ent_feed.specs.Group.{AreNumbered, changes_between};
ghost use Rattle.ent_feed.specs.Tables.{database_in, rows_in};
ghost use Rattle.ent_feed.specs.Telling.{commits_of};

use crate::notes::Note;
use ent_feed::{Commit, Group, table_changes};
use ent_group::Members;
use ent_rel::Table;
use ent_sched::answers_copy;
use ent_semantics::{Answer, Entry, element};
use ent_tree::Opening;
use ent_value::Sequence;
use ent_waiting::Ticket;
use std::alloc::{AllocError, Global};
use std::sync::Arc;

/// What the groups of an epoch are made of: its tables, its journal, and the ticket of each of its transactions.
#[derive(Clone, Copy, Drop)]
pub(crate) struct GroupSource<'a> {
    pub(crate) epoch: u64,
    pub(crate) opening: &'a Opening,
    pub(crate) journal: &'a [Entry],
    pub(crate) tickets: &'a [Ticket],
}

/// Whose a transaction is; ticket 0 where it has none.
fn ticket_of(tickets: &[Ticket], tx: u64) -> Ticket
    ensures { result ≡ unwrap_or (numbered tickets.now tx) 0 }
{
    match element(tickets, tx) {
        Some(ticket) => *ticket,
        None => Ticket::new(0),
    }
}

/// The answers of the entry of a number; none where there is no such entry.
fn answers_at(journal: &[Entry], number: u64) -> &[Answer]
    ensures { result.now ≡ entry_answers (numbered journal.now number) }
{
    match element(journal, number) {
        Some(entry) => entry.answers.as_slice(),
        None => &[],
    }
}

/// The commits of members, in order, the first of which has this number.
fn commits(
    alloc: Global,
    source: GroupSource<'_>,
    first: u64,
    members: &Members,
) -> Result<Sequence<Commit>, AllocError>
    requires { first + length members.now < 2 ^ 64 }
    ensures { IfOk result (λ commits. commits
        ≡ map (commit_at source.entry.tickets.now source.entry.journal.now) (numbered_from first members.now)) }
{
    let mut commits = Sequence::new(alloc);
    let mut number = first;
    for tx in members.as_slice() {
        commits.push(Commit {
            ticket: ticket_of(source.tickets, *tx),
            number,
            answers: answers_copy(alloc, answers_at(source.journal, number))?,
        })?;
        number += 1;
    }
    Ok(commits)
}

/// The commits of the journal behind so many entries.
fn commits_behind(
    alloc: Global,
    source: GroupSource<'_>,
    told: usize,
) -> Result<Sequence<Commit>, AllocError>
    requires { told ≤ length source.journal.now }
    ensures { IfOk result (λ commits. commits
        ≡ commits_of source.entry.tickets.now (suc told) (drop told source.entry.journal.now)) }
{
    let mut commits = Sequence::new(alloc);
    for index in told..source.journal.len() {
        let entry = &source.journal[index];
        commits.push(Commit {
            ticket: ticket_of(source.tickets, entry.tx),
            number: index as u64 + 1,
            answers: answers_copy(alloc, entry.answers.as_slice())?,
        })?;
    }
    Ok(commits)
}

impl GroupSource<'_> {
    /// The group, with this number, of all that the journal has behind so many entries. `before` and `behind` have the
    /// tables as they stood behind those and as they stand, in the order of their declaration.
    pub(crate) fn group_of_rest(
        self,
        alloc: Global,
        number: u64,
        told: usize,
        before: &[Arc<Table>],
        behind: &[Arc<Table>],
    ) -> Result<Group, AllocError>
        requires distinct { IsDistinct same_name (table_names self.opening.now) }
        requires len { length before.now ≡ length self.opening.now.tables }
        requires len_behind { length behind.now ≡ length self.opening.now.tables }
        requires told { told ≤ length self.journal.now }
        ensures numbered { IfOk result (λ group. group.number ≡ number) }
        ensures epoch { IfOk result (λ group. group.epoch ≡ self.entry.epoch) }
        ensures ended { IfOk result (λ group. group.ended ≡ []) }
        ensures commits { IfOk result (λ group. group.commits
            ≡ commits_of self.entry.tickets.now (suc told) (drop told self.entry.journal.now)) }
        ensures changes { IfOk result (λ group. group.changes
            ≡ changes_between (table_names self.entry.opening.now) (database_in self.entry.opening.now before.now)
            (database_in self.entry.opening.now behind.now)) }
    {
        let commits = commits_behind(alloc, self, told)?;
        let changes = table_changes(alloc, self.opening, before, behind)?;
        Ok(Group {
            number,
            epoch: self.epoch,
            commits,
            changes,
            ended: Sequence::new(alloc),
        })
    }

    /// The group of a note, with this number. `before` has the tables as they stood behind the note before it, in the
    /// order of their declaration.
    pub(crate) fn group_of(
        self,
        alloc: Global,
        number: u64,
        before: &[Arc<Table>],
        note: &Note,
    ) -> Result<Group, AllocError>
        requires distinct { IsDistinct same_name (table_names self.opening.now) }
        requires len { length before.now ≡ length self.opening.now.tables }
        requires len_behind { length note.now.tables ≡ length self.opening.now.tables }
        ensures numbered { IfOk result (λ group. group.number ≡ number) }
        ensures epoch { IfOk result (λ group. group.epoch ≡ self.entry.epoch) }
        ensures told { IfOk result (λ group.
            IsGroupOf self.entry.tickets.now self.entry.opening.now self.entry.journal.now (rows_in before.now)
            note.now group) }
    {
        let (first, members) = note.entries();
        let commits = commits(alloc, self, first, members)?;
        let changes = table_changes(alloc, self.opening, before, note.tables())?;
        Ok(Group {
            number,
            epoch: self.epoch,
            commits,
            changes,
            ended: Sequence::new(alloc),
        })
    }

    /// The groups of some notes, in order, of which the first has this number. `before` has the tables as they stood
    /// before the first note, in the order of their declaration.
    pub(crate) fn groups_of<'b>(
        self,
        alloc: Global,
        number: u64,
        before: &'b [Arc<Table>],
        notes: &'b [Note],
    ) -> Result<Vec<Group>, AllocError>
        requires distinct { IsDistinct same_name (table_names self.opening.now) }
        requires len { length before.now ≡ length self.opening.now.tables }
        requires len_behind { All (λ note. length note.tables ≡ length self.opening.now.tables) notes.now }
        requires fits { number + length notes.now < 2 ^ 64 }
        ensures told { IfOk result (λ groups.
            AreGroupsOf self.entry.tickets.now self.entry.opening.now self.entry.journal.now (rows_in before.now)
            notes.now groups.items) }
        ensures numbered { IfOk result (λ groups. AreNumbered number groups.items (number + length notes.now)) }
        ensures epoch { IfOk result (λ groups. All (λ group. group.epoch ≡ self.entry.epoch) groups.items) }
    {
        let mut groups = Vec::with_capacity(alloc, notes.len())?;
        let mut tables = before;
        let mut next = number;
        for note in notes {
            let group = self.group_of(alloc, next, tables, note)?;
            groups.push(group)?;
            tables = note.tables();
            next += 1;
        }
        Ok(groups)
    }
}

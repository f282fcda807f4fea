//! Meetings one after the other, in blocks of as many scripts as a run has.
ghost use Rattle.std.specs.Prelude.{◌≡◌, ◌≤◌, ◌-◌, ◌%◌, length};
ghost use Rattle.ent_group.specs.declared.members.TheConstants.{MOST_MEMBERS};

use crate::meeting::Meeting;
use crate::sizes::Sizes;
use ent_group::MOST_MEMBERS;
use std::alloc::{AllocError, Global};

/// How a meeting goes on with the present block, the best first.
#[derive(Clone, Copy, Debug, PartialEq, Eq, PartialOrd, Ord)]
enum Aptness {
    /// It fits, and others fill what is left exactly.
    Fills,
    /// It fits.
    Fits,
    /// It crosses the end of the block.
    Crosses,
    /// It fits, and may meet another one that stands there.
    Meets,
    /// Both of the latter.
    MeetsAndCrosses,
}

impl Aptness {
    /// The same, where it may meet another one that stands there.
    fn barred(self) -> Self {
        match self {
            Aptness::Fills | Aptness::Fits | Aptness::Meets => Aptness::Meets,
            Aptness::Crosses | Aptness::MeetsAndCrosses => Aptness::MeetsAndCrosses,
        }
    }
}

/// Meetings that get their places one after the other.
#[derive(Drop)]
struct Blocks<'a> {
    meetings: &'a [Meeting],
    /// Whether each meeting has its place.
    placed: Vec<bool>,
    /// The meetings before this one have theirs.
    first: usize,
    /// The meetings that have scripts in the present block.
    block: Vec<&'a Meeting>,
    /// Of each meeting the latest block where one stands that it may meet, as far as that was asked.
    barred: Vec<Option<usize>>,
    /// The sizes of those that have no place yet.
    sizes: Sizes,
    /// The scripts that have a place, in order.
    scripts: Vec<usize>,
}

/// The scripts of meetings, one meeting after the other. The next meeting is always the first of those that go on best
/// with the present block.
pub(crate) fn in_blocks(alloc: Global, meetings: &[Meeting]) -> Result<Vec<usize>, AllocError> {
    let mut blocks = Blocks {
        meetings,
        placed: vec![in alloc; false; meetings.len()]?,
        first: 0,
        block: Vec::new(alloc),
        barred: vec![in alloc; None; meetings.len()]?,
        sizes: Sizes::of(alloc, meetings)?,
        scripts: Vec::with_capacity(alloc, meetings.len())?,
    };
    for _ in 0..meetings.len() {
        let next = blocks.next();
        if let Some(meeting) = meetings.get(next) {
            blocks.place(next, meeting)?;
        }
    }
    Ok(blocks.scripts)
}

impl<'a> Blocks<'a> {
    /// The number of the present block, from 0.
    fn number(&self) -> usize {
        self.scripts.len() / MOST_MEMBERS
    }

    /// How many scripts the present block has room for.
    fn room(&self) -> usize
        ensures value { result ≡ MOST_MEMBERS - length self.now.scripts.items % MOST_MEMBERS }
        ensures bound { result ≤ MOST_MEMBERS }
    {
        MOST_MEMBERS - self.scripts.len() % MOST_MEMBERS
    }

    /// The meeting that comes next.
    fn next(&mut self) -> usize {
        let filling = self.sizes.filling(self.room());
        let best = if filling.contains(&true) {
            Aptness::Fills
        } else {
            Aptness::Fits
        };
        let mut found = Aptness::MeetsAndCrosses;
        let mut next = self.first;
        for index in self.first..self.meetings.len() {
            let unbarred = self.aptness(index, &filling);
            if self.is_placed(index) || unbarred >= found {
                continue;
            }
            let aptness = if self.is_barred(index) {
                unbarred.barred()
            } else {
                unbarred
            };
            if aptness < found {
                found = aptness;
                next = index;
            }
            if found == best {
                break;
            }
        }
        next
    }

    /// How a meeting goes on with the present block by its size alone.
    fn aptness(&self, index: usize, filling: &[bool]) -> Aptness {
        let size = self.meetings.get(index).map_or(0, Meeting::len);
        if filling.get(size).copied().unwrap_or(false) {
            Aptness::Fills
        } else if size <= self.room() {
            Aptness::Fits
        } else {
            Aptness::Crosses
        }
    }

    fn is_placed(&self, index: usize) -> bool {
        self.placed.get(index).copied().unwrap_or(true)
    }

    /// Whether one stands in the present block that a meeting may meet.
    fn is_barred(&mut self, index: usize) -> bool {
        let number = self.number();
        if self.barred.get(index).copied().flatten() == Some(number) {
            return true;
        }
        let is_barred = self.may_meet_the_block(index);
        if is_barred {
            if let Some(barred) = self.barred.get_mut(index) {
                *barred = Some(number);
            }
        }
        is_barred
    }

    fn may_meet_the_block(&self, index: usize) -> bool {
        match self.meetings.get(index) {
            Some(meeting) => self.block.iter().any(|other| meeting.may_meet(other)),
            None => false,
        }
    }

    /// Puts a meeting behind all others.
    fn place(&mut self, index: usize, meeting: &'a Meeting) -> Result<(), AllocError> {
        let number = self.number();
        for member in meeting.members.as_slice() {
            self.scripts.push(member.script)?;
        }
        if self.number() != number {
            self.block.clear();
        }
        if self.room() < MOST_MEMBERS {
            self.block.push(meeting)?;
        }
        if let Some(placed) = self.placed.get_mut(index) {
            *placed = true;
        }
        self.sizes.take(meeting.len());
        self.pass_placed();
        Ok(())
    }

    /// Passes over the meetings in front that have their place.
    fn pass_placed(&mut self) {
        for index in self.first..self.meetings.len() {
            if !self.is_placed(index) {
                return;
            }
            self.first = index + 1;
        }
    }
}

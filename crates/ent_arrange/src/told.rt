//! What is told of an arrangement.
use crate::meeting::MeetingMember;
use crate::order::Arrangement;
use ent_excerpt::{Excerpt, Line, Place};
use ent_fault_text::Explanation;
use ent_meetings::Pattern;
use ent_tree::Script;
use ent_warnings::Postcondition;
use std::alloc::{AllocError, Global};
use std::{fmt, str};

/// How many lonely scripts are told at most.
const MOST_TOLD: usize = 20;

/// How many meetings there are, how many scripts the largest has and how many are lonely; of the first twenty lonely
/// ones a demand that nobody meets, and where it stands in the input. Printed it is lines, the first of which has the
/// numbers.
#[derive(Drop)]
pub struct ArrangementSummary<'a> {
    meetings: usize,
    largest: usize,
    lonely: usize,
    unmet: usize,
    demands: Vec<Explanation<'a>>,
}

impl<'a> ArrangementSummary<'a> {
    /// What is told of an arrangement of these scripts, which this text says.
    pub(crate) fn of(
        alloc: Global,
        text: &'a str,
        scripts: &[Script],
        arrangement: &Arrangement,
    ) -> Result<Self, AllocError> {
        let mut demands = Vec::new(alloc);
        for member in arrangement.lonely.iter().take(MOST_TOLD) {
            if let Some(script) = scripts.get(member.script) {
                if let Some(told) = explain(alloc, text, script, member, arrangement)? {
                    demands.push(told)?;
                }
            }
        }
        Ok(ArrangementSummary {
            meetings: arrangement.meetings,
            largest: arrangement.largest,
            lonely: arrangement.lonely.len(),
            unmet: arrangement.unmet.len(),
            demands,
        })
    }
}

impl fmt::Display for ArrangementSummary<'_> {
    fn fmt<W: fmt::Write>(&self, f: &mut fmt::Formatter<W>) -> fmt::Result {
        let meetings = self.meetings;
        let largest = self.largest;
        let lonely = self.lonely;
        write!(
            f,
            "meetings: {meetings}; scripts in the largest: {largest}; lonely scripts: {lonely}\n"
        )?;
        let unmet = self.unmet;
        if unmet > 0 {
            write!(f, "scripts of which no meeting of 64 was found: {unmet}\n")?;
        }
        for demand in self.demands.iter() {
            write!(f, "{demand}\n")?;
        }
        let more = lonely.saturating_sub(self.demands.len());
        if more > 0 {
            write!(f, "and {more} more\n")?;
        }
        Ok(())
    }
}

/// A demand of a lonely script that nobody meets, by its place among the script's demands.
#[derive(Clone, Copy, Debug)]
enum Lack {
    /// Nobody may offer it who is in no meeting.
    Unoffered(usize),
    /// Another one who may offer it is lonely too.
    InVain(usize),
}

impl Lack {
    /// The first demand of the former kind, else the first of the latter.
    fn of(member: &MeetingMember, arrangement: &Arrangement) -> Option<Self> {
        let lonely = arrangement.lonely.as_slice();
        let unmet = arrangement.unmet.as_slice();
        let demands = member.party.demands.as_slice();
        let unoffered = demands.iter().position(|demand| !may_offer(lonely, demand)
            && !may_offer(unmet, demand));
        match unoffered {
            Some(place) => Some(Lack::Unoffered(place)),
            None => demands
                .iter()
                .position(|demand| !may_offer(unmet, demand) && !member.party.offers(demand))
                .map(Lack::InVain),
        }
    }

    fn place(self) -> usize {
        match self {
            Lack::Unoffered(place) | Lack::InVain(place) => place,
        }
    }
}

/// Whether one of these may offer what is demanded.
fn may_offer(members: &[MeetingMember], demand: &Pattern) -> bool {
    members.iter().any(|member| member.party.offers(demand))
}

/// What is said of a lonely script.
fn explain<'a>(
    alloc: Global,
    text: &'a str,
    script: &Script,
    member: &MeetingMember,
    arrangement: &Arrangement,
) -> Result<Option<Explanation<'a>>, AllocError> {
    let Some(lack) = Lack::of(member, arrangement) else {
        return Ok(None);
    };
    let written = Postcondition::all_of(alloc, script)?;
    let Some(postcondition) = written.get(lack.place()) else {
        return Ok(None);
    };
    let number = member.script.saturating_add(1);
    let relation = str::from_utf8(postcondition.relation.name.as_bytes()).unwrap_or("");
    let sentence = match lack {
        Lack::Unoffered(_) => format!(in alloc;
            "script {number} is lonely: nobody is left who may offer this row of {relation}"
        )?,
        Lack::InVain(_) => format!(in alloc;
            "script {number} is lonely: who may offer this row of {relation} is lonely too"
        )?,
    };
    let offset = postcondition.tuple.place;
    Ok(Some(Explanation {
        place: Place::of(text, offset),
        sentence,
        excerpt: Excerpt::of(Line::of(text, offset), 1),
        hint: None,
    }))
}

//! Demands that nothing in an input is offered for, or only far away, or only by their own statement, answer relations
//! that nobody demands, and writers that a waiting statement keeps out.
use crate::apart::{Apart, Distant, Hopeless};
use crate::kept_out::KeptOut;
use crate::names::{Meant, Relations, meant_relation, meant_text, near_relation, text_of};
use crate::offer::{is_demanded, is_named, parties_of};
use crate::own::met_by_own;
use crate::postcondition::Postcondition;
use ent_excerpt::{Excerpt, Line, Place};
use ent_fault_text::Explanation;
use ent_group::MOST_MEMBERS;
use ent_meetings::{Party, Pattern, is_met};
use ent_sql::parse_input;
use ent_tree::{Create, Identifier, Input, Script};
use ent_value::Refusal;
use std::alloc::{AllocError, Global};
use std::fmt;

/// How many warnings are told at most.
const MOST_TOLD: usize = 20;

/// What is told of an input before its scripts run. Printed it is three lines or four for each of the first twenty
/// warnings, and a line of how many more there are, if there are; nothing where there is none.
#[derive(Drop)]
pub struct Warnings<'a> {
    text: &'a str,
    told: Vec<Explanation<'a>>,
    more: usize,
}

impl<'a> Warnings<'a> {
    /// Those of an input; none of a text that isn't one.
    pub fn of(alloc: Global, text: &'a str) -> Result<Self, AllocError> {
        let mut warnings = Warnings {
            text,
            told: Vec::new(alloc),
            more: 0,
        };
        match parse_input(alloc, text) {
            Ok(input) => warnings.warn(alloc, &input)?,
            Err(Refusal::Fault(_)) => {}
            Err(Refusal::Memory) => return Err(AllocError),
        }
        Ok(warnings)
    }

    fn warn(&mut self, alloc: Global, input: &Input) -> Result<(), AllocError> {
        let scripts = input.scripts.as_slice();
        let parties = parties_of(alloc, scripts)?;
        let parties = parties.as_slice();
        let relations = Relations::of(alloc, scripts)?;
        for relation in relations.demanded.iter() {
            if !is_named(parties, &relation.name) {
                self.warn_unoffered(alloc, relation, relations.offered.as_slice())?;
            }
        }
        for relation in relations.offered.iter() {
            if !is_demanded(parties, &relation.name) {
                self.warn_undemanded(alloc, relation, relations.demanded.as_slice())?;
            }
        }
        for (index, (script, party)) in scripts.iter().zip(parties.iter()).enumerate() {
            self.warn_demands(alloc, parties, script, party)?;
            for demand in met_by_own(alloc, script, parties, index)?.iter() {
                self.warn_own(alloc, demand)?;
            }
        }
        for create in input.opening.tables.as_slice() {
            self.warn_writer(alloc, scripts, create)?;
        }
        self.warn_distant(alloc, Distant::of(alloc, scripts, parties)?)
    }

    /// Nobody offers rows of a relation that is demanded.
    fn warn_unoffered(
        &mut self,
        alloc: Global,
        relation: &Identifier,
        offered: &[&Identifier],
    ) -> Result<(), AllocError> {
        let name = text_of(&relation.name);
        let sentence = format!(in alloc; "no statement offers rows of {name}")?;
        let near = near_relation(alloc, &relation.name, offered)?;
        self.push(alloc, relation.place, name.len(), sentence, near)
    }

    /// Nobody demands rows of a relation that is offered.
    fn warn_undemanded(
        &mut self,
        alloc: Global,
        relation: &Identifier,
        demanded: &[&Identifier],
    ) -> Result<(), AllocError> {
        let name = text_of(&relation.name);
        let sentence = format!(in alloc; "no statement demands rows of {name}")?;
        let near = near_relation(alloc, &relation.name, demanded)?;
        self.push(alloc, relation.place, name.len(), sentence, near)
    }

    /// The demands of a script for which nobody offers anything, though rows of their relations are offered.
    fn warn_demands(
        &mut self,
        alloc: Global,
        parties: &[Party],
        script: &Script,
        party: &Party,
    ) -> Result<(), AllocError> {
        let written = Postcondition::all_of(alloc, script)?;
        for (postcondition, demand) in written.iter().zip(party.demands.iter()) {
            if is_named(parties, &demand.relation) && !is_met(parties, demand) {
                self.warn_demand(alloc, parties, postcondition, demand)?;
            }
        }
        Ok(())
    }

    fn warn_demand(
        &mut self,
        alloc: Global,
        parties: &[Party],
        postcondition: &Postcondition<'_>,
        demand: &Pattern,
    ) -> Result<(), AllocError> {
        let name = text_of(&demand.relation);
        let tuple = postcondition.tuple;
        match meant_text(alloc, parties, tuple, &demand.relation)? {
            Some(Meant { written, near }) => {
                let sentence = format!(in alloc;
                    "no statement offers a row of {name} with this text"
                )?;
                let near = format!(in alloc; "'{near}'")?;
                self.push(alloc, written.place, 1, sentence, Some(near.as_str()))
            }
            None => {
                let sentence = format!(in alloc; "no statement offers this row of {name}")?;
                let near = meant_relation(alloc, parties, demand)?;
                let (place, marked) = match near {
                    Some(_) => (postcondition.relation.place, name.len()),
                    None => (tuple.place, 1),
                };
                self.push(alloc, place, marked, sentence, near)
            }
        }
    }

    /// A demand that only the row of its own statement may meet.
    fn warn_own(&mut self, alloc: Global, demand: &Postcondition<'_>) -> Result<(), AllocError> {
        let name = text_of(&demand.relation.name);
        let sentence = format!(in alloc;
            "only this statement itself may offer this row of {name}"
        )?;
        let hint = format!(in alloc; "if its own row fits, it needs no partner")?;
        self.push_hinted(demand.tuple.place, 1, sentence, Some(hint))
    }

    /// The first script that a waiting statement keeps from writing a table.
    fn warn_writer(
        &mut self,
        alloc: Global,
        scripts: &[Script],
        create: &Create,
    ) -> Result<(), AllocError> {
        let Some(KeptOut { table, writer }) = KeptOut::of(scripts, &create.name.name) else {
            return Ok(());
        };
        let name = text_of(&table.name);
        let sentence = format!(in alloc;
            "as long as this statement waits, script {writer} can't write {name}"
        )?;
        let hint = format!(in alloc;
            "let the writer come first, or let this script ask for few runs, as WITHIN 1 RUNS"
        )?;
        self.push_hinted(table.place, name.len(), sentence, Some(hint))
    }

    /// Demands that only scripts of other blocks may meet.
    fn warn_distant(&mut self, alloc: Global, distant: Distant<'_>) -> Result<(), AllocError> {
        if let Some(hopeless) = distant.hopeless {
            self.warn_hopeless(alloc, hopeless)?;
        }
        match distant.apart {
            Some(apart) => self.warn_apart(alloc, apart),
            None => Ok(()),
        }
    }

    /// A script that needs more others than a run has room for.
    fn warn_hopeless(&mut self, alloc: Global, hopeless: Hopeless<'_>) -> Result<(), AllocError> {
        let Hopeless { demand, script } = hopeless;
        let (most, others) = (MOST_MEMBERS, MOST_MEMBERS - 1);
        let sentence = format!(in alloc;
            "script {script} can't commit: it needs more than {others} others, and a run has {most} scripts at most"
        )?;
        self.push_hinted(demand.tuple.place, 1, sentence, None)
    }

    /// Demands that only scripts may meet that stand too far away.
    fn warn_apart(&mut self, alloc: Global, apart: Apart<'_>) -> Result<(), AllocError> {
        let Apart { first, count } = apart;
        let name = text_of(&first.relation.name);
        let sentence = format!(in alloc;
            "who may offer this row of {name} stands in another block of 64 of the scripts that wait for others"
        )?;
        let hint = format!(in alloc;
            "demands of which this is so: {count}; entangle arrange puts scripts that may meet together"
        )?;
        self.push_hinted(first.tuple.place, 1, sentence, Some(hint))
    }

    /// A warning of a place of the text, where so many columns are marked, and what may be meant.
    fn push(
        &mut self,
        alloc: Global,
        offset: usize,
        marked: usize,
        sentence: String,
        near: Option<&str>,
    ) -> Result<(), AllocError> {
        let hint = match near {
            Some(near) => Some(format!(in alloc; "did you mean {near}?")?),
            None => None,
        };
        self.push_hinted(offset, marked, sentence, hint)
    }

    fn push_hinted(
        &mut self,
        offset: usize,
        marked: usize,
        sentence: String,
        hint: Option<String>,
    ) -> Result<(), AllocError> {
        if self.told.len() >= MOST_TOLD {
            self.more = self.more.saturating_add(1);
            return Ok(());
        }
        self.told.push(Explanation {
            place: Place::of(self.text, offset),
            sentence,
            excerpt: Excerpt::of(Line::of(self.text, offset), marked),
            hint,
        })?;
        Ok(())
    }
}

impl fmt::Display for Warnings<'_> {
    fn fmt<W: fmt::Write>(&self, f: &mut fmt::Formatter<W>) -> fmt::Result {
        for warning in self.told.iter() {
            write!(f, "{warning}\n")?;
        }
        let more = self.more;
        if more > 0 {
            write!(f, "and {more} more\n")?;
        }
        Ok(())
    }
}

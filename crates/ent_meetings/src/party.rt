//! What a script offers and demands.
ghost use Rattle.std.specs.Prelude.{◌≡◌, ◌++◌, IfOk, OnOk, map};
ghost use Rattle.std.specs.List.{flat_map};
ghost use Rattle.ent_meetings.specs.Known.{known_term};
ghost use Rattle.ent_meetings.specs.Bindings.{known_of};

use crate::known::Known;
use crate::pattern::Pattern;
use ent_tree::{Condition, Entangled, EntangledItem, Identifier, Script, Statement, Term};
use ent_value::{Sequence, Value};
use std::alloc::{AllocError, Global};

/// What a script offers to the others, and what it demands of them, as far as its text knows it: the heads and the
/// postconditions of its entangled statements, in order of the text.
#[derive(Drop)]
pub struct Party {
    pub offers: Sequence<Pattern>,
    pub demands: Sequence<Pattern>,
}

/// The terms of a tuple, as far as they are known.
fn tuple_terms(
    alloc: Global,
    known: &Known<'_>,
    terms: &[Term],
) -> Result<Sequence<Option<Value>>, AllocError>
    ensures { IfOk result (λ values. values ≡ map (known_term (known_of known.now)) terms.now) }
{
    let mut values = Vec::with_capacity(alloc, terms.len())?;
    for term in terms {
        values.push(known.term_value(alloc, term)?)?;
    }
    Ok(Sequence::from_vec(values))
}

/// The terms of a select list, as far as they are known.
fn item_terms(
    alloc: Global,
    known: &Known<'_>,
    items: &[EntangledItem],
) -> Result<Sequence<Option<Value>>, AllocError>
    ensures { IfOk result (λ values. values ≡ map (λ item. known_term (known_of known.now) item.term) items.now) }
{
    let mut values = Vec::with_capacity(alloc, items.len())?;
    for item in items {
        values.push(known.term_value(alloc, &item.term)?)?;
    }
    Ok(Sequence::from_vec(values))
}

impl Party {
    ghost use Rattle.ent_meetings.specs.PartyMeeting.{offers};
    ghost use Rattle.ent_meetings.specs.Party.{condition_demands, party_of, view_demands, view_offers};

    /// What a script offers and demands. It takes memory for each known value.
    pub fn of(alloc: Global, script: &Script) -> Result<Self, AllocError>
        ensures { IfOk result (λ party. party ≡ party_of script.now) }
    {
        let mut known = Known::new(alloc);
        let mut party = Party {
            offers: Sequence::new(alloc),
            demands: Sequence::new(alloc),
        };
        for statement in script.statements.as_slice() {
            if let Statement::Entangled(asked) = statement {
                party.add_offers(alloc, &known, asked)?;
                party.add_demands(alloc, &known, asked)?;
            }
            known.pass(statement)?;
        }
        Ok(party)
    }

    /// The select list is offered in each relation that is named.
    fn add_offers(
        &mut self,
        alloc: Global,
        known: &Known<'_>,
        asked: &Entangled,
    ) -> Result<(), AllocError>
        ensures ok { OnOk result (self.new.offers
            ≡ self.old.offers ++ view_offers (record { known = known_of known.now; entangled = asked.now })) }
        ensures same { OnOk result (self.new.demands ≡ self.old.demands) }
    {
        for relation in asked.relations.as_slice() {
            let terms = item_terms(alloc, known, asked.items.as_slice())?;
            let relation = relation.name.copy(alloc)?;
            self.offers.push(Pattern { relation, terms })?;
        }
        Ok(())
    }

    /// Each postcondition is a demand.
    fn add_demands(
        &mut self,
        alloc: Global,
        known: &Known<'_>,
        asked: &Entangled,
    ) -> Result<(), AllocError>
        ensures ok { OnOk result (self.new.demands
            ≡ self.old.demands ++ view_demands (record { known = known_of known.now; entangled = asked.now })) }
        ensures same { OnOk result (self.new.offers ≡ self.old.offers) }
    {
        for condition in asked.conditions.as_slice() {
            if let Condition::InAnswer(tuple, relation) = condition {
                let terms = tuple_terms(alloc, known, tuple.terms.as_slice())?;
                let relation = relation.name.copy(alloc)?;
                self.demands.push(Pattern { relation, terms })?;
            }
        }
        Ok(())
    }

    /// Whether one of its offers may meet the demand.
    pub fn offers(&self, demand: &Pattern) -> bool
        ensures { result ≡ offers demand.now self.now }
    {
        self.offers.iter().any(|offer| demand.may_meet(offer))
    }
}

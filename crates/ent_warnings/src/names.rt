//! Answer relations and texts that may be meant.
use ent_fault_text::nearest;
use ent_meetings::{Party, Pattern, may_be_one};
use ent_tree::{
    Condition, Entangled, Identifier, Literal, Script, Statement, Term, Tuple, ValueSpecification,
};
use ent_value::{Name, Value};
use std::alloc::{AllocError, Global};
use std::str;

/// A name as text. Names are ASCII.
pub(crate) fn text_of(name: &Name) -> &str {
    str::from_utf8(name.as_bytes()).unwrap_or("")
}

/// The answer relations that are offered, and those that are demanded, each once, where it stands first.
#[derive(Drop)]
pub(crate) struct Relations<'a> {
    pub(crate) offered: Vec<&'a Identifier>,
    pub(crate) demanded: Vec<&'a Identifier>,
}

impl<'a> Relations<'a> {
    pub(crate) fn of(alloc: Global, scripts: &'a [Script]) -> Result<Self, AllocError> {
        let mut relations = Relations {
            offered: Vec::new(alloc),
            demanded: Vec::new(alloc),
        };
        for script in scripts {
            for statement in script.statements.as_slice() {
                if let Statement::Entangled(asked) = statement {
                    relations.add(asked)?;
                }
            }
        }
        Ok(relations)
    }

    fn add(&mut self, asked: &'a Entangled) -> Result<(), AllocError> {
        for relation in asked.relations.as_slice() {
            put(&mut self.offered, relation)?;
        }
        for condition in asked.conditions.as_slice() {
            if let Condition::InAnswer(_, relation) = condition {
                put(&mut self.demanded, relation)?;
            }
        }
        Ok(())
    }
}

/// Puts an identifier in, unless one of its name is there.
fn put<'a>(all: &mut Vec<&'a Identifier>, new: &'a Identifier) -> Result<(), AllocError> {
    if all.iter().any(|own| own.name == new.name) {
        return Ok(());
    }
    all.push(new)?;
    Ok(())
}

/// The name of one of some relations that is near.
pub(crate) fn near_relation<'a>(
    alloc: Global,
    name: &Name,
    others: &[&'a Identifier],
) -> Result<Option<&'a str>, AllocError> {
    let mut names = Vec::new(alloc);
    for other in others {
        names.push(text_of(&other.name))?;
    }
    nearest(alloc, text_of(name), names.as_slice())
}

/// The name of a relation that is near the demanded one, and of which a row is offered that fits but for the relation.
pub(crate) fn meant_relation<'a>(
    alloc: Global,
    parties: &'a [Party],
    demand: &Pattern,
) -> Result<Option<&'a str>, AllocError> {
    let mut names: Vec<&'a str> = Vec::new(alloc);
    for party in parties {
        for offer in party.offers.as_slice() {
            let name = text_of(&offer.relation);
            if fits_but_for_relation(demand, offer) && !names.contains(&name) {
                names.push(name)?;
            }
        }
    }
    nearest(alloc, text_of(&demand.relation), names.as_slice())
}

/// Whether an offer may be the demanded row, of whichever relation.
fn fits_but_for_relation(demand: &Pattern, offer: &Pattern) -> bool {
    let (demanded, offered) = (demand.terms.as_slice(), offer.terms.as_slice());
    demanded.len() == offered.len()
        && demanded
            .iter()
            .zip(offered.iter())
            .all(|(demanded, offered)| may_be_one(demanded, offered))
}

/// A text of a demand, and one that is near and offered in its place.
#[derive(Clone, Copy)]
pub(crate) struct Meant<'a> {
    pub(crate) written: &'a Literal,
    pub(crate) near: &'a str,
}

/// The first text that is written in a demanded tuple and for which one that is near is offered, in rows of the
/// relation.
pub(crate) fn meant_text<'a>(
    alloc: Global,
    parties: &'a [Party],
    tuple: &'a Tuple,
    relation: &Name,
) -> Result<Option<Meant<'a>>, AllocError> {
    for (column, term) in tuple.terms.as_slice().iter().enumerate() {
        let Some((written, text)) = written_text(term) else {
            continue;
        };
        let offered = offered_texts(alloc, parties, relation, column)?;
        if offered.iter().any(|other| *other == text) {
            continue;
        }
        if let Some(near) = nearest(alloc, text, offered.as_slice())? {
            return Ok(Some(Meant { written, near }));
        }
    }
    Ok(None)
}

/// The text that a term is, where it is written.
fn written_text(term: &Term) -> Option<(&Literal, &str)> {
    match term {
        Term::Value(ValueSpecification::Literal(literal)) => {
            Some((literal, text_in(&literal.value)?))
        }
        _ => None,
    }
}

/// The text that a value is, where it is one.
fn text_in(value: &Value) -> Option<&str> {
    match value {
        Value::Text(text) => str::from_utf8(text.as_bytes()).ok(),
        Value::Int(_) => None,
    }
}

/// The texts that are known in a column of what is offered of a relation.
fn offered_texts<'a>(
    alloc: Global,
    parties: &'a [Party],
    relation: &Name,
    column: usize,
) -> Result<Vec<&'a str>, AllocError> {
    let mut texts = Vec::new(alloc);
    for party in parties {
        for offer in party.offers.as_slice() {
            if offer.relation == *relation {
                if let Some(Some(value)) = offer.terms.get(column) {
                    if let Some(text) = text_in(value) {
                        texts.push(text)?;
                    }
                }
            }
        }
    }
    Ok(texts)
}

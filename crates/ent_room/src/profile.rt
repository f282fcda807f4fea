//! What the text of a script tells beside its patterns.
ghost use Rattle.std.specs.Prelude.{◌≡◌};
ghost use Rattle.ent_room.specs.Putting.{is_ordinary};

use ent_meetings::{Party, Pattern};
use ent_tree::{Condition, Create, Entangled, Script, Select, Statement, Term};
use ent_value::Name;
use std::alloc::{AllocError, Global};
use std::collections::BTreeSet;

/// Of a pattern: the entangled statement that it is of, counted from 0, and whether it is plain: each of its terms has
/// a known value or is a variable of the statement, and no variable stands twice.
#[derive(Clone, Copy)]
pub(crate) struct Form {
    pub(crate) statement: usize,
    pub(crate) is_plain: bool,
}

/// What the text of a script tells beside its patterns.
#[derive(Drop)]
pub(crate) struct Profile {
    /// Of each offer of the party.
    pub(crate) offers: Vec<Form>,
    /// Of each demand of the party.
    pub(crate) demands: Vec<Form>,
    /// How many entangled statements it has.
    pub(crate) statements: usize,
    /// The tables whose changes may let it be answered: those that an entangled statement reads, or that a statement
    /// before one writes. They are told by their places among those that are declared.
    pub(crate) tables: BTreeSet<usize>,
}

/// The place of a table among those that are declared.
pub(crate) fn number_of(declared: &[Create], name: &Name) -> Option<usize> {
    declared.iter().position(|create| create.name.name == *name)
}

/// Whether a script has no entangled statement.
pub(crate) fn is_ordinary(script: &Script) -> bool
    ensures { result ≡ is_ordinary script.now }
{
    script
        .statements
        .as_slice()
        .iter()
        .all(|statement| !matches!(statement, Statement::Entangled(_)))
}

/// Whether the variable at a place of terms stands there again behind it.
fn is_repeated(terms: &[&Term], place: usize) -> bool {
    let Some(Term::Variable(own)) = terms.get(place).copied() else {
        return false;
    };
    for later in place.saturating_add(1)..terms.len() {
        if let Some(Term::Variable(other)) = terms.get(later).copied() {
            if other.name == own.name {
                return true;
            }
        }
    }
    false
}

/// Whether each of the terms is known in the pattern or is a variable, and no variable stands twice.
fn is_plain(terms: &[&Term], pattern: Option<&Pattern>) -> bool {
    let Some(pattern) = pattern else {
        return false;
    };
    for place in 0..terms.len() {
        let is_variable = matches!(terms.get(place).copied(), Some(Term::Variable(_)));
        let is_known = matches!(pattern.terms.get(place), Some(Some(_)));
        if !(is_variable || is_known) || is_repeated(terms, place) {
            return false;
        }
    }
    true
}

impl Profile {
    /// What the text of a script tells, whose party this is.
    pub(crate) fn of(
        alloc: Global,
        declared: &[Create],
        script: &Script,
        party: &Party,
    ) -> Result<Self, AllocError> {
        let mut profile = Profile {
            offers: Vec::new(alloc),
            demands: Vec::new(alloc),
            statements: 0,
            tables: BTreeSet::new(alloc),
        };
        let mut written = BTreeSet::new(alloc);
        for statement in script.statements.as_slice() {
            if let Statement::Entangled(asked) = statement {
                profile.add(alloc, declared, asked, party)?;
                profile.tables.append(&mut written)?;
            } else if let Some(number) = written_by(declared, statement) {
                written.insert(number)?;
            }
        }
        Ok(profile)
    }

    /// Adds what an entangled statement tells.
    fn add(
        &mut self,
        alloc: Global,
        declared: &[Create],
        asked: &Entangled,
        party: &Party,
    ) -> Result<(), AllocError> {
        self.add_offers(alloc, asked, party)?;
        for condition in asked.conditions.as_slice() {
            match condition {
                Condition::InAnswer(tuple, _) => {
                    self.add_demand(alloc, tuple.terms.as_slice(), party)?;
                }
                Condition::InSelect(_, select) => self.add_sources(declared, select)?,
                Condition::Test(_) => {}
            }
        }
        self.statements = self.statements.saturating_add(1);
        Ok(())
    }

    /// The select list is offered in each relation that is named.
    fn add_offers(
        &mut self,
        alloc: Global,
        asked: &Entangled,
        party: &Party,
    ) -> Result<(), AllocError> {
        let mut terms = Vec::new(alloc);
        for item in asked.items.as_slice() {
            terms.push(&item.term)?;
        }
        for _relation in asked.relations.as_slice() {
            let pattern = party.offers.get(self.offers.len());
            self.offers.push(Form {
                statement: self.statements,
                is_plain: is_plain(terms.as_slice(), pattern),
            })?;
        }
        Ok(())
    }

    /// A postcondition is a demand.
    fn add_demand(
        &mut self,
        alloc: Global,
        tuple: &[Term],
        party: &Party,
    ) -> Result<(), AllocError> {
        let mut terms = Vec::new(alloc);
        for term in tuple {
            terms.push(term)?;
        }
        let pattern = party.demands.get(self.demands.len());
        self.demands.push(Form {
            statement: self.statements,
            is_plain: is_plain(terms.as_slice(), pattern),
        })?;
        Ok(())
    }

    /// Adds the tables from which a select reads.
    fn add_sources(&mut self, declared: &[Create], select: &Select) -> Result<(), AllocError> {
        for source in select.sources.as_slice() {
            if let Some(number) = number_of(declared, &source.table.name) {
                self.tables.insert(number)?;
            }
        }
        Ok(())
    }
}

/// The table that a statement writes.
fn written_by(declared: &[Create], statement: &Statement) -> Option<usize> {
    let name = match statement {
        Statement::Insert(insert) => &insert.table.name,
        Statement::Delete(delete) => &delete.table.name,
        Statement::Update(update) => &update.table.name,
        Statement::Select(_) | Statement::Entangled(_) | Statement::Set(_) => return None,
    };
    number_of(declared, name)
}

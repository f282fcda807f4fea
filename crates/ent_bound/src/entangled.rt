//! Entangled SELECT, and the SELECT that stands in it.
use crate::part::Part;
use crate::variable::BoundVariable;
use ent_tree::{Condition, Duplicate, Entangled, EntangledItem, Items, Select, Term, Tuple};
use ent_value::Name;
use std::alloc::{AllocError, Global};

impl Part for Items {
    ghost use Rattle.ent_bound.specs.Over.{items_over};
    ghost use Rattle.ent_bound.specs.Values.{items_values};

    ghost values = { items_values };

    ghost over = { items_over };

    fn uses(&self, name: &Name) -> bool {
        match self {
            Items::All => false,
            Items::Listed(listed) => listed.uses(name),
        }
    }

    fn bound(&self, alloc: Global, variables: &[BoundVariable]) -> Result<Self, AllocError> {
        match self {
            Items::All => Ok(Items::All),
            Items::Listed(listed) => Ok(Items::Listed(listed.bound(alloc, variables)?)),
        }
    }
}

impl Part for Select {
    ghost use Rattle.ent_bound.specs.Over.{select_over};
    ghost use Rattle.ent_bound.specs.Values.{select_values};

    ghost values = { select_values };

    ghost over = { select_over };

    fn uses(&self, name: &Name) -> bool {
        self.items.uses(name) || self.tests.uses(name)
    }

    fn bound(&self, alloc: Global, variables: &[BoundVariable]) -> Result<Self, AllocError> {
        Ok(Select {
            items: self.items.bound(alloc, variables)?,
            sources: self.sources.copy(alloc)?,
            tests: self.tests.bound(alloc, variables)?,
        })
    }
}

impl Part for Term {
    ghost use Rattle.ent_bound.specs.Over.{term_over};
    ghost use Rattle.ent_bound.specs.Values.{term_values};

    ghost values = { term_values };

    ghost over = { term_over };

    fn uses(&self, name: &Name) -> bool {
        match self {
            Term::Value(value) => value.uses(name),
            Term::Variable(_) => false,
        }
    }

    fn bound(&self, alloc: Global, variables: &[BoundVariable]) -> Result<Self, AllocError> {
        match self {
            Term::Value(value) => Ok(Term::Value(value.bound(alloc, variables)?)),
            Term::Variable(variable) => Ok(Term::Variable(variable.copy(alloc)?)),
        }
    }
}

impl Part for EntangledItem {
    ghost use Rattle.ent_bound.specs.Over.{item_over};
    ghost use Rattle.ent_bound.specs.Values.{item_values};

    ghost values = { item_values };

    ghost over = { item_over };

    fn uses(&self, name: &Name) -> bool {
        self.term.uses(name)
    }

    fn bound(&self, alloc: Global, variables: &[BoundVariable]) -> Result<Self, AllocError> {
        Ok(EntangledItem {
            term: self.term.bound(alloc, variables)?,
            binds: self.binds.copy(alloc)?,
        })
    }
}

impl Part for Tuple {
    ghost use Rattle.ent_bound.specs.Over.{tuple_over};
    ghost use Rattle.ent_bound.specs.Values.{tuple_values};

    ghost values = { tuple_values };

    ghost over = { tuple_over };

    fn uses(&self, name: &Name) -> bool {
        self.terms.uses(name)
    }

    fn bound(&self, alloc: Global, variables: &[BoundVariable]) -> Result<Self, AllocError> {
        Ok(Tuple {
            place: self.place,
            terms: self.terms.bound(alloc, variables)?,
        })
    }
}

impl Part for Condition {
    ghost use Rattle.ent_bound.specs.Over.{condition_over};
    ghost use Rattle.ent_bound.specs.Values.{condition_values};

    ghost values = { condition_values };

    ghost over = { condition_over };

    fn uses(&self, name: &Name) -> bool {
        match self {
            Condition::InSelect(tuple, select) => tuple.uses(name) || select.uses(name),
            Condition::InAnswer(tuple, _) => tuple.uses(name),
            Condition::Test(test) => test.uses(name),
        }
    }

    fn bound(&self, alloc: Global, variables: &[BoundVariable]) -> Result<Self, AllocError> {
        match self {
            Condition::InSelect(tuple, select) => Ok(Condition::InSelect(
                tuple.bound(alloc, variables)?,
                select.bound(alloc, variables)?,
            )),
            Condition::InAnswer(tuple, relation) => Ok(Condition::InAnswer(
                tuple.bound(alloc, variables)?,
                relation.copy(alloc)?,
            )),
            Condition::Test(test) => Ok(Condition::Test(test.bound(alloc, variables)?)),
        }
    }
}

impl Part for Entangled {
    ghost use Rattle.ent_bound.specs.Over.{entangled_over};
    ghost use Rattle.ent_bound.specs.Values.{entangled_values};

    ghost values = { entangled_values };

    ghost over = { entangled_over };

    fn uses(&self, name: &Name) -> bool {
        self.items.uses(name) || self.conditions.uses(name)
    }

    fn bound(&self, alloc: Global, variables: &[BoundVariable]) -> Result<Self, AllocError> {
        Ok(Entangled {
            items: self.items.bound(alloc, variables)?,
            place: self.place,
            relations: self.relations.copy(alloc)?,
            conditions: self.conditions.bound(alloc, variables)?,
        })
    }
}

//! Copies of the parts of a script without their places: each place is 0.
ghost use Rattle.std.specs.Prelude.{◌≡◌, IfOk, map};
ghost use Rattle.std.specs.Option.{option_map};
ghost use Rattle.ent_tree.specs.Places.{unplaced_identifier, unplaced_literal, unplaced_specification};
ghost use Rattle.ent_tree.specs.Places.{unplaced_column, unplaced_operand, unplaced_expression, unplaced_test};
ghost use Rattle.ent_tree.specs.Places.{unplaced_source, unplaced_items, unplaced_select, unplaced_term};
ghost use Rattle.ent_tree.specs.Places.{unplaced_item, unplaced_tuple, unplaced_condition, unplaced_entangled};
ghost use Rattle.ent_tree.specs.Places.{unplaced_insert, unplaced_delete, unplaced_assignment, unplaced_update};
ghost use Rattle.ent_tree.specs.Places.{unplaced_set, unplaced_statement, unplaced_script};

use ent_tree::{
    Assignment, Boxed, ColumnReference, Condition, Delete, Entangled, EntangledItem, Expression,
    Identifier, Insert, Items, Literal, Operand, Script, Select, Set, Source, Statement, Term,
    Test, Tuple, Update, ValueSpecification,
};
use ent_value::Limited;
use std::alloc::{AllocError, Global};

/// A part of a script, which has places.
pub(crate) trait Unplaced: Sized {
    ghost without_places: { Self → Self };

    /// A copy that says the same, with each place 0.
    fn unplaced(&self, alloc: Global) -> Result<Self, AllocError>
        ensures { IfOk result (λ copy. copy ≡ without_places self.now) };
}

impl<T: Unplaced + Drop, const LIMIT: usize> Unplaced for Limited<T, LIMIT> {
    ghost without_places = { map T.without_places };

    fn unplaced(&self, alloc: Global) -> Result<Self, AllocError> {
        // The limit of the elements is that of the copies.
        let mut copies = Limited::with_capacity(alloc, self.len())?;
        let elements = self.as_slice();
        for element in elements {
            copies.push(element.unplaced(alloc)?)?;
        }
        Ok(copies)
    }
}

impl<T: Unplaced> Unplaced for Option<T> {
    ghost without_places = { option_map T.without_places };

    fn unplaced(&self, alloc: Global) -> Result<Self, AllocError> {
        match self {
            None => Ok(None),
            Some(part) => Ok(Some(part.unplaced(alloc)?)),
        }
    }
}

impl<T: Unplaced + Drop> Unplaced for Boxed<T> {
    ghost without_places = { T.without_places };

    fn unplaced(&self, alloc: Global) -> Result<Self, AllocError> {
        Boxed::new(alloc, self.get().unplaced(alloc)?)
    }
}

impl Unplaced for Identifier {
    ghost without_places = { unplaced_identifier };

    fn unplaced(&self, alloc: Global) -> Result<Self, AllocError> {
        Ok(Identifier {
            name: self.name.copy(alloc)?,
            place: 0,
        })
    }
}

impl Unplaced for Literal {
    ghost without_places = { unplaced_literal };

    fn unplaced(&self, alloc: Global) -> Result<Self, AllocError> {
        Ok(Literal {
            value: self.value.copy(alloc)?,
            place: 0,
        })
    }
}

impl Unplaced for ValueSpecification {
    ghost without_places = { unplaced_specification };

    fn unplaced(&self, alloc: Global) -> Result<Self, AllocError> {
        match self {
            ValueSpecification::Literal(literal) => {
                Ok(ValueSpecification::Literal(literal.unplaced(alloc)?))
            }
            ValueSpecification::HostVariable(variable) => Ok(ValueSpecification::HostVariable(
                variable.unplaced(alloc)?,
            )),
        }
    }
}

impl Unplaced for ColumnReference {
    ghost without_places = { unplaced_column };

    fn unplaced(&self, alloc: Global) -> Result<Self, AllocError> {
        Ok(ColumnReference {
            qualifier: self.qualifier.unplaced(alloc)?,
            column: self.column.unplaced(alloc)?,
        })
    }
}

impl Unplaced for Operand {
    ghost without_places = { unplaced_operand };

    fn unplaced(&self, alloc: Global) -> Result<Self, AllocError> {
        match self {
            Operand::Value(value) => Ok(Operand::Value(value.unplaced(alloc)?)),
            Operand::Column(reference) => Ok(Operand::Column(reference.unplaced(alloc)?)),
        }
    }
}

impl<T: Unplaced + Drop> Unplaced for Expression<T> {
    ghost without_places = { unplaced_expression T.without_places };

    fn unplaced(&self, alloc: Global) -> Result<Self, AllocError> {
        match self {
            Expression::Single(term) => Ok(Expression::Single(term.unplaced(alloc)?)),
            Expression::Sum(left, right) => Ok(Expression::Sum(
                left.unplaced(alloc)?,
                right.unplaced(alloc)?,
            )),
            Expression::Difference(left, right) => Ok(Expression::Difference(
                left.unplaced(alloc)?,
                right.unplaced(alloc)?,
            )),
        }
    }
}

impl<T: Unplaced + Drop> Unplaced for Test<T> {
    ghost without_places = { unplaced_test T.without_places };

    fn unplaced(&self, alloc: Global) -> Result<Self, AllocError> {
        Ok(Test {
            left: self.left.unplaced(alloc)?,
            comparison: self.comparison,
            right: self.right.unplaced(alloc)?,
        })
    }
}

impl Unplaced for Source {
    ghost without_places = { unplaced_source };

    fn unplaced(&self, alloc: Global) -> Result<Self, AllocError> {
        Ok(Source {
            table: self.table.unplaced(alloc)?,
            alias: self.alias.unplaced(alloc)?,
        })
    }
}

impl Unplaced for Items {
    ghost without_places = { unplaced_items };

    fn unplaced(&self, alloc: Global) -> Result<Self, AllocError> {
        match self {
            Items::All => Ok(Items::All),
            Items::Listed(listed) => Ok(Items::Listed(listed.unplaced(alloc)?)),
        }
    }
}

impl Unplaced for Select {
    ghost without_places = { unplaced_select };

    fn unplaced(&self, alloc: Global) -> Result<Self, AllocError> {
        Ok(Select {
            items: self.items.unplaced(alloc)?,
            sources: self.sources.unplaced(alloc)?,
            tests: self.tests.unplaced(alloc)?,
        })
    }
}

impl Unplaced for Term {
    ghost without_places = { unplaced_term };

    fn unplaced(&self, alloc: Global) -> Result<Self, AllocError> {
        match self {
            Term::Value(value) => Ok(Term::Value(value.unplaced(alloc)?)),
            Term::Variable(variable) => Ok(Term::Variable(variable.unplaced(alloc)?)),
        }
    }
}

impl Unplaced for EntangledItem {
    ghost without_places = { unplaced_item };

    fn unplaced(&self, alloc: Global) -> Result<Self, AllocError> {
        Ok(EntangledItem {
            term: self.term.unplaced(alloc)?,
            binds: self.binds.unplaced(alloc)?,
        })
    }
}

impl Unplaced for Tuple {
    ghost without_places = { unplaced_tuple };

    fn unplaced(&self, alloc: Global) -> Result<Self, AllocError> {
        Ok(Tuple {
            place: 0,
            terms: self.terms.unplaced(alloc)?,
        })
    }
}

impl Unplaced for Condition {
    ghost without_places = { unplaced_condition };

    fn unplaced(&self, alloc: Global) -> Result<Self, AllocError> {
        match self {
            Condition::InSelect(tuple, select) => Ok(Condition::InSelect(
                tuple.unplaced(alloc)?,
                select.unplaced(alloc)?,
            )),
            Condition::InAnswer(tuple, relation) => Ok(Condition::InAnswer(
                tuple.unplaced(alloc)?,
                relation.unplaced(alloc)?,
            )),
            Condition::Test(test) => Ok(Condition::Test(test.unplaced(alloc)?)),
        }
    }
}

impl Unplaced for Entangled {
    ghost without_places = { unplaced_entangled };

    fn unplaced(&self, alloc: Global) -> Result<Self, AllocError> {
        Ok(Entangled {
            items: self.items.unplaced(alloc)?,
            place: 0,
            relations: self.relations.unplaced(alloc)?,
            conditions: self.conditions.unplaced(alloc)?,
        })
    }
}

impl Unplaced for Insert {
    ghost without_places = { unplaced_insert };

    fn unplaced(&self, alloc: Global) -> Result<Self, AllocError> {
        Ok(Insert {
            table: self.table.unplaced(alloc)?,
            place: 0,
            values: self.values.unplaced(alloc)?,
        })
    }
}

impl Unplaced for Delete {
    ghost without_places = { unplaced_delete };

    fn unplaced(&self, alloc: Global) -> Result<Self, AllocError> {
        Ok(Delete {
            table: self.table.unplaced(alloc)?,
            tests: self.tests.unplaced(alloc)?,
        })
    }
}

impl Unplaced for Assignment {
    ghost without_places = { unplaced_assignment };

    fn unplaced(&self, alloc: Global) -> Result<Self, AllocError> {
        Ok(Assignment {
            column: self.column.unplaced(alloc)?,
            expression: self.expression.unplaced(alloc)?,
        })
    }
}

impl Unplaced for Update {
    ghost without_places = { unplaced_update };

    fn unplaced(&self, alloc: Global) -> Result<Self, AllocError> {
        Ok(Update {
            table: self.table.unplaced(alloc)?,
            assignments: self.assignments.unplaced(alloc)?,
            tests: self.tests.unplaced(alloc)?,
        })
    }
}

impl Unplaced for Set {
    ghost without_places = { unplaced_set };

    fn unplaced(&self, alloc: Global) -> Result<Self, AllocError> {
        Ok(Set {
            variable: self.variable.unplaced(alloc)?,
            expression: self.expression.unplaced(alloc)?,
        })
    }
}

impl Unplaced for Statement {
    ghost without_places = { unplaced_statement };

    fn unplaced(&self, alloc: Global) -> Result<Self, AllocError> {
        match self {
            Statement::Select(select) => Ok(Statement::Select(select.unplaced(alloc)?)),
            Statement::Entangled(entangled) => {
                Ok(Statement::Entangled(entangled.unplaced(alloc)?))
            }
            Statement::Insert(insert) => Ok(Statement::Insert(insert.unplaced(alloc)?)),
            Statement::Delete(delete) => Ok(Statement::Delete(delete.unplaced(alloc)?)),
            Statement::Update(update) => Ok(Statement::Update(update.unplaced(alloc)?)),
            Statement::Set(set) => Ok(Statement::Set(set.unplaced(alloc)?)),
        }
    }
}

impl Unplaced for Script {
    ghost without_places = { unplaced_script };

    fn unplaced(&self, alloc: Global) -> Result<Self, AllocError> {
        Ok(Script {
            within: self.within,
            statements: self.statements.unplaced(alloc)?,
            end: self.end,
        })
    }
}

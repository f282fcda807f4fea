//! Equality.
ghost use Rattle.std.specs.Prelude.{◌≡◌, ◌↔◌, IsTrue};
ghost use Rattle.ent_semantics.specs.declared.statement.Statement.TheVariants as statements;

use crate::entangled::{Atom, Binding, Entangled, Membership, Term};
use crate::operand::{Known, Operand};
use crate::statement::{Select, Statement};
use ent_tree::{Expression, MOST_PARTS, Same, Test};
use ent_value::{Limited, Name, Sequence};

impl Same for Known {
    fn is_same(&self, other: &Known) -> bool {
        match self {
            Known::Constant(mine) => match other {
                Known::Constant(theirs) => mine.is_same(theirs),
                _ => false,
            },
            Known::HostVariable(mine) => match other {
                Known::HostVariable(theirs) => mine.is_same(theirs),
                _ => false,
            },
        }
    }
}

impl<K: Same> Same for Operand<K> {
    fn is_same(&self, other: &Operand<K>) -> bool {
        match self {
            Operand::Known(mine) => match other {
                Operand::Known(theirs) => mine.is_same(theirs),
                _ => false,
            },
            Operand::Column(mine) => match other {
                Operand::Column(theirs) => mine == theirs,
                _ => false,
            },
        }
    }
}

impl<K: Same> Same for Term<K> {
    fn is_same(&self, other: &Term<K>) -> bool {
        match self {
            Term::Known(mine) => match other {
                Term::Known(theirs) => mine.is_same(theirs),
                _ => false,
            },
            Term::Variable(mine) => match other {
                Term::Variable(theirs) => mine == theirs,
                _ => false,
            },
        }
    }
}

impl<K: Same> Same for Atom<K> {
    fn is_same(&self, other: &Atom<K>) -> bool {
        self.relation.is_same(&other.relation) && self.terms.is_same(&other.terms)
    }
}

impl<K: Same> Same for Select<K> {
    fn is_same(&self, other: &Select<K>) -> bool {
        self.sources.is_same(&other.sources)
            && self.items.is_same(&other.items)
            && self.tests.is_same(&other.tests)
    }
}

impl<K: Same> Same for Membership<K> {
    fn is_same(&self, other: &Membership<K>) -> bool {
        self.terms.is_same(&other.terms) && self.select.is_same(&other.select)
    }
}

impl<K: Same> Same for Binding<K> {
    fn is_same(&self, other: &Binding<K>) -> bool {
        self.variable.is_same(&other.variable) && self.term.is_same(&other.term)
    }
}

impl<K: Same> Same for Entangled<K> {
    fn is_same(&self, other: &Entangled<K>) -> bool {
        self.variables.is_same(&other.variables)
            && self.posts.is_same(&other.posts)
            && self.heads.is_same(&other.heads)
            && self.atoms.is_same(&other.atoms)
            && self.tests.is_same(&other.tests)
            && self.binds.is_same(&other.binds)
    }
}

/// Whether a statement is the INSERT of these values into the table of this number.
fn is_insert<K: Same>(
    statement: &Statement<K>,
    table: usize,
    values: &Limited<K, MOST_PARTS>,
) -> bool
    ensures { IsTrue result ↔ (statements.Insert table values.now ≡ statement.now) }
{
    match statement {
        Statement::Insert {
            table: number,
            values: theirs,
        } => table == *number && values.is_same(theirs),
        _ => false,
    }
}

/// Whether a statement is the DELETE under these tests from the table of this number.
fn is_delete<K: Same>(
    statement: &Statement<K>,
    table: usize,
    tests: &Limited<Test<Operand<K>>, MOST_PARTS>,
) -> bool
    ensures { IsTrue result ↔ (statements.Delete table tests.now ≡ statement.now) }
{
    match statement {
        Statement::Delete {
            table: number,
            tests: theirs,
        } => table == *number && tests.is_same(theirs),
        _ => false,
    }
}

/// Whether a statement is the UPDATE to this image, under these tests, of the table of this number.
fn is_update<K: Same>(
    statement: &Statement<K>,
    table: usize,
    image: &Sequence<Expression<Operand<K>>>,
    tests: &Limited<Test<Operand<K>>, MOST_PARTS>,
) -> bool
    ensures { IsTrue result ↔ (statements.Update table image.now tests.now ≡ statement.now) }
{
    match statement {
        Statement::Update {
            table: number,
            image: images,
            tests: theirs,
        } => table == *number && image.is_same(images) && tests.is_same(theirs),
        _ => false,
    }
}

/// Whether a statement is the SET of this variable to this expression.
fn is_set<K: Same>(statement: &Statement<K>, variable: &Name, expression: &Expression<K>) -> bool
    ensures { IsTrue result ↔ (statements.Set variable.now expression.now ≡ statement.now) }
{
    match statement {
        Statement::Set {
            variable: name,
            expression: theirs,
        } => variable.is_same(name) && expression.is_same(theirs),
        _ => false,
    }
}

impl<K: Same> Same for Statement<K> {
    fn is_same(&self, other: &Statement<K>) -> bool {
        match self {
            Statement::Select(mine) => match other {
                Statement::Select(theirs) => mine.is_same(theirs),
                _ => false,
            },
            Statement::Entangled(mine) => match other {
                Statement::Entangled(theirs) => mine.is_same(theirs),
                _ => false,
            },
            Statement::Insert { table, values } => is_insert(other, *table, values),
            Statement::Delete { table, tests } => is_delete(other, *table, tests),
            Statement::Update {
                table,
                image,
                tests,
            } => is_update(other, *table, image, tests),
            Statement::Set {
                variable,
                expression,
            } => is_set(other, variable, expression),
        }
    }
}

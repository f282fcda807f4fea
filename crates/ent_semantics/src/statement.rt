//! Statements over tables by their number.
ghost use Rattle.std.specs.Prelude.{◌≡◌, option_to_list};
ghost use Rattle.ent_semantics.specs.FormKinds.{changed_tables};

use crate::entangled::Entangled;
use crate::operand::Operand;
use ent_tree::{Expression, MOST_PARTS, MOST_SOURCES, Test};
use ent_value::{Limited, Name, Sequence};

/// The items of the combinations of the sources' rows that meet every test.
pub struct Select<K> {
    /// The tables, by number.
    pub sources: Limited<usize, MOST_SOURCES>,
    pub items: Sequence<Operand<K>>,
    pub tests: Limited<Test<Operand<K>>, MOST_PARTS>,
}

impl<K: Drop> Drop for Select<K> {
    fn drop(self) {
        let Select {
            sources: _sources,
            items: _items,
            tests: _tests,
        } = self;
    }
}

/// A statement over tables by their number, counted from 0 in the order of declaration.
#[derive(Drop)]
pub enum Statement<K> {
    Select(Select<K>),
    Entangled(Entangled<K>),
    Insert {
        table: usize,
        values: Limited<K, MOST_PARTS>,
    },
    Delete {
        table: usize,
        tests: Limited<Test<Operand<K>>, MOST_PARTS>,
    },
    /// An image is an expression for each column, in order; a column that isn't assigned is its own.
    Update {
        table: usize,
        image: Sequence<Expression<Operand<K>>>,
        tests: Limited<Test<Operand<K>>, MOST_PARTS>,
    },
    Set {
        variable: Name,
        expression: Expression<K>,
    },
}

impl<K> Statement<K> {
    /// The number of the table that the statement changes; none for a statement that changes no table.
    pub fn changed_table(&self) -> Option<usize>
        ensures { option_to_list result ≡ changed_tables self.now }
    {
        match self {
            Statement::Insert { table, .. }
            | Statement::Delete { table, .. }
            | Statement::Update { table, .. } => Some(*table),
            Statement::Select(_) | Statement::Entangled(_) | Statement::Set { .. } => None,
        }
    }
}

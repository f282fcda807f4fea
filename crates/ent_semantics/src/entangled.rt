//! Entangled statements: posts, heads and body.
use crate::statement::Select;
use ent_tree::{MOST_PARTS, Test};
use ent_value::{Kind, Limited, Name, Sequence};

/// A value that is known, or the written variable of this number, counted from 0 in the order of first appearance.
pub enum Term<K> {
    Known(K),
    Variable(usize),
}

impl<K: Drop> Drop for Term<K> {
    fn drop(self) {
        match self {
            Term::Known(_known) => {}
            Term::Variable(_variable) => {}
        }
    }
}

/// Terms under an answer relation.
pub struct Atom<K> {
    pub relation: Name,
    pub terms: Limited<Term<K>, MOST_PARTS>,
}

impl<K: Drop> Drop for Atom<K> {
    fn drop(self) {
        let Atom {
            relation: _relation,
            terms: _terms,
        } = self;
    }
}

/// Terms that are to be a row of a SELECT's result.
pub struct Membership<K> {
    pub terms: Limited<Term<K>, MOST_PARTS>,
    pub select: Select<K>,
}

impl<K: Drop> Drop for Membership<K> {
    fn drop(self) {
        let Membership {
            terms: _terms,
            select: _select,
        } = self;
    }
}

/// A host variable that is bound to a term's value after the answer.
pub struct Binding<K> {
    pub variable: Name,
    pub term: Term<K>,
}

impl<K: Drop> Drop for Binding<K> {
    fn drop(self) {
        let Binding {
            variable: _variable,
            term: _term,
        } = self;
    }
}

/// An entangled statement: what it demands of answer relations, what it offers to them, and the body, which holds
/// where each membership and each test does.
pub struct Entangled<K> {
    /// The kind of each written variable, in the order of their first appearance.
    pub variables: Sequence<Kind>,
    pub posts: Limited<Atom<K>, MOST_PARTS>,
    /// One for each answer relation, all of the same terms.
    pub heads: Limited<Atom<K>, MOST_PARTS>,
    pub atoms: Limited<Membership<K>, MOST_PARTS>,
    pub tests: Limited<Test<Term<K>>, MOST_PARTS>,
    pub binds: Limited<Binding<K>, MOST_PARTS>,
}

impl<K: Drop> Drop for Entangled<K> {
    fn drop(self) {
        let Entangled {
            variables: _variables,
            posts: _posts,
            heads: _heads,
            atoms: _atoms,
            tests: _tests,
            binds: _binds,
        } = self;
    }
}

//! Resolved scripts and statements, for `== forms`.
use crate::show::{Show, put_list};
use crate::trees::{put_end, put_tests, put_where};
use ent_form::Plain;
use ent_scenario_files::replies::{Out, put, put_kind, put_number, put_shown};
use ent_semantics::{
    Atom, Binding, Entangled, Known, Membership, Operand, Select, Statement, Term,
};
use ent_tree::Script;
use ent_value::{Kind, Name};
use std::alloc::Global;

impl Show for Known {
    fn show(&self, alloc: Global, out: &mut Out) {
        match self {
            Known::Constant(value) => value.show(alloc, out),
            Known::HostVariable(name) => {
                put(out, ":");
                name.show(alloc, out)
            }
        }
    }
}

impl<K: Show> Show for Operand<K> {
    fn show(&self, alloc: Global, out: &mut Out) {
        match self {
            Operand::Known(known) => known.show(alloc, out),
            Operand::Column(number) => {
                put(out, "#");
                put_number(out, *number)
            }
        }
    }
}

impl<K: Show> Show for Term<K> {
    fn show(&self, alloc: Global, out: &mut Out) {
        match self {
            Term::Known(known) => known.show(alloc, out),
            Term::Variable(number) => {
                put(out, "?");
                put_number(out, *number)
            }
        }
    }
}

impl Show for usize {
    fn show(&self, _alloc: Global, out: &mut Out) {
        put_number(out, *self);
    }
}

impl Show for Kind {
    fn show(&self, _alloc: Global, out: &mut Out) {
        put_kind(out, *self);
    }
}

fn put_terms<K: Show>(alloc: Global, out: &mut Out, terms: &[Term<K>]) {
    put(out, "(");
    put_list(alloc, out, terms, ", ");
    put(out, ")");
}

impl<K: Show> Show for Atom<K> {
    fn show(&self, alloc: Global, out: &mut Out) {
        self.relation.show(alloc, out);
        put_terms(alloc, out, self.terms.as_slice());
    }
}

impl<K: Show> Show for Select<K> {
    fn show(&self, alloc: Global, out: &mut Out) {
        put_list(alloc, out, self.items.as_slice(), ", ");
        put(out, " from ");
        put_list(alloc, out, self.sources.as_slice(), ", ");
        put_where(alloc, out, self.tests.as_slice());
    }
}

impl<K: Show> Show for Membership<K> {
    fn show(&self, alloc: Global, out: &mut Out) {
        put_terms(alloc, out, self.terms.as_slice());
        put(out, " in (");
        self.select.show(alloc, out);
        put(out, ")");
    }
}

impl<K: Show> Show for Binding<K> {
    fn show(&self, alloc: Global, out: &mut Out) {
        put(out, ":");
        self.variable.show(alloc, out);
        put(out, " = ");
        self.term.show(alloc, out);
    }
}

/// Some parts of an entangled statement behind their word, where there are any.
fn put_parts<T: Show>(alloc: Global, out: &mut Out, word: &str, parts: &[T]) {
    if parts.is_empty() {
        return;
    }
    put(out, word);
    put_list(alloc, out, parts, ", ");
}

impl<K: Show> Show for Entangled<K> {
    fn show(&self, alloc: Global, out: &mut Out) {
        put(out, "entangled");
        put_parts(alloc, out, " over ", self.variables.as_slice());
        put_parts(alloc, out, " posts ", self.posts.as_slice());
        put_parts(alloc, out, " heads ", self.heads.as_slice());
        put_parts(alloc, out, " atoms ", self.atoms.as_slice());
        put_parts(alloc, out, " tests ", self.tests.as_slice());
        put_parts(alloc, out, " binds ", self.binds.as_slice());
    }
}

/// The word of a statement, and the number of its table.
fn put_table(out: &mut Out, word: &str, table: usize) {
    put(out, word);
    put_number(out, table);
    put(out, " ");
}

/// A statement behind its word and the number of its table: a list of its parts, and its tests where it has some.
fn put_change<T: Show>(alloc: Global, out: &mut Out, word: &str, table: usize, parts: &[T]) {
    put_table(out, word, table);
    put_list(alloc, out, parts, ", ");
}

/// A statement that has nothing behind it.
fn put_ended<T: Show>(alloc: Global, out: &mut Out, word: &str, part: &T) {
    put(out, word);
    part.show(alloc, out);
    put(out, ";");
}

fn put_set<T: Show>(alloc: Global, out: &mut Out, variable: &Name, part: &T) {
    put(out, " set :");
    variable.show(alloc, out);
    put_ended(alloc, out, " = ", part);
}

fn put_delete<T: Show>(alloc: Global, out: &mut Out, table: usize, tests: &[T]) {
    put(out, " delete ");
    put_number(out, table);
    put_tests(alloc, out, tests);
}

impl<K: Show> Show for Statement<K> {
    fn show(&self, alloc: Global, out: &mut Out) {
        match self {
            Statement::Select(select) => put_ended(alloc, out, " select ", select),
            Statement::Entangled(entangled) => put_ended(alloc, out, " ", entangled),
            Statement::Insert { table, values } => {
                put_change(alloc, out, " insert ", *table, values.as_slice());
                put(out, ";")
            }
            Statement::Delete { table, tests } => put_delete(alloc, out, *table, tests.as_slice()),
            Statement::Update {
                table,
                image,
                tests,
            } => {
                put_change(alloc, out, " update ", *table, image.as_slice());
                put_tests(alloc, out, tests.as_slice())
            }
            Statement::Set {
                variable,
                expression,
            } => put_set(alloc, out, variable, expression),
        }
    }
}

/// A resolved script, behind the number of runs that the written one asks for.
pub(crate) fn put_script(alloc: Global, out: &mut Out, script: &Script, plain: &Plain) {
    put(out, " begin within ");
    put_shown(out, &script.within.get());
    put(out, ";");
    for statement in plain.statements.as_slice() {
        statement.show(alloc, out);
    }
    put_end(out, plain.end);
}

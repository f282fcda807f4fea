//! The trees of entangled statements, for `== trees`.
use crate::show::{Show, put_list};
use crate::trees::{put_place, put_where};
use ent_scenario_files::replies::{Out, put};
use ent_tree::{Condition, Entangled, EntangledItem, Term, Tuple};
use std::alloc::Global;

impl Show for Term {
    fn show(&self, alloc: Global, out: &mut Out) {
        match self {
            Term::Value(value) => value.show(alloc, out),
            Term::Variable(variable) => variable.show(alloc, out),
        }
    }
}

impl Show for EntangledItem {
    fn show(&self, alloc: Global, out: &mut Out) {
        self.term.show(alloc, out);
        if let Some(variable) = &self.binds {
            put(out, " as :");
            variable.show(alloc, out);
        }
    }
}

impl Show for Tuple {
    fn show(&self, alloc: Global, out: &mut Out) {
        put(out, "(");
        put_place(out, self.place);
        put(out, " ");
        put_list(alloc, out, self.terms.as_slice(), ", ");
        put(out, ")");
    }
}

impl Show for Condition {
    fn show(&self, alloc: Global, out: &mut Out) {
        match self {
            Condition::InSelect(tuple, select) => {
                tuple.show(alloc, out);
                put(out, " in (");
                select.show(alloc, out);
                put(out, ")")
            }
            Condition::InAnswer(tuple, relation) => {
                tuple.show(alloc, out);
                put(out, " in answer ");
                relation.show(alloc, out)
            }
            Condition::Test(test) => test.show(alloc, out),
        }
    }
}

impl Show for Entangled {
    fn show(&self, alloc: Global, out: &mut Out) {
        put(out, "select ");
        put_list(alloc, out, self.items.as_slice(), ", ");
        put(out, " into");
        put_place(out, self.place);
        put(out, " answer ");
        put_list(alloc, out, self.relations.as_slice(), ", ");
        put_where(alloc, out, self.conditions.as_slice());
    }
}

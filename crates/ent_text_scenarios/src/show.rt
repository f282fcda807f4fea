//! What can stand in a reply.
use ent_scenario_files::replies::{Out, put, put_row, put_shown, put_value};
use ent_value::{Name, Row, Value};
use std::alloc::Global;

/// What can stand in a reply.
pub(crate) trait Show {
    fn show(&self, alloc: Global, out: &mut Out);
}

impl Show for Value {
    fn show(&self, alloc: Global, out: &mut Out) {
        put_value(alloc, out, self);
    }
}

impl Show for Row {
    fn show(&self, alloc: Global, out: &mut Out) {
        put_row(alloc, out, self);
    }
}

impl Show for Name {
    fn show(&self, _alloc: Global, out: &mut Out) {
        out.put_bytes(self.as_bytes());
    }
}

impl Show for u64 {
    fn show(&self, _alloc: Global, out: &mut Out) {
        put_shown(out, self);
    }
}

impl<T: Show> Show for &T {
    fn show(&self, alloc: Global, out: &mut Out) {
        (**self).show(alloc, out);
    }
}

/// Puts things at the end, divided by a text.
pub(crate) fn put_list<T: Show>(alloc: Global, out: &mut Out, things: &[T], divider: &str) {
    let mut before = "";
    for thing in things {
        put(out, before);
        thing.show(alloc, out);
        before = divider;
    }
}

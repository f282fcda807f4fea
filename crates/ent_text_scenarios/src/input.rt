//! The input that a text is.
use ent_sql::parse_input;
use ent_tree::Input;
use std::alloc::Global;

/// The input that a text is, where it is one.
pub(crate) fn input_of(alloc: Global, text: &str) -> Option<Input> {
    parse_input(alloc, text).ok()
}

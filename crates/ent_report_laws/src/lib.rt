//! Laws of the form of a report: what its text is, what is known of the history that it tells, and that the order of an
//! opening makes no difference.
//!
//! Scripts that resolve change declared tables only, and opening rows stand in declared ones. A report of version 2
//! shows the tables of an opening by name, and the rows of each ascending, each once. So laws say what such an opening
//! means, and any other that has the same table and the same rows under each name; and which openings a report can
//! show. The functions here have no body: their contracts are laws of the definitions.
#![tactic(auto)]

mod declared_tables;
mod law;
mod opening_law;
mod read;

pub use declared_tables::resolved_scripts_keep_to_declared_tables;
pub use law::{
    reports_of_tellable_books_are_told, tellable_histories_are_told, told_histories_are_formed,
    told_histories_can_be_told, told_joints_can_be_told, told_openings_can_be_told,
    told_scripts_can_be_told, told_tables_can_be_told, told_texts_are_texts_of_histories,
};
pub use opening_law::{
    books_over_told_openings_are_legal, openings_alike_keep_books_legal,
    scripts_have_the_same_faults, statements_mean_the_same, told_openings_are_alike,
    told_openings_are_faultless,
};
pub use read::read_openings_can_be_told;

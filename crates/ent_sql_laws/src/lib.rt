//! Laws of reading: what the grammar spells, and what a printed script is read as.
//!
//! Each production of the grammar of entangled SQL spells a phrase in words of the language. And a script that is
//! printed is read again as that script, alone or behind an opening. Each law is the contract of a public function.
//!
//! Laws of scripts in which values are bound: which host variables they use, that they mean what the scripts mean where
//! these host variables have these values, and that a text can spell them. Each law is the contract of a public
//! function.
#![tactic(auto)]

mod bound_law;
mod round_trip;
mod spelling;

pub use bound_law::{
    bound_scripts_can_be_spelled, bound_scripts_mean_the_same, bound_variables_are_used_no_more,
    nothing_bound_changes_nothing,
};
pub use round_trip::{
    printed_script_is_itself, printed_scripts_follow, printed_scripts_follow_an_opening,
    printed_text_is_itself, read_script_is_itself, read_scripts_can_be_printed,
};
pub use spelling::{
    changes_are_spelled, entangling_is_spelled, inputs_are_spelled, operands_are_spelled,
    selects_are_spelled, tables_are_spelled, texts_are_spelled,
};

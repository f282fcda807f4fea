//! Which scripts of a text say WITHIN. The tree of a text has a number of runs for each script, also where the text
//! says none; so what the text itself says is told beside the tree.
#![tactic(auto)]

mod saying;

pub use saying::scripts_within;

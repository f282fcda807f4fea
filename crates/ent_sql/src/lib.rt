//! The tree of an input: declarations, opening rows and scripts, ordinary and entangled statements.
//!
//! A text is an input of one tree, or it has one first fault, all of its tokens' faults before those of its grammar. A
//! caller may rely on it that [`parse_input`] gives exactly these, each name and value with its place, and that no
//! list of a tree is longer than its limit; and on [`parse_script`] for the text of one script alone. The grammar is
//! data, in specs/; a reader's contract names the production that it reads.
#![tactic(auto)]

mod condition;
mod entangling;
mod fault;
mod front;
mod input;
mod laws;
mod list;
mod operand;
mod script;
mod select;
mod single;
mod statement;
mod table;
mod test;

pub use fault::SqlFault;
pub use input::{parse_input, reading_is_exact};
pub use laws::things_stand_at_their_first_token;
pub use single::parse_script;

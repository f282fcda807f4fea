//! Processes that claim a store, which may go back.
//!
//! A store goes back if an asynchronous standby is promoted that lacks the last writes, or if a backup is restored. Then
//! whatever it was told last may be lost. What must not happen is that two processes, each of which believes in other
//! tables, write into it by turns. A process claims the store by a random token that nobody drew before. A write names
//! the token and its own number; it goes through only if the store has that token and the write before. So a version,
//! which is a token and a number, has one content for ever, however often the store goes back; and a process whose
//! version the store has knows what it holds.
#![tactic(auto)]

mod claim_law;

pub use claim_law::versions_have_one_content;

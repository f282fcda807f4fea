//! A lock manager: shared and exclusive locks of transactions on tables.
//!
//! Contracts see a [`LockTable`] as a finite relation of transactions, tables and modes. `ask` grants all locks of a
//! request or none: none if another transaction, which isn't to be passed, holds a conflicting lock. The least such
//! transaction is named. Only `drop_group` releases locks: all those of a group.
#![tactic(auto)]

mod holders;
mod lock_table;
mod mode;
mod table_key;
mod table_uses;

pub use holders::{Holder, lesser};
pub use lock_table::{Answer, LockTable};
pub use mode::Mode;
pub use table_key::TableKey;

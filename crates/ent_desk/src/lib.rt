//! What stands behind the lock of a manager of several clients, and what each client's session holds.
//!
//! A [`Desk`] has a core and counts what sessions get of it: its type keeps that the core is gathered, and that as many
//! tickets and receipts were given out as the core has scripts and journal entries. A [`Session`] keeps its tickets and
//! its receipts. A caller may rely on it that each call of a desk makes events of its core alone, and that
//! [`Desk::close`] gives a finished, legal book whose scripts and journal are exactly what the sessions hold;
//! [`Desk::renew`] goes on where that book ends. Nothing here waits or starts a thread; the lock is in the crate above.
#![tactic(auto)]

mod account;
mod advance;
mod audit;
mod closing;
mod desk;
mod draft;
mod lending;
mod next;
mod opening;
mod receipt;
mod renewal;
mod runs;
mod seats;
mod session;
mod ticket;
mod whole;

pub use advance::Advance;
pub use closing::{CloseFault, UnclosedDesk};
pub use desk::{Desk, NotSubmitted, SubmitFault};
pub use ent_core::{Core, PlayFault};
pub use ent_stamp::{BlankLog, Blanks, Both, Naming, Seats, StampedDone, StampedJob};
pub use opening::open;
pub use renewal::{NotRenewed, RenewFault, Renewed};
pub use session::{Session, Stopped};
pub use ticket::{First, Receipt, Ticket};

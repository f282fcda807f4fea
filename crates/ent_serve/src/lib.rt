//! Many clients, one manager: sessions in threads of their own submit scripts and work on them, behind one lock.
//!
//! A [`Manager`] keeps an [`ent_desk::Desk`] behind one lock, and gives out sessions, one for each client.
//! [`Manager::submit`] takes a script, [`Manager::work`] makes the next step, whoever submitted the script,
//! [`Manager::wait_for`] waits for the fate of a transaction, [`Manager::look`] shows the core, and [`Manager::close`]
//! gives the book; [`Manager::renew`] goes on where that book ends. A service that starts and ends its runs itself
//! calls [`Manager::work_in_run`], [`Manager::start_run`] and [`Manager::end_run`]. [`serve`] does all of this for one
//! input and a number of workers.
//!
//! Contracts promise that the core behind the lock is reached, and its book legal, each time a thread takes the lock;
//! that sessions hold exactly what the manager was given and has committed; and that the book of [`serve`] is a
//! finished, legal book of its input. They promise nothing about the order in which threads get the lock.
#![tactic(auto)]

mod bell;
mod fault;
mod gate;
mod manager;
mod renewal;
mod runs;
mod waiting;
mod workers;

pub use ent_desk::{
    BlankLog, Blanks, Both, CloseFault, Core, First, Naming, NotSubmitted, PlayFault, Receipt,
    RenewFault, Seats, Session, SubmitFault, Ticket,
};
pub use fault::ServeFault;
pub use gate::{Gate, Open};
pub use manager::{Headway, MOST_SESSIONS, Manager, NoBook, UnclosedManager};
pub use renewal::{NotRenewed, Renewed};
pub use workers::{serve, serve_input};

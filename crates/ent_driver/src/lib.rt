//! A core for one caller: it takes scripts as texts, makes runs or single moves, and gives the book when it is closed.
//!
//! A [`Driver`] is vacant, open over a core, or closed with that core's book. Scripts come in as texts; answers, tables
//! and books go out in the lines of a report. Each call does to the core what its contract says, and a refused call
//! leaves all as it was. A closed driver can be renewed: then it is open over a new core, which begins with the tables
//! at the end of the book.
#![tactic(auto)]

mod closing;
mod driver;
mod fault;
mod handle_law;
mod moves;
mod one_run;
mod piece;
mod renewal;
mod script;
mod text;
mod why;

pub use driver::Driver;
pub use ent_core::{Reply, Standing};
pub use ent_renewal::FinishedBook;
pub use fault::DriverFault;
pub use handle_law::{cores_may_pass, drivers_may_pass};
pub use moves::{Move, reply_text};
pub use script::examine;
pub use text::{lines_under, report_text};

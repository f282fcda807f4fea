//! The scripts of an input met in a waiting room: bytes in, the report of a meeting out.
//!
//! [`meet`] reads an input, puts its scripts into a room in their order, and steps until those who wait rest. What it
//! writes is the text of the room's tickets, of the joint answers in the books of its epochs, and of the tables at the
//! end. Who meets whom, and when, is the room's (`ent_room`).
#![tactic(auto)]

mod epochs;
mod fault;
mod joints;
mod meeting;
mod opening;
mod stepping;
mod tables;
mod text;
mod tickets;

pub use epochs::{Answered, EpochJoints, Joint};
pub use fault::MeetFault;
pub use meeting::{Meeting, meet, meeting_of};

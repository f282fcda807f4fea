//! Pictures of runs: a trace read back, its picture as plain values, and that picture as an SVG.
//!
//! A trace is the lines that `entangle run --trace` writes: events with their replies. What [`read_trace`] reads,
//! printed as a trace, is exactly the lines of the text, in order. If a fault names a line, all lines before it could
//! be read; only tests show that this line can't stand there.
//!
//! A picture has lanes, columns, bars, links and marks. Contracts promise that each member of the runs has one lane, by
//! number; that all are found who met a picked transaction; and that columns come in the order of their events.
//!
//! The bytes of an SVG are a function of the trace and of the lanes that the caller picks. Texts of the trace are
//! escaped in them, so none of them becomes markup.
#![tactic(auto)]

mod answer;
mod bars;
mod columns;
mod escape;
mod event;
mod exchange;
mod fault;
mod frame;
mod group;
mod idle;
mod joints;
mod legend;
mod links;
mod marks;
mod met;
mod picture;
mod place;
mod reading;
mod reply;
mod scene;
mod sheet;
mod stand;
mod svg;
mod words;

pub use escape::{escaped, escaped_texts_hold_no_markup};
pub use exchange::{Commit, Demand, Event, Exchange, Reply};
pub use fault::{DrawFault, StrangeLine};
pub use joints::{JointAnswer, joint_answers};
pub use met::{all_members, members_met};
pub use picture::{
    Bar, Fate, Lane, Life, Link, LinkKind, Mark, MarkKind, Picture, Run, Shade, What,
};
pub use reading::read_trace;
pub use scene::picture_of;
pub use svg::draw;

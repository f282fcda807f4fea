//! Entangle for C, as a static library: the report of an input, the explanation of its fault, the check of a report,
//! rooms, in which scripts wait, and drivers, which keep tables between calls and make single runs.
//!
//! `include/entangle.h` declares the calls, with the conditions of each. A text goes into the caller's buffer, as far
//! as the buffer reaches; its length, and a fault, go into a [`CallTold`]. Only rooms, rows, values and drivers keep
//! anything between calls, behind a [`RoomHandle`], a [`RowsHandle`], a [`ValuesHandle`] or a [`Handle`]; everything
//! else that a call allocates it frees.
#![tactic(auto)]

ghost use Rattle.std.specs.Prelude.{MatchOption};
ghost use Rattle.ent_c.specs.Calls.{Checks, Explains, IsMisused, Reports};
ghost use Rattle.ent_c.specs.Version.{version_numbered};

mod about;
mod buffer;
mod driver;
mod explanation;
mod handle;
mod moving;
mod position;
mod report;
mod room;
mod room_feed;
mod room_handle;
mod room_look;
mod room_said;
mod room_text;
mod room_told;
mod rows;
mod rows_handle;
mod script;
mod ticket_state;
mod told;
mod values;
mod values_handle;
mod verdict;
mod version;

use crate::buffer::lay_over;
use crate::explanation::explanation_of;
use crate::report::report_of;
use crate::verdict::{Judged, judge, status_after};
use crate::version::version_numbered;
pub use about::{
    ent_c_size_of_limits, ent_c_size_of_position, ent_c_size_of_submission,
    ent_c_size_of_ticket_state, ent_c_size_of_told, ent_c_version,
};
pub use driver::{
    ent_c_answers, ent_c_close, ent_c_closed_report, ent_c_free, ent_c_open, ent_c_renew,
    ent_c_run, ent_c_standing, ent_c_submit, ent_c_table,
};
use ent_book::ReportVersion;
use ent_engine::{RunFault, status_of};
pub use handle::Handle;
pub use moving::{ent_c_make, ent_c_why};
pub use position::Position;
pub use room::{
    Limits, ent_c_room_free, ent_c_room_further, ent_c_room_open, ent_c_room_put,
    ent_c_room_restore, ent_c_room_step, ent_c_room_turn, ent_c_room_withdraw,
};
pub use room_feed::{ent_c_room_groups, ent_c_room_next_group, ent_c_room_settled_through};
pub use room_handle::RoomHandle;
pub use room_look::{
    ent_c_room_ended, ent_c_room_epoch, ent_c_room_state, ent_c_room_submission, ent_c_room_waiting,
};
pub use room_said::ent_c_room_explain;
pub use room_text::{ent_c_room_report, ent_c_room_table, ent_c_room_why};
pub use rows::{ent_c_rows_begin, ent_c_rows_free, ent_c_rows_int, ent_c_rows_text};
pub use rows_handle::RowsHandle;
pub use script::ent_c_explain_script;
use std::alloc::Global;
pub use ticket_state::{Submission, TicketState};
pub use told::CallTold;
pub use values::{ent_c_values_free, ent_c_values_int, ent_c_values_text};
pub use values_handle::ValuesHandle;

/// The report was handed out, or the input has no fault to explain.
pub(crate) const DONE: i32 = 0;

/// The call is refused.
pub(crate) const REFUSED: i32 = 1;

/// An argument isn't in its range.
pub(crate) const MISUSED: i32 = 2;

/// Hands out the report of an input, or tells the fault for which there is none.
#[unsafe(no_mangle)]
pub extern "C" fn ent_c_report(
    alloc: Global,
    input: &[u8],
    version: u32,
    buffer: &mut [u8],
    told: &mut CallTold,
) -> i32
    ensures { MatchOption (version_numbered version) (IsMisused buffer.old buffer.new told.new result)
        (λ version. Reports version input.now buffer.old buffer.new told.new result) }
{
    let Some(version) = version_numbered(version) else {
        *told = CallTold::text(0);
        return MISUSED;
    };
    match report_of(alloc, input, version) {
        Ok(report) => {
            *told = CallTold::text(report.len());
            lay_over(report.as_slice(), buffer);
            DONE
        }
        Err(fault) => {
            *told = CallTold::fault(input, fault, 0);
            status_of(&fault) as i32
        }
    }
}

/// Hands out what is said of the fault of an input, as `entangle run --explain` says it.
#[unsafe(no_mangle)]
pub extern "C" fn ent_c_explain(
    alloc: Global,
    input: &[u8],
    buffer: &mut [u8],
    told: &mut CallTold,
) -> i32
    ensures { Explains input.now buffer.old buffer.new told.new result }
{
    let Err(fault) = report_of(alloc, input, ReportVersion::One) else {
        *told = CallTold::text(0);
        return DONE;
    };
    let Ok(text) = explanation_of(alloc, input, fault) else {
        *told = CallTold::fault(input, RunFault::Memory, 0);
        return status_of(&RunFault::Memory) as i32;
    };
    *told = CallTold::fault(input, fault, text.len());
    lay_over(text.as_bytes(), buffer);
    status_of(&fault) as i32
}

/// Hands out the verdict on a report, as `entangle check` prints it, without the end of its line.
#[unsafe(no_mangle)]
pub extern "C" fn ent_c_check(
    alloc: Global,
    report: &[u8],
    buffer: &mut [u8],
    told: &mut CallTold,
) -> i32
    ensures { Checks report.now buffer.old buffer.new told.new result }
{
    match judge(alloc, report) {
        Ok(Judged { verdict, text }) => {
            *told = CallTold::text(text.len());
            lay_over(text.as_bytes(), buffer);
            status_after(verdict)
        }
        Err(fault) => {
            let fault = RunFault::Check(fault);
            *told = CallTold::fault(report, fault, 0);
            status_of(&fault) as i32
        }
    }
}

//! The SVG of a picture.
use crate::bars::{put_bars, put_lives, put_shades};
use crate::frame::{put_events, put_head, put_lanes, put_runs};
use crate::idle::Shown;
use crate::legend::put_legend;
use crate::links::put_links;
use crate::marks::put_marks;
use crate::place::Measures;
use crate::sheet::Sheet;
use crate::{
    DrawFault, Exchange, Picture, all_members, joint_answers, members_met, picture_of, read_trace,
};
use ent_group::Tx;
use ent_value::Refusal;
use std::alloc::Global;

/// The SVG of a picture of a trace that shows this. Where memory runs out there is none.
pub(crate) fn svg_of(
    alloc: Global,
    picture: &Picture,
    trace: &[Exchange],
    shown: &Shown,
) -> Option<Vec<u8>> {
    let measures = Measures::new(picture.columns.len() as u64, picture.lanes.len() as u64);
    let mut sheet = Sheet::new(alloc);
    put_head(&mut sheet, picture, measures, shown);
    put_runs(&mut sheet, picture, measures);
    put_events(&mut sheet, picture, measures);
    put_lanes(&mut sheet, picture, measures);
    put_shades(&mut sheet, picture, measures);
    put_lives(&mut sheet, picture, measures);
    put_links(&mut sheet, picture, measures);
    put_bars(&mut sheet, picture, trace, measures);
    put_marks(&mut sheet, picture, measures);
    put_legend(&mut sheet, measures);
    sheet.put("</svg>\n");
    sheet.into_whole()
}

/// The SVG of the trace that a text is: of all its lanes, or where transactions are picked, of these and those that
/// they met. Of more than 20 lanes, lanes and runs in which nothing happens but waiting are left out. Else the first
/// line that isn't one of a trace, or the first picked transaction that is in no run of it.
pub fn draw(alloc: Global, text: &str, picked: &[Tx]) -> Result<Vec<u8>, Refusal<DrawFault>> {
    let mut trace = match read_trace(alloc, text) {
        Ok(trace) => trace,
        Err(Refusal::Memory) => return Err(Refusal::Memory),
        Err(Refusal::Fault(strange)) => return Err(Refusal::Fault(DrawFault::Strange(strange))),
    };
    let joints = joint_answers(alloc, trace.as_slice())?;
    let all = all_members(alloc, trace.as_slice())?;
    if let Some(absent) = picked.iter().find(|tx| !all.contains(tx)) {
        return Err(Refusal::Fault(DrawFault::Absent(*absent)));
    }
    let members = if picked.is_empty() {
        all
    } else {
        members_met(alloc, trace.as_slice(), joints.as_slice(), picked)?
    };
    let mut shown = Shown::of(alloc, trace.as_slice(), joints.as_slice(), members, picked)?;
    shown.leave_out_runs(alloc, &mut trace, joints.as_slice())?;
    let picture = picture_of(
        alloc,
        trace.as_slice(),
        joints.as_slice(),
        shown.members.as_slice(),
    )?;
    match svg_of(alloc, &picture, trace.as_slice(), &shown) {
        Some(svg) => Ok(svg),
        None => Err(Refusal::Memory),
    }
}

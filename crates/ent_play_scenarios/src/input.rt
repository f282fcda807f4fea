//! The input of a scenario: the lines before `== events`, and the core that is opened over it.
use crate::line::index;
use crate::out::{Out, Stop};
use anyhow::Result;
use ent_core::Core;
use ent_sql::parse_input;
use ent_tree::Input;
use ent_value::Refusal;
use std::alloc::Global;

/// The text of an input. A line `== times N TEXT` stands for N lines, each the text with the line's number, from 1, in
/// place of each `#`.
pub(crate) fn input_text(alloc: Global, lines: &str) -> Result<String> {
    let mut out = Out::new(alloc);
    for line in lines.lines() {
        out.next_line();
        put_line(&mut out, line);
    }
    out.into_text()
}

fn put_line(out: &mut Out, line: &str) {
    match line.strip_prefix("== times ") {
        Some(repeated) => put_times(out, repeated),
        None => {
            out.put(line);
            out.put("\n");
        }
    }
}

fn put_times(out: &mut Out, repeated: &str) {
    let Some((times, line)) = repeated.split_once(' ') else {
        out.stop(Stop::Line);
        return;
    };
    match index(times) {
        Ok(times) => put_numbered_lines(out, line, times),
        Err(stop) => out.stop(stop),
    }
}

fn put_numbered_lines(out: &mut Out, line: &str, times: usize) {
    for number in 1..=times {
        put_numbered(out, line, number);
    }
}

fn put_numbered(out: &mut Out, line: &str, number: usize) {
    for (place, piece) in line.split('#').enumerate() {
        if place > 0 {
            out.put_count(number as u64);
        }
        out.put(piece);
    }
    out.put("\n");
}

/// A core over an input's opening, with its scripts submitted; or the input's first fault is put.
pub(crate) fn open(alloc: Global, text: &str, out: &mut Out) -> Option<Core> {
    match parse_input(alloc, text) {
        Ok(input) => open_input(alloc, input, out),
        Err(Refusal::Fault(fault)) => {
            out.put_fault_line(fault.code(), fault.place());
            None
        }
        Err(Refusal::Memory) => {
            out.stop(Stop::Memory);
            None
        }
    }
}

fn open_input(alloc: Global, input: Input, out: &mut Out) -> Option<Core> {
    match Core::over(alloc, input) {
        Ok(core) => Some(core),
        Err(Refusal::Fault(fault)) => {
            out.put_fault_line(fault.code(), fault.place());
            None
        }
        Err(Refusal::Memory) => {
            out.stop(Stop::Memory);
            None
        }
    }
}

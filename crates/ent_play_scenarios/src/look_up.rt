//! Look-ups, each as a line has it.
use crate::line::LookUp;
use crate::out::{Out, Stop};
use ent_book::append_fate;
use ent_core::{Core, Standing};
use ent_group::Tx;
use ent_members::Turn;
use ent_rel::Table;
use ent_semantics::Fate;
use ent_trace::{put_answers, put_rows};
use ent_tree::MOST_SCRIPTS;
use ent_value::{Name, is_word};
use std::alloc::Global;

/// The line of a look-up.
pub(crate) fn put_look_up(alloc: Global, out: &mut Out, core: &Core, look_up: LookUp<'_>) {
    match look_up {
        LookUp::Running => put_running(out, core.running()),
        LookUp::Members => out.put_members("members", &core.members()),
        LookUp::Dormant => put_dormant(out, core),
        LookUp::Group(tx) => out.put_members("group", &core.group(tx)),
        LookUp::Standing(tx) => put_standing(alloc, out, core.standing(tx)),
        LookUp::Answers(tx) => put_answers_of(alloc, out, core, tx),
        LookUp::Table(name) => put_table_of(alloc, out, core, name),
        LookUp::Entry(number) => put_entry(alloc, out, core, number),
    }
    out.put("\n");
}

fn put_running(out: &mut Out, is_running: bool) {
    out.put(if is_running {
        "running yes"
    } else {
        "running no"
    });
}

/// Those who wait for a run, in order.
fn put_dormant(out: &mut Out, core: &Core) {
    out.put("dormant");
    for place in 1..=MOST_SCRIPTS {
        let Some(entrant) = core.dormant(place) else {
            break;
        };
        out.put_number("", entrant.tx());
    }
}

fn put_standing(alloc: Global, out: &mut Out, standing: Option<Standing>) {
    match standing {
        None => out.put("standing none"),
        Some(Standing::Dormant(runs)) => out.put_number("standing dormant", runs),
        Some(Standing::Ready(turn)) => put_turn(out, turn),
        Some(Standing::Out) => out.put("standing out"),
        Some(Standing::Posted) => out.put("standing posted"),
        Some(Standing::Prepared) => out.put("standing prepared"),
        Some(Standing::Finished(fate)) => put_fate(alloc, out, fate),
    }
}

fn put_turn(out: &mut Out, turn: Turn) {
    out.put("standing ready ");
    out.put(match turn {
        Turn::Statement => "statement",
        Turn::Commit => "commit",
        Turn::Rollback => "rollback",
    });
}

/// A fate as a report has it.
fn put_fate(alloc: Global, out: &mut Out, fate: Fate) {
    out.put("standing finished ");
    let mut words = Vec::new(alloc);
    match append_fate(alloc, &mut words, fate) {
        Ok(()) => out.put_bytes(words.as_slice()),
        Err(_) => out.stop(Stop::Memory),
    }
}

fn put_answers_of(alloc: Global, out: &mut Out, core: &Core, tx: Tx) {
    out.put_number("answers", tx);
    put_answers(alloc, &mut out.text, core.answers(tx));
}

/// The table of a name; none where no table is declared by it.
fn put_table_of(alloc: Global, out: &mut Out, core: &Core, name: &str) {
    if !is_word(name.as_bytes()) {
        out.put("table none");
        return;
    }
    match Name::new(alloc, name.as_bytes()) {
        Ok(word) => match core.table(&word) {
            Some(table) => put_table(alloc, out, &word, table),
            None => out.put("table none"),
        },
        Err(_) => out.stop(Stop::Memory),
    }
}

fn put_table(alloc: Global, out: &mut Out, name: &Name, table: &Table) {
    out.put("table ");
    out.put_name(name);
    out.put_number("", table.len() as u64);
    match table.rows(alloc) {
        Ok(rows) => put_rows(alloc, &mut out.text, rows.as_slice()),
        Err(_) => out.stop(Stop::Memory),
    }
}

fn put_entry(alloc: Global, out: &mut Out, core: &Core, number: usize) {
    match core.entry(number) {
        Some(entry) => {
            out.put_number("entry", entry.tx);
            put_answers(alloc, &mut out.text, entry.answers.as_slice());
        }
        None => out.put("entry none"),
    }
}

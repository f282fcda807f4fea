//! Books and their reports: `== book`.
ghost use Rattle.std.specs.Prelude.{◌≡◌, All};
ghost use Rattle.ent_value.specs.Value.{kinds_of};

use crate::input::input_of;
use crate::streams::{SlowWriter, put_marks, put_taken, read_behaviour};
use crate::values::read_rows;
use anyhow::{Context, Result, bail};
use ent_book::{NamedTable, write_report, write_report_2};
use ent_rel::Table;
use ent_scenario_files::replies::{Out, put, put_number};
use ent_scenario_files::words::{kinds, name, number, row, rows_of, unescaped, value};
use ent_semantics::{Answer, Book, Entry, Fact, Failure, Fate, Fated, JointAnswer, Member};
use ent_tree::Opening;
use ent_value::{Kind, Limited, Row, Sequence, Value, Watched};
use std::alloc::Global;
use std::mem;
use std::sync::Arc;

/// A book that is written, the answers that the next entry takes, and the members that the next joint answer takes.
#[derive(Drop)]
pub(crate) struct BookDraft {
    book: Book<Sequence<NamedTable>>,
    answers: Sequence<Answer>,
    members: Sequence<Member>,
}

impl BookDraft {
    pub(crate) fn new(alloc: Global) -> Self {
        BookDraft {
            book: Book {
                opening: Opening {
                    tables: Limited::new(alloc),
                    rows: Limited::new(alloc),
                },
                scripts: Sequence::new(alloc),
                journal: Sequence::new(alloc),
                joint_answers: Sequence::new(alloc),
                fates: Sequence::new(alloc),
                database: Sequence::new(alloc),
            },
            answers: Sequence::new(alloc),
            members: Sequence::new(alloc),
        }
    }
}

pub(crate) fn reply(
    alloc: Global,
    draft: &mut BookDraft,
    call: &[&str],
    out: &mut Out,
) -> Result<()> {
    match call {
        ["report", words @ ..] => put_report(alloc, &draft.book, words, out),
        ["report_2", words @ ..] => put_report_2(alloc, &draft.book, words, out),
        ["input", text] => take_input(alloc, &mut draft.book, text, out),
        ["table", table, word, rows @ ..] => {
            take_table(alloc, &mut draft.book.database, table, word, rows, out)
        }
        ["count" | "set" | "rows" | "heads", ..] => {
            take_answer(alloc, &mut draft.answers, call, out)
        }
        ["entry", tx] => {
            take_answers(alloc, &mut draft.answers, &mut draft.book.journal, tx, out)
        }
        ["member", tx, place, values @ ..] => {
            take_member(alloc, &mut draft.members, tx, place, values, out)
        }
        ["joint"] => take_members(
            alloc,
            &mut draft.members,
            &mut draft.book.joint_answers,
            out,
        ),
        _ => take_fate(&mut draft.book.fates, call, out),
    }
}

fn take_table(
    alloc: Global,
    database: &mut Sequence<NamedTable>,
    table: &str,
    word: &str,
    rows: &[&str],
    out: &mut Out,
) -> Result<()> {
    database.push(table_of(alloc, table, word, rows)?)?;
    put_number(out, database.len());
    Ok(())
}

/// An answer that the next entry takes.
fn take_answer(
    alloc: Global,
    answers: &mut Sequence<Answer>,
    call: &[&str],
    out: &mut Out,
) -> Result<()> {
    answers.push(answer(alloc, call)?)?;
    put_number(out, answers.len());
    Ok(())
}

/// A member that the next joint answer takes.
fn take_member(
    alloc: Global,
    members: &mut Sequence<Member>,
    tx: &str,
    place: &str,
    values: &[&str],
    out: &mut Out,
) -> Result<()> {
    members.push(member(alloc, tx, place, values)?)?;
    put_number(out, members.len());
    Ok(())
}

/// The next joint answer takes the members that were told.
fn take_members(
    alloc: Global,
    members: &mut Sequence<Member>,
    joint_answers: &mut Sequence<JointAnswer>,
    out: &mut Out,
) -> Result<()> {
    let members = mem::replace(members, Sequence::new(alloc));
    joint_answers.push(JointAnswer { members })?;
    put_number(out, joint_answers.len());
    Ok(())
}

/// The fate of the next transaction.
fn take_fate(fates: &mut Sequence<Fated>, call: &[&str], out: &mut Out) -> Result<()> {
    let fate = fate(call)?;
    let tx = (fates.len() as u64).saturating_add(1);
    fates.push(Fated { tx, fate })?;
    put_number(out, fates.len());
    Ok(())
}

/// The opening and the scripts are those of an input.
fn take_input(
    alloc: Global,
    book: &mut Book<Sequence<NamedTable>>,
    text: &str,
    out: &mut Out,
) -> Result<()> {
    let text = unescaped(alloc, text)?;
    let input = input_of(alloc, text.as_str()).context("this is no input");
    drop(text);
    let input = input?;
    book.opening = input.opening;
    book.scripts = Sequence::from_vec(input.scripts.into_vec());
    put_number(out, book.scripts.len());
    Ok(())
}

/// The table of some rows, as it is shared.
fn shared_table(alloc: Global, kinds: Vec<Kind>, rows: Vec<Row>) -> Result<Arc<Table>>
    requires { All (λ row. kinds_of row ≡ kinds.items) rows.items }
{
    let table = Table::load(alloc, kinds, rows).ok().context("no table")?;
    Ok(Arc::new(alloc, table)?)
}

fn table_of(alloc: Global, table: &str, word: &str, rows: &[&str]) -> Result<NamedTable> {
    let kinds = kinds(alloc, word)?;
    let rows = rows_of(alloc, rows, kinds.as_slice())?;
    let loaded = shared_table(alloc, kinds, rows)?;
    Ok(NamedTable {
        name: name(alloc, table)?,
        table: loaded,
    })
}

fn answer(alloc: Global, call: &[&str]) -> Result<Answer> {
    match call {
        ["count", count] => Ok(Answer::Count(number(count)?)),
        ["set", word] => Ok(Answer::Value(value(alloc, word)?)),
        ["rows", words @ ..] => {
            let rows = read_rows(alloc, words)?;
            Ok(Answer::Rows(Sequence::from_vec(rows)))
        }
        ["heads", words @ ..] => Ok(Answer::Heads(facts(alloc, words)?)),
        _ => bail!("this is no answer"),
    }
}

/// Rows of answer relations, each as `R(1,'a)`.
fn facts(alloc: Global, words: &[&str]) -> Result<Sequence<Fact>> {
    let mut facts = Sequence::new(alloc);
    for word in words {
        facts.push(fact(alloc, word)?)?;
    }
    Ok(facts)
}

fn fact(alloc: Global, word: &str) -> Result<Fact> {
    let (relation, rest) = word.split_once('(').context("a fact is written R(1)")?;
    let written = format!(in alloc; "({rest}")?;
    let values = row(alloc, written.as_str());
    drop(written);
    let values = values?;
    Ok(Fact {
        relation: name(alloc, relation)?,
        values,
    })
}

/// The journal's next entry takes the answers that were told.
fn take_answers(
    alloc: Global,
    answers: &mut Sequence<Answer>,
    journal: &mut Sequence<Entry>,
    tx: &str,
    out: &mut Out,
) -> Result<()> {
    let tx = number(tx)?;
    let answers = mem::replace(answers, Sequence::new(alloc));
    journal.push(Entry { tx, answers })?;
    put_number(out, journal.len());
    Ok(())
}

fn member(alloc: Global, tx: &str, place: &str, values: &[&str]) -> Result<Member> {
    Ok(Member {
        tx: number(tx)?,
        place: number(place)?,
        grounding: values_of(alloc, values)?,
    })
}

fn values_of(alloc: Global, words: &[&str]) -> Result<Sequence<Value>> {
    let mut values = Sequence::new(alloc);
    for word in words {
        values.push(value(alloc, word)?)?;
    }
    Ok(values)
}

/// What became of a transaction.
fn fate(call: &[&str]) -> Result<Fate> {
    match call {
        ["committed", place, runs] => Ok(Fate::Committed {
            number: number(place)?,
            runs: number(runs)?,
        }),
        ["gave_up", runs] => Ok(Fate::GaveUp {
            runs: number(runs)?,
        }),
        ["rolled_back", runs] => Ok(Fate::RolledBack {
            runs: number(runs)?,
        }),
        ["failed", failure, runs] => Ok(Fate::Failed {
            failure: match *failure {
                "overflow" => Failure::Overflow,
                "table_full" => Failure::TableFull,
                _ => bail!("this is no failure"),
            },
            runs: number(runs)?,
        }),
        _ => bail!("books know no such call"),
    }
}

/// Writes the report to a writer that behaves so, and shows what it took.
fn put_report(
    alloc: Global,
    book: &Book<Sequence<NamedTable>>,
    words: &[&str],
    out: &mut Out,
) -> Result<()> {
    let mut writer = Watched::new(SlowWriter::new(alloc, read_behaviour(words)?));
    let is_written = write_report(alloc, book, &mut writer).is_ok();
    put_written(&writer, is_written, out);
    Ok(())
}

/// The same for the report of version 2.
fn put_report_2(
    alloc: Global,
    book: &Book<Sequence<NamedTable>>,
    words: &[&str],
    out: &mut Out,
) -> Result<()> {
    let mut writer = Watched::new(SlowWriter::new(alloc, read_behaviour(words)?));
    let is_written = write_report_2(alloc, book, &mut writer).is_ok();
    put_written(&writer, is_written, out);
    Ok(())
}

fn put_written(writer: &Watched<SlowWriter>, is_written: bool, out: &mut Out) {
    put(
        out,
        if is_written {
            "written, "
        } else {
            "not written, "
        },
    );
    put_marks(writer, out);
    put(out, ": ");
    put_taken(out, writer.get().taken());
}

//! Lines that are made in memory.
use ent_book::append_number;
use ent_semantics::{Answer, Fact, Member};
use ent_value::{Name, Row, Value, print_row, print_value};
use std::alloc::{AllocError, Global};

/// The most rows and offers that are shown of some.
pub(crate) const MOST_SHOWN: usize = 10;

/// What has been made of some lines. Values, rows, facts and answers are put as a report writes them.
#[derive(Drop)]
pub(crate) struct Page {
    alloc: Global,
    text: Vec<u8>,
}

impl Page {
    pub(crate) fn new(alloc: Global) -> Self {
        Page {
            alloc,
            text: Vec::new(alloc),
        }
    }

    /// All that was put.
    pub(crate) fn into_text(self) -> Vec<u8> {
        self.text
    }

    pub(crate) fn words(&mut self, words: &str) -> Result<(), AllocError> {
        self.text.extend_from_slice(words.as_bytes())
    }

    pub(crate) fn number(&mut self, number: u64) -> Result<(), AllocError> {
        append_number(self.alloc, &mut self.text, number)
    }

    pub(crate) fn name(&mut self, name: &Name) -> Result<(), AllocError> {
        self.text.extend_from_slice(name.as_bytes())
    }

    fn value(&mut self, value: &Value) -> Result<(), AllocError> {
        print_value(self.alloc, &mut self.text, value)
    }

    pub(crate) fn row(&mut self, row: &Row) -> Result<(), AllocError> {
        print_row(self.alloc, &mut self.text, row)
    }

    pub(crate) fn fact(&mut self, fact: &Fact) -> Result<(), AllocError> {
        self.name(&fact.relation)?;
        self.row(&fact.values)
    }

    /// A statement: its transaction, and its place there.
    pub(crate) fn place(&mut self, tx: u64, place: u64) -> Result<(), AllocError> {
        self.number(tx)?;
        self.words(".")?;
        self.number(place)
    }

    /// A member, with its variables and their values.
    pub(crate) fn member(&mut self, member: &Member, names: &[Name]) -> Result<(), AllocError> {
        self.place(member.tx, member.place)?;
        let values = member.grounding.as_slice();
        let many = names.len().min(values.len());
        for index in 0..many {
            self.words(" ")?;
            self.name(&names[index])?;
            self.words("=")?;
            self.value(&values[index])?;
        }
        Ok(())
    }

    /// Some rows, a line each, and how many more there are.
    fn rows(&mut self, rows: &[Row]) -> Result<(), AllocError> {
        let many = rows.len().min(MOST_SHOWN);
        for index in 0..many {
            self.row(&rows[index])?;
            self.words("\n")?;
        }
        if rows.len() > many {
            self.number((rows.len() - many) as u64)?;
            self.words(" more\n")?;
        }
        Ok(())
    }

    /// The lines of an answer, behind the place of its statement; of many rows some.
    pub(crate) fn answer(&mut self, place: u64, answer: &Answer) -> Result<(), AllocError> {
        self.number(place)?;
        match answer {
            Answer::Count(count) => {
                self.words(" count ")?;
                self.number(*count)?;
                self.words("\n")
            }
            Answer::Value(value) => {
                self.words(" set ")?;
                self.value(value)?;
                self.words("\n")
            }
            Answer::Rows(rows) => {
                self.words(" rows ")?;
                self.number(rows.len() as u64)?;
                self.words("\n")?;
                self.rows(rows.as_slice())
            }
            Answer::Heads(facts) => self.heads(facts.as_slice()),
        }
    }

    fn heads(&mut self, facts: &[Fact]) -> Result<(), AllocError> {
        self.words(" answer")?;
        for fact in facts {
            self.words(" ")?;
            self.fact(fact)?;
        }
        self.words("\n")
    }
}

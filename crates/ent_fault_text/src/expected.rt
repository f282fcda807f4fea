//! What can stand at a place: the reader itself is asked, token by token.
use crate::names::meant;
use crate::whole::Whole;
use crate::words::has_name;
use std::alloc::{AllocError, Global};

/// The symbols that are tried, but those of comparisons.
const SYMBOLS: &str = "( ) , ; . * + -";

/// The reserved words.
static RESERVED: [&str; 3] = [
    "AND ANSWER AS BEGIN CHOOSE COMMIT CREATE",
    "DELETE FROM IN INSERT INT INTO ROLLBACK RUNS",
    "SELECT SET TABLE TEXT TRANSACTION UPDATE VALUES WHERE WITHIN",
];

/// A text that begins an input, or a script.
#[derive(Clone, Copy)]
struct Lead<'a> {
    alloc: Global,
    whole: Whole,
    text: &'a str,
}

impl Lead<'_> {
    /// Whether a token can follow it. The reader refuses one at the first token that can't follow what stands before it;
    /// a line's end keeps the token out of a comment.
    fn allows(self, token: &str) -> Result<bool, AllocError> {
        let alloc = self.alloc;
        let lead = self.text;
        let text = format!(in alloc; "{lead}\n{token}")?;
        Ok(match self.whole.fault_of(alloc, text.as_str())? {
            None => true,
            Some(fault) => fault.place() > lead.len().saturating_add(1),
        })
    }

    /// Adds those of some words that can follow it. A minus sign before a number belongs to a value.
    fn add_words(
        self,
        things: &mut Vec<&'static str>,
        words: &'static str,
        is_number: bool,
    ) -> Result<(), AllocError> {
        for word in words.split(' ') {
            let is_value = word == "-" && is_number;
            if !is_value && self.allows(word)? {
                things.push(word)?;
            }
        }
        Ok(())
    }

    /// Adds the names and values that can follow it; whether a number can.
    fn add_values(self, things: &mut Vec<&'static str>) -> Result<bool, AllocError> {
        if self.allows("a")? {
            things.push("a name")?;
        }
        let is_number = self.allows("1")?;
        let is_text = self.allows("''")?;
        let is_variable = self.allows("@a")?;
        if is_number && is_text && is_variable {
            things.push("a value")?;
            return Ok(true);
        }
        if self.allows("2")? {
            things.push("a number")?;
        } else if is_number {
            things.push("1")?;
        }
        if is_text {
            things.push("a text")?;
        }
        if is_variable {
            things.push("a host variable")?;
        }
        Ok(is_number)
    }
}

/// Whether a token can follow a text that begins an input.
fn can_follow(alloc: Global, text: &str, token: &str) -> Result<bool, AllocError> {
    let whole = Whole::Input;
    Lead { alloc, whole, text }.allows(token)
}

/// Whether a token begins a statement, a script's end, a script or a declaration.
pub(crate) fn can_begin(alloc: Global, token: &str) -> Result<bool, AllocError> {
    Ok(can_follow(alloc, "", token)? || can_follow(alloc, "BEGIN TRANSACTION;", token)?)
}

/// Whether a token is a comparison: nothing else can follow a whole operand in a WHERE.
pub(crate) fn can_compare(alloc: Global, token: &str) -> Result<bool, AllocError> {
    can_follow(alloc, "BEGIN TRANSACTION; SELECT * FROM a WHERE a.a", token)
}

/// What can stand at a place.
#[derive(Drop)]
pub(crate) struct Expected {
    /// Each thing that can, in words.
    pub(crate) things: Vec<&'static str>,
}

impl Expected {
    /// What can follow a text that begins an input, or a script.
    pub(crate) fn behind(alloc: Global, whole: Whole, text: &str) -> Result<Self, AllocError> {
        let lead = Lead { alloc, whole, text };
        let mut things: Vec<&'static str> = Vec::new(alloc);
        let is_number = lead.add_values(&mut things)?;
        if lead.allows("=")? {
            things.push("a comparison")?;
        }
        lead.add_words(&mut things, SYMBOLS, is_number)?;
        for words in &RESERVED {
            lead.add_words(&mut things, *words, is_number)?;
        }
        if whole.fault_of(alloc, text)?.is_none() {
            things.push(match whole {
                Whole::Input => "the end of the input",
                Whole::Script => "the end of the script",
            })?;
        }
        Ok(Expected { things })
    }

    /// Whether this can stand there.
    pub(crate) fn has(&self, thing: &str) -> bool {
        has_name(self.things.as_slice(), thing)
    }

    /// The hint that a reserved word was meant, if one can stand there that is one letter away from a word, in any mix of
    /// upper and lower case.
    pub(crate) fn meant(&self, alloc: Global, word: &str) -> Result<Option<String>, AllocError> {
        let mut reserved: Vec<&'static str> = Vec::new(alloc);
        for words in &RESERVED {
            for word in words.split(' ') {
                if self.has(word) {
                    reserved.push(word)?;
                }
            }
        }
        let upper = word.to_ascii_uppercase(alloc)?;
        meant(alloc, upper.as_str(), reserved.as_slice())
    }
}

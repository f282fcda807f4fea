//! What stands around a place: the declared tables, and the tokens of its statement.
use crate::mark::{Mark, Sort, first_marks, is_one, marks_behind};
use crate::schema::{Table, declare};
use crate::whole::Whole;
use ent_text::{Keyword, Symbol};
use std::alloc::{AllocError, Global};

/// The tables that are declared before a place, and the tokens around it: of its script up to its statement's end, or
/// of its declaration, or of its opening row.
#[derive(Drop)]
pub(crate) struct Scene<'a> {
    pub(crate) alloc: Global,
    pub(crate) whole: Whole,
    pub(crate) text: &'a str,
    pub(crate) offset: usize,
    pub(crate) tables: Vec<Table<'a>>,
    /// The answer relations that are named before the statement's end.
    pub(crate) relations: Vec<&'a str>,
    pub(crate) marks: Vec<Mark<'a>>,
    /// How many tokens stand before the place.
    pub(crate) at: usize,
    is_opening: bool,
    /// Whether no further token stands around the place.
    pub(crate) is_full: bool,
}

impl<'a> Scene<'a> {
    /// A place of a text of which no token was taken. One script alone has no declarations.
    pub(crate) fn new(alloc: Global, whole: Whole, text: &'a str, offset: usize) -> Self {
        Scene {
            alloc,
            whole,
            text,
            offset,
            tables: Vec::new(alloc),
            relations: Vec::new(alloc),
            marks: Vec::new(alloc),
            at: 0,
            is_opening: matches!(whole, Whole::Input),
            is_full: false,
        }
    }

    /// Takes the text's next token.
    pub(crate) fn take(&mut self, mark: Mark<'a>) -> Result<(), AllocError> {
        if mark.start < self.offset && self.begins_anew(&mark) {
            self.marks.clear();
            self.at = 0;
        }
        if mark.is_word(Keyword::Begin) {
            self.is_opening = false;
        }
        let last = self.marks.last().copied();
        if self.is_opening {
            declare(self.alloc, &mut self.tables, last, mark)?;
        }
        if let Some(before) = last
            && mark.is_name()
            && before.is_word(Keyword::Answer)
        {
            self.relations.push(mark.text)?;
        }
        if mark.start < self.offset {
            self.at = self.at.saturating_add(1);
        } else if mark.is_sign(Symbol::Semicolon) || matches!(mark.sort, Sort::Faulty) {
            self.is_full = true;
        }
        self.marks.push(mark)?;
        Ok(())
    }

    /// Whether a token begins a script, a declaration or an opening row.
    fn begins_anew(&self, mark: &Mark<'_>) -> bool {
        mark.is_word(Keyword::Begin)
            || (self.is_opening && (mark.is_word(Keyword::Create) || mark.is_word(Keyword::Insert)))
    }

    /// The token at the place, or so many behind it; before it, if the number is negative.
    pub(crate) fn token(&self, steps: isize) -> Option<Mark<'a>> {
        self.marks.get(self.at.checked_add_signed(steps)?).copied()
    }

    /// Whether that token is one of these ([`Mark::is_of`]).
    pub(crate) fn is_at(&self, steps: isize, tokens: &str) -> bool {
        is_one(self.token(steps).as_ref(), tokens)
    }

    /// The text of the token at the place; none at the text's end.
    pub(crate) fn word(&self) -> &'a str {
        match self.token(0) {
            Some(mark) => mark.text,
            None => "",
        }
    }

    /// Whether the statement that holds the place begins with one of these tokens.
    pub(crate) fn begins_with(&self, tokens: &str) -> bool {
        is_one(self.statement().first(), tokens)
    }

    /// The tokens before the place.
    pub(crate) fn passed(&self) -> &[Mark<'a>] {
        first_marks(self.marks.as_slice(), self.at)
    }

    /// The tokens from the place on.
    pub(crate) fn coming(&self) -> &[Mark<'a>] {
        marks_behind(self.marks.as_slice(), self.at)
    }

    /// The tokens of the statement that holds the place.
    pub(crate) fn statement(&self) -> &[Mark<'a>] {
        let mut start = 0usize;
        for (index, mark) in self.passed().iter().enumerate() {
            if mark.is_sign(Symbol::Semicolon) {
                start = index.saturating_add(1);
            }
        }
        marks_behind(self.marks.as_slice(), start)
    }

    /// The text from the first of these tokens up to an offset.
    pub(crate) fn lead_up_to(&self, offset: usize) -> &'a str {
        match self.marks.first() {
            Some(mark) => self.text.get(mark.start..offset).unwrap_or(""),
            None => "",
        }
    }

    /// The declared table of this name.
    pub(crate) fn table(&self, name: &str) -> Option<&Table<'a>> {
        for table in &self.tables {
            if table.name.text == name {
                return Some(table);
            }
        }
        None
    }
}

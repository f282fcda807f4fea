//! The sources around a place, and the kinds of what stands there.
use crate::expected::can_compare;
use crate::mark::{Mark, Sort, first_marks, is_one, marks_behind};
use crate::scene::Scene;
use crate::schema::Column;
use crate::words::has_name;
use ent_text::{Keyword, Symbol};
use ent_value::Kind;
use std::alloc::{AllocError, Global};

/// A source: a table and the name that it goes by.
#[derive(Clone, Copy)]
pub(crate) struct SourceNames<'a> {
    pub(crate) table: &'a str,
    pub(crate) name: &'a str,
}

/// What stands on one side of a test: its text, and its kind where that is known.
#[derive(Clone, Copy)]
pub(crate) struct TestSide<'a> {
    pub(crate) text: &'a str,
    pub(crate) kind: Option<Kind>,
}

/// Where the SELECT in parentheses begins that isn't closed behind these tokens; 0 where there is none. No such SELECT
/// holds another.
fn select_start(marks: &[Mark<'_>]) -> usize {
    let mut start = 0usize;
    let mut depth = 0usize;
    for (index, mark) in marks.iter().enumerate() {
        let next = index.saturating_add(1);
        if mark.is_sign(Symbol::Open) {
            depth = depth.saturating_add(1);
            if is_one(marks.get(next), "SELECT") {
                start = next;
            }
        } else if mark.is_sign(Symbol::Close) {
            depth = depth.saturating_sub(1);
            if depth == 0 {
                start = 0;
            }
        }
    }
    start
}

/// The tokens behind the word that introduces sources or a table, outside parentheses.
fn introduced<'a, 'b>(marks: &'b [Mark<'a>]) -> &'b [Mark<'a>] {
    let mut depth = 0usize;
    for (index, mark) in marks.iter().enumerate() {
        if mark.is_sign(Symbol::Open) {
            depth = depth.saturating_add(1);
        } else if mark.is_sign(Symbol::Close) {
            if depth == 0 {
                return first_marks(marks, 0);
            }
            depth = depth.saturating_sub(1);
        } else if depth == 0 && mark.is_of("FROM INTO UPDATE") {
            return marks_behind(marks, index.saturating_add(1));
        }
    }
    first_marks(marks, 0)
}

/// The sources of the first SELECT that these tokens go on; of another statement its table.
pub(crate) fn sources_of<'a>(
    alloc: Global,
    marks: &[Mark<'a>],
) -> Result<Vec<SourceNames<'a>>, AllocError> {
    let mut sources: Vec<SourceNames<'a>> = Vec::new(alloc);
    let mut is_new = true;
    for mark in introduced(marks) {
        let name = mark.text;
        if mark.is_name() && is_new {
            sources.push(SourceNames { table: name, name })?;
            is_new = false;
        } else if mark.is_name() {
            rename(&mut sources, name);
        } else if mark.is_sign(Symbol::Comma) {
            is_new = true;
        } else if !mark.is_word(Keyword::As) {
            break;
        }
    }
    Ok(sources)
}

/// Lets the last source go by another name.
fn rename<'a>(sources: &mut Vec<SourceNames<'a>>, name: &'a str) {
    if let Some(source) = sources.last_mut() {
        source.name = name;
    }
}

impl<'a> Scene<'a> {
    /// The sources of the innermost SELECT that holds the place, or of its statement.
    pub(crate) fn sources(&self) -> Result<Vec<SourceNames<'a>>, AllocError> {
        let statement = self.statement();
        let passed = statement.len().saturating_sub(self.coming().len());
        let front = first_marks(statement, passed.saturating_add(1));
        sources_of(self.alloc, marks_behind(statement, select_start(front)))
    }

    /// The names of the columns of some tables, each once.
    pub(crate) fn columns_of(&self, tables: &[&str]) -> Result<Vec<&'a str>, AllocError> {
        let mut names: Vec<&'a str> = Vec::new(self.alloc);
        for name in tables {
            if let Some(table) = self.table(name) {
                for column in &table.columns {
                    if !has_name(names.as_slice(), column.name) {
                        names.push(column.name)?;
                    }
                }
            }
        }
        Ok(names)
    }

    /// The first column of this name, in the source that goes by the qualifier or, without one, in any.
    pub(crate) fn column(
        &self,
        qualifier: Option<&str>,
        name: &str,
    ) -> Result<Option<Column<'a>>, AllocError> {
        for source in &self.sources()? {
            if let Some(wanted) = qualifier
                && wanted != source.name
            {
                continue;
            }
            if let Some(table) = self.table(source.table)
                && let Some(column) = table.column(name)
            {
                return Ok(Some(column));
            }
        }
        Ok(None)
    }

    /// The kind of a token that is a value, or a column with this qualifier.
    fn kind_of(
        &self,
        qualifier: Option<&str>,
        mark: &Mark<'_>,
    ) -> Result<Option<Kind>, AllocError> {
        match mark.sort {
            Sort::Number | Sort::Sign(Symbol::Minus) => Ok(Some(Kind::Int)),
            Sort::Text => Ok(Some(Kind::Text)),
            Sort::Name => match self.column(qualifier, mark.text)? {
                Some(column) => Ok(Some(column.kind)),
                None => Ok(None),
            },
            _ => Ok(None),
        }
    }

    /// What begins at the place.
    pub(crate) fn side_ahead(&self) -> Result<TestSide<'a>, AllocError> {
        let (Some(first), dot, second) = (self.token(0), self.token(1), self.token(2)) else {
            return Ok(TestSide {
                text: "",
                kind: None,
            });
        };
        let is_pair = first.is_sign(Symbol::Minus);
        let is_qualified = first.is_name() && self.is_at(1, ".");
        if is_qualified && let Some(column) = second {
            let kind = self.kind_of(Some(first.text), &column)?;
            return Ok(TestSide {
                text: self.between(&first, &column),
                kind,
            });
        }
        let kind = self.kind_of(None, &first)?;
        let text = match dot {
            Some(number) if is_pair => self.between(&first, &number),
            _ => first.text,
        };
        Ok(TestSide { text, kind })
    }

    /// What ends just before the comparison that stands before the place.
    pub(crate) fn side_back(&self) -> Result<Option<TestSide<'a>>, AllocError> {
        let (Some(sign), Some(last)) = (self.token(-1), self.token(-2)) else {
            return Ok(None);
        };
        if !can_compare(self.alloc, sign.text)? {
            return Ok(None);
        }
        if self.is_at(-3, ".")
            && let Some(qualifier) = self.token(-4)
        {
            let kind = self.kind_of(Some(qualifier.text), &last)?;
            return Ok(Some(TestSide {
                text: self.between(&qualifier, &last),
                kind,
            }));
        }
        let kind = self.kind_of(None, &last)?;
        Ok(Some(TestSide {
            text: last.text,
            kind,
        }))
    }

    /// The text from one token to the end of another.
    fn between(&self, first: &Mark<'_>, last: &Mark<'_>) -> &'a str {
        let end = last.start.saturating_add(last.text.len());
        self.text.get(first.start..end).unwrap_or("")
    }
}

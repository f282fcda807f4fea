//! The variables around a place.
use crate::mark::{Mark, Sort, is_one};
use crate::scene::Scene;
use crate::words::has_name;
use ent_text::Keyword;
use std::alloc::AllocError;

impl<'a> Scene<'a> {
    /// The other names of the statement that are no tables' and no relations': its written variables are among them.
    pub(crate) fn variables(&self) -> Result<Vec<&'a str>, AllocError> {
        let mut names = Vec::new(self.alloc);
        let word = self.word();
        for mark in self.statement() {
            let is_other = mark.is_name() && mark.text != word;
            let is_relation = has_name(self.relations.as_slice(), mark.text);
            if is_other && !is_relation && self.table(mark.text).is_none() {
                names.push(mark.text)?;
            }
        }
        Ok(names)
    }

    /// The host variables that statements before this one give values.
    pub(crate) fn host_variables(&self) -> Result<Vec<&'a str>, AllocError> {
        let mut names: Vec<&'a str> = Vec::new(self.alloc);
        let earlier = self.marks.len().saturating_sub(self.statement().len());
        let mut last: Option<Mark<'a>> = None;
        for mark in self.marks.iter().take(earlier) {
            let is_new = !has_name(names.as_slice(), mark.text);
            if matches!(mark.sort, Sort::HostVariable)
                && is_new
                && is_one(last.as_ref(), "AS SET")
            {
                names.push(mark.text)?;
            }
            last = Some(*mark);
        }
        Ok(names)
    }

    /// Whether the statement has an INTO.
    pub(crate) fn has_into(&self) -> bool {
        for mark in self.statement() {
            if mark.is_word(Keyword::Into) {
                return true;
            }
        }
        false
    }
}

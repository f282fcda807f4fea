//! Tokens with the text that spells them.
use ent_text::{Keyword, Symbol, TokenView};

/// What kind of token one is.
#[derive(Clone, Copy)]
pub(crate) enum Sort {
    Word(Keyword),
    Name,
    HostVariable,
    Number,
    Text,
    Sign(Symbol),
    /// A fault of the text's tokens, and all behind it.
    Faulty,
}

/// A token, with the text that spells it and where that begins.
#[derive(Clone, Copy)]
pub(crate) struct Mark<'a> {
    pub(crate) sort: Sort,
    pub(crate) text: &'a str,
    pub(crate) start: usize,
}

impl Mark<'_> {
    /// Whether it is this reserved word.
    pub(crate) fn is_word(&self, word: Keyword) -> bool {
        match self.sort {
            Sort::Word(found) => found == word,
            _ => false,
        }
    }

    /// Whether it is this symbol.
    pub(crate) fn is_sign(&self, sign: Symbol) -> bool {
        match self.sort {
            Sort::Sign(found) => found == sign,
            _ => false,
        }
    }

    /// Whether it is a name.
    pub(crate) fn is_name(&self) -> bool {
        matches!(self.sort, Sort::Name)
    }

    /// Whether it is one of these tokens, with a space between each two: words and symbols as they are spelled, and
    /// `<name>`, `<number>`, `<text>` and `<variable>`, which stand for every name, number, text and host variable.
    pub(crate) fn is_of(&self, tokens: &str) -> bool {
        let sort = match self.sort {
            Sort::Name => "<name>",
            Sort::Number => "<number>",
            Sort::Text => "<text>",
            Sort::HostVariable => "<variable>",
            _ => self.text,
        };
        has_word(tokens, sort) || has_word(tokens, self.text)
    }
}

/// Whether there is a token, and it is one of these.
pub(crate) fn is_one(mark: Option<&Mark<'_>>, tokens: &str) -> bool {
    match mark {
        Some(mark) => mark.is_of(tokens),
        None => false,
    }
}

/// Whether a word is among others, with a space between each two, in any mix of upper and lower case.
pub(crate) fn has_word(words: &str, word: &str) -> bool {
    for one in words.split(' ') {
        if one.eq_ignore_ascii_case(word) {
            return true;
        }
    }
    false
}

/// What kind of token is seen.
pub(crate) fn sort_of(view: &TokenView<'_>) -> Sort {
    match view {
        TokenView::Word(word) => Sort::Word(*word),
        TokenView::Name(_) => Sort::Name,
        TokenView::HostVariable(_) => Sort::HostVariable,
        TokenView::Number(_) => Sort::Number,
        TokenView::Literal(_) | TokenView::Doubled(_) => Sort::Text,
        TokenView::Sign(sign) => Sort::Sign(*sign),
        TokenView::Fault(_) => Sort::Faulty,
    }
}

/// The first of some tokens, up to so many.
pub(crate) fn first_marks<'a, 'b>(marks: &'b [Mark<'a>], count: usize) -> &'b [Mark<'a>] {
    marks.split_at(count.min(marks.len())).0
}

/// The tokens behind so many.
pub(crate) fn marks_behind<'a, 'b>(marks: &'b [Mark<'a>], count: usize) -> &'b [Mark<'a>] {
    marks.split_at(count.min(marks.len())).1
}

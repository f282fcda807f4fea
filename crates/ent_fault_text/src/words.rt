//! Small parts of sentences.
use ent_value::Kind;
use std::alloc::{AllocError, Global};
use std::fmt;

/// What is said of a fault: a sentence, and where one helps another one.
#[derive(Drop)]
pub(crate) struct Wording {
    pub(crate) sentence: String,
    pub(crate) hint: Option<String>,
}

impl Wording {
    /// A sentence without a hint.
    pub(crate) fn plain(sentence: String) -> Self {
        Wording {
            sentence,
            hint: None,
        }
    }

    /// A sentence, and a hint that is always the same.
    pub(crate) fn hinted(alloc: Global, sentence: String, hint: &str) -> Result<Self, AllocError> {
        let hint = Some(String::from_str(alloc, hint)?);
        Ok(Wording { sentence, hint })
    }
}

/// So many of something, as `1 value` or `3 values`.
#[derive(Clone, Copy)]
pub(crate) struct Quantity<'a>(pub(crate) usize, pub(crate) &'a str);

impl fmt::Display for Quantity<'_> {
    fn fmt<W: fmt::Write>(&self, f: &mut fmt::Formatter<W>) -> fmt::Result {
        let count = self.0;
        let thing = self.1;
        let end = if count == 1 { "" } else { "s" };
        write!(f, "{count} {thing}{end}")
    }
}

/// A kind with its article.
pub(crate) fn with_article(kind: Kind) -> &'static str {
    match kind {
        Kind::Int => "an INT",
        Kind::Text => "a TEXT",
    }
}

/// The other of the two kinds.
pub(crate) fn other_than(kind: Kind) -> Kind {
    match kind {
        Kind::Int => Kind::Text,
        Kind::Text => Kind::Int,
    }
}

/// Whether a name is among others.
pub(crate) fn has_name(names: &[&str], name: &str) -> bool {
    for one in names {
        if *one == name {
            return true;
        }
    }
    false
}

/// These words as a list: `a`, `a or b`, `a, b or c`, where `, ` stands between two, and ` or ` before the last.
pub(crate) fn listed(
    alloc: Global,
    words: &[&str],
    between: &str,
    last: &str,
) -> Result<String, AllocError> {
    let mut list = String::new(alloc);
    for (index, word) in words.iter().enumerate() {
        if index > 0 {
            list.push_str(if words.len() - index == 1 {
                last
            } else {
                between
            })?;
        }
        list.push_str(word)?;
    }
    Ok(list)
}

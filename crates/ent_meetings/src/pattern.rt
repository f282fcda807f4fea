//! Rows of answer relations, as far as a text knows them.
ghost use Rattle.std.specs.Prelude.{◌≡◌};
ghost use Rattle.std.specs.Cmp.Lexicographic.{pointwise};
ghost use Rattle.ent_meetings.specs.Pattern.{may_be_one, may_meet};

use ent_value::{Name, Sequence, Value};

/// A row of an answer relation, as far as the text of its statement knows it: of each term the value, or nothing.
#[derive(Drop)]
pub struct Pattern {
    pub relation: Name,
    pub terms: Sequence<Option<Value>>,
}

/// Whether two terms may have one value: all may, but for two known values that differ.
pub fn may_be_one(demanded: &Option<Value>, offered: &Option<Value>) -> bool
    ensures { result ≡ may_be_one demanded.now offered.now }
{
    match demanded {
        Some(known) => match offered {
            Some(other) => known.cmp(other).is_eq(),
            None => true,
        },
        None => true,
    }
}

/// Whether each demanded term and the offered one in its place may have one value, and there are as many of both.
fn may_be_row(demanded: &[Option<Value>], offered: &[Option<Value>]) -> bool
    ensures { result ≡ pointwise may_be_one demanded.now offered.now }
{
    if demanded.len() != offered.len() {
        return false;
    }
    for index in 0..demanded.len() {
        let may_be_one = may_be_one(&demanded[index], &offered[index]);
        if !may_be_one {
            return false;
        }
    }
    true
}

impl Pattern {
    /// Whether what is demanded may be met by what is offered: they are of one relation and length, and each two terms
    /// may have one value.
    pub fn may_meet(&self, offer: &Pattern) -> bool
        ensures { result ≡ may_meet self.now offer.now }
    {
        self.relation == offer.relation && may_be_row(self.terms.as_slice(), offer.terms.as_slice())
    }
}

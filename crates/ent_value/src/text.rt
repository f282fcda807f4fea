//! A text of a database.
ghost use Rattle.std.specs.Prelude.{◌≡◌, ◌≤◌, length, IfOk, false, true, ◌==◌};
ghost use Rattle.std.proofs.Common.{rules};
ghost use Rattle.std.specs.Cmp.{partial_order_from_own_ties};
ghost use Rattle.std.specs.Cmp.Rules.{comparing};
ghost use Rattle.std.specs.Ordering.{nat_cmp, as_partial_cmp};
ghost use Rattle.std.specs.Cmp.Lexicographic.{slice_cmp, pointwise};

use smallvec::SmallVec;
use std::alloc::{AllocError, Global};
use std::cmp::Ordering;
use std::marker::Model;

/// The most bytes of a text's content.
pub const LONGEST_TEXT: usize = 255;

/// So many bytes are kept in the text itself, and more in an allocation. Most names are no longer.
const INLINE: usize = 16;

/// A text of at most [`LONGEST_TEXT`] bytes, kept and compared as its bytes of UTF-8.
#[derive(Debug)]
pub struct Text {
    content: SmallVec<u8, INLINE>,
}

impl Drop for Text {
    fn drop(self) {
        let Text { content: _content } = self;
    }
}

impl Model for Text {
    ghost use Rattle.std.specs.Prelude.{ℕ, ◌≤◌, List, length};
    ghost use Rattle.ent_value.specs.declared.text.TheConstants.{LONGEST_TEXT};

    ghost Value = { List ℕ };

    ghost view = { λ t. t.content.items };

    ghost invariant = { λ t. length t.content.items ≤ LONGEST_TEXT };
}

impl Text {
    /// A text of its own with these bytes.
    pub fn from_bytes(alloc: Global, bytes: &[u8]) -> Result<Self, AllocError>
        requires { length bytes.now ≤ LONGEST_TEXT }
        ensures { IfOk result (λ t. t ≡ bytes.now) }
    {
        Ok(Text {
            content: SmallVec::from_slice(alloc, bytes)?,
        })
    }

    /// The text of these bytes, which are moved and not copied.
    pub fn from_vec(content: Vec<u8>) -> Self
        requires { length content.items ≤ LONGEST_TEXT }
        ensures { result ≡ content.items }
    {
        Text {
            content: SmallVec::from_vec(content),
        }
    }

    pub fn as_bytes(&self) -> &[u8]
        ensures bytes { result.now ≡ self.now }
        ensures limit { length self.now ≤ LONGEST_TEXT }
    {
        self.content.as_slice()
    }

    pub fn copy(&self, alloc: Global) -> Result<Self, AllocError>
        ensures { IfOk result (λ t. t ≡ self.now) }
    {
        Text::from_bytes(alloc, self.as_bytes())
    }
}

/// Whether two texts may be the same, by their last bytes. Names that are numbered begin alike, so this tells most of
/// them apart.
fn may_be_same(one: &[u8], other: &[u8]) -> bool
    ensures { one.now ≡ other.now → result ≡ true }
{
    match (one.last(), other.last()) {
        (Some(own), Some(theirs)) => *own == *theirs,
        _ => true,
    }
}

impl PartialEq for Text {
    ghost eq = { pointwise ◌==◌ };

    ghost laws = { Prim.search (comparing, rules) };

    fn eq(&self, other: &Text) -> bool {
        let own = self.content.as_slice();
        let theirs = other.content.as_slice();
        may_be_same(own, theirs) && own == theirs
    }
}

impl Eq for Text {
    ghost laws = { Prim.search (comparing, rules) };
}

impl Ord for Text {
    ghost cmp = { slice_cmp nat_cmp };

    ghost total = { Prim.search (comparing, rules) };

    ghost matches_partial_cmp = { Prim.search (comparing, rules) };

    ghost matches_eq = { Prim.search (comparing, rules) };

    fn cmp(&self, other: &Text) -> Ordering {
        self.content.as_slice().cmp(other.content.as_slice())
    }
}

impl PartialOrd for Text {
    ghost partial_cmp = { as_partial_cmp (slice_cmp nat_cmp) };

    ghost laws = { partial_order_from_own_ties (Prim.search (comparing, rules)) (Prim.search (comparing, rules)) };

    fn partial_cmp(&self, other: &Text) -> Option<Ordering> {
        Some(self.cmp(other))
    }
}

//! Names of tables, columns, relations and variables.
ghost use Rattle.std.specs.Prelude.{◌≡◌, IfOk, IsTrue, false, ◌==◌};
ghost use Rattle.std.specs.List.{list_all};
ghost use Rattle.std.proofs.Common.{rules};
ghost use Rattle.std.specs.Cmp.{partial_order_from_own_ties};
ghost use Rattle.std.specs.Cmp.Rules.{comparing};
ghost use Rattle.std.specs.Cmp.Lexicographic.{slice_cmp, pointwise};
ghost use Rattle.std.specs.Ordering.{nat_cmp, as_partial_cmp};
ghost use Rattle.ent_value.specs.Name.{IsWord, is_word, is_word_byte};

use crate::text::Text;
use std::alloc::{AllocError, Global};
use std::cmp::Ordering;
use std::marker::Model;

/// The most bytes that a name has.
pub const LONGEST_NAME: usize = 63;

/// A name: an ASCII letter, then letters, digits and `_`, at most [`LONGEST_NAME`] bytes in all. Case matters,
/// and names are ordered by their bytes.
#[derive(Debug)]
pub struct Name {
    word: Text,
}

impl Drop for Name {
    fn drop(self) {
        let Name { word: _word } = self;
    }
}

impl Model for Name {
    ghost use Rattle.std.specs.Prelude.{ℕ, List};
    ghost use Rattle.ent_value.specs.Name.{IsWord};

    ghost Value = { List ℕ };

    ghost view = { λ n. n.word };

    ghost invariant = { λ n. IsWord n.word };
}

/// Whether a byte may stand in a name: an ASCII letter, a digit or `_`.
pub fn is_word_byte(byte: u8) -> bool
    ensures { result ≡ is_word_byte byte }
{
    byte.is_ascii_alphanumeric() || byte == b'_'
}

fn has_word_bytes(bytes: &[u8]) -> bool
    ensures { result ≡ list_all is_word_byte bytes.now }
{
    bytes.iter().all(|byte| is_word_byte(*byte))
}

/// Whether these bytes can be a name.
pub fn is_word(bytes: &[u8]) -> bool
    ensures { result ≡ is_word bytes.now }
{
    !bytes.is_empty()
        && bytes.len() <= LONGEST_NAME
        && bytes[0].is_ascii_alphabetic()
        && has_word_bytes(bytes)
}

impl Name {
    /// The name of these bytes; [`is_word`] tests them.
    pub fn new(alloc: Global, word: &[u8]) -> Result<Self, AllocError>
        requires { IsWord word.now }
        ensures { IfOk result (λ n. n ≡ word.now) }
    {
        Ok(Name {
            word: Text::from_bytes(alloc, word)?,
        })
    }

    pub fn as_bytes(&self) -> &[u8]
        ensures bytes { result.now ≡ self.now }
        ensures word { IsWord self.now }
    {
        self.word.as_bytes()
    }

    pub fn copy(&self, alloc: Global) -> Result<Self, AllocError>
        ensures { IfOk result (λ n. n ≡ self.now) }
    {
        Ok(Name {
            word: self.word.copy(alloc)?,
        })
    }
}

impl PartialEq for Name {
    ghost eq = { pointwise ◌==◌ };

    ghost laws = { Prim.search (comparing, rules) };

    fn eq(&self, other: &Name) -> bool {
        self.word == other.word
    }
}

impl Eq for Name {
    ghost laws = { Prim.search (comparing, rules) };
}

impl Ord for Name {
    ghost cmp = { slice_cmp nat_cmp };

    ghost total = { Prim.search (comparing, rules) };

    ghost matches_partial_cmp = { Prim.search (comparing, rules) };

    ghost matches_eq = { Prim.search (comparing, rules) };

    fn cmp(&self, other: &Name) -> Ordering {
        self.word.cmp(&other.word)
    }
}

impl PartialOrd for Name {
    ghost partial_cmp = { as_partial_cmp (slice_cmp nat_cmp) };

    ghost laws = { partial_order_from_own_ties (Prim.search (comparing, rules)) (Prim.search (comparing, rules)) };

    fn partial_cmp(&self, other: &Name) -> Option<Ordering> {
        Some(self.cmp(other))
    }
}

//! A walk over all keys of pages.
ghost use Rattle.std.specs.Prelude.{◌≡◌, ◌∷◌, [], MatchOption};
ghost use Rattle.std.specs.List.{flat_map};
ghost use Rattle.std.specs.Arc.{arc_value};
ghost use Rattle.ent_page.specs.Paged.{keys_left};

use crate::page::Page;
use std::marker::Model;
use std::sync::Arc;

/// A walk over the keys of pages, in their order. Contracts see the keys that are left.
#[derive(Drop)]
pub(crate) struct PageCursor<'a> {
    pages: &'a [Arc<Page>],
    index: usize,
}

impl<'a> Model for PageCursor<'a> {
    ghost use Rattle.std.specs.Prelude.{ℕ, List};
    ghost use Rattle.std.specs.Arc.{arc_value};
    ghost use Rattle.ent_page.specs.Paged.{keys_left};

    ghost Value = { List (List ℕ) };

    ghost view = { λ c. keys_left arc_value c.pages.now c.index };
}

impl<'a> PageCursor<'a> {
    /// A walk over all keys of pages.
    pub(crate) fn new(pages: &'a [Arc<Page>]) -> Self
        ensures { result ≡ flat_map arc_value pages.now }
    {
        PageCursor { pages, index: 0 }
    }

    /// A walk over the keys of pages from an index of the first page on.
    pub(crate) fn from_index(pages: &'a [Arc<Page>], index: usize) -> Self
        ensures { result ≡ keys_left arc_value pages.now index }
    {
        PageCursor { pages, index }
    }

    /// The next key, or `None` after the last.
    #[inline(always)]
    pub(crate) fn next_key(&mut self) -> Option<&'a [u8]>
        ensures { MatchOption result ((self.old ≡ []) × (self.new ≡ [])) (λ key. self.old ≡ key.now ∷ self.new) }
    {
        while let [first, others @ ..] = self.pages {
            let page: &'a Page = first;
            if self.index < page.len() {
                let key = page.key(self.index);
                self.index += 1;
                return Some(key);
            }
            self.pages = others;
            self.index = 0;
        }
        None
    }
}

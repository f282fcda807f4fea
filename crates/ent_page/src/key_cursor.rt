//! A walk over keys in pages.
ghost use Rattle.std.specs.Prelude.{◌≡◌, ◌∷◌, [], MatchOption};
ghost use Rattle.std.specs.List.{flat_map, take_while};
ghost use Rattle.std.specs.Arc.{arc_value};
ghost use Rattle.ent_page.specs.Front.{begins_with, has_front};

use crate::key::Key;
use crate::page::Page;
use crate::page_cursor::PageCursor;
use std::marker::Model;
use std::sync::Arc;

/// A walk over keys, in their order. Contracts see the keys that are left.
#[derive(Drop)]
pub struct KeyCursor<'a> {
    pages: PageCursor<'a>,
    /// What each key begins with.
    front: Option<Key>,
}

impl<'a> Model for KeyCursor<'a> {
    ghost use Rattle.std.specs.Prelude.{ℕ, List};
    ghost use Rattle.ent_page.specs.Front.{beginning_so};

    ghost Value = { List (List ℕ) };

    ghost view = { λ c. beginning_so c.front c.pages };
}

impl<'a> KeyCursor<'a> {
    /// A walk over all keys of pages.
    pub(crate) fn new(pages: &'a [Arc<Page>]) -> Self
        ensures { result ≡ flat_map arc_value pages.now }
    {
        KeyCursor {
            pages: PageCursor::new(pages),
            front: None,
        }
    }

    /// A walk up to the first key that doesn't begin with these bytes.
    pub(crate) fn beginning_with(pages: PageCursor<'a>, front: Key) -> Self
        ensures { result ≡ take_while (begins_with front) pages.entry }
    {
        KeyCursor {
            pages,
            front: Some(front),
        }
    }

    /// The next key, or `None` after the last.
    #[inline(always)]
    pub fn next_key(&mut self) -> Option<&'a [u8]>
        ensures { MatchOption result ((self.old ≡ []) × (self.new ≡ [])) (λ key. self.old ≡ key.now ∷ self.new) }
    {
        let key = self.pages.next_key()?;
        if has_front(key, &self.front) {
            return Some(key);
        }
        self.pages = PageCursor::new(&[]);
        None
    }
}

/// Whether a key begins as it should.
fn has_front(key: &[u8], front: &Option<Key>) -> bool
    ensures { result ≡ has_front front.now key.now }
{
    match front {
        None => true,
        Some(front) => begins_with(key, front),
    }
}

/// Whether a key begins with these bytes. A walk over all keys asks for none, and its loop is to stay short.
#[inline(never)]
fn begins_with(key: &[u8], front: &Key) -> bool
    ensures { result ≡ begins_with front.now key.now }
{
    key.starts_with(front.as_bytes())
}

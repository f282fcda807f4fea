//! Sets of keys in pages.
ghost use Rattle.std.specs.List.{filter};
ghost use Rattle.std.specs.List.Sorted.{IsStrictlySortedBy};
ghost use Rattle.std.specs.Prelude.{◌≡◌, ◌+◌, ◌<◌, ◌≤◌, ◌^◌, ◌==◌, length, ◌∷◌, [], ◌↔◌, IsTrue, IfOk};
ghost use Rattle.ent_lists.specs.Sets as set;
ghost use Rattle.ent_page.specs.Key.{key_cmp};
ghost use Rattle.ent_page.specs.Front.{begins_with};

use crate::key::Key;
use crate::key_cursor::KeyCursor;
use crate::merging::changed_pages;
use crate::page::Page;
use crate::pages::{
    are_same_keys, count_keys, grown, pages_of, place_of, push_shared, shrunk, single, spliced,
    walk_from,
};
use crate::probe::Probe;
use std::alloc::{AllocError, Global};
use std::marker::Model;
use std::sync::Arc;

/// A set of keys: an ordered list of pages, each ordered. Sets that come from one another share the pages that are
/// the same in both. Contracts see the set.
pub struct KeySet {
    pages: Vec<Arc<Page>>,
    len: usize,
}

impl Drop for KeySet {
    fn drop(self) {
        let KeySet {
            pages: _pages,
            len: _len,
        } = self;
    }
}

impl Model for KeySet {
    ghost use Rattle.std.specs.List.{flat_map};
    ghost use Rattle.std.specs.Arc.{arc_value};
    ghost use Rattle.std.specs.Coded.{coded_list, coded_ℕ};
    ghost use Rattle.ent_lists.specs.Sets as set;
    ghost use Rattle.ent_page.specs.Key.{key_cmp};
    ghost use Rattle.ent_page.specs.Paged.{IsPaged};

    ghost Value = { set.Set key_cmp };

    ghost coded = { set.code (coded_list coded_ℕ) };

    ghost view = { λ s. set.from_list {R = key_cmp} (flat_map arc_value s.pages.items) };

    ghost invariant = { λ s. IsPaged arc_value s.pages.items (flat_map arc_value s.pages.items) s.len };
}

impl KeySet {
    /// The set of no key. It takes no memory.
    pub fn new(alloc: Global) -> Self
        ensures { result ≡ set.empty }
    {
        KeySet {
            pages: Vec::new(alloc),
            len: 0,
        }
    }

    /// The set of some keys, of which doubles count once.
    pub fn from_keys(alloc: Global, keys: Vec<Key>) -> Result<Self, AllocError>
        ensures { IfOk result (λ s. s ≡ set.from_list keys.items) }
    {
        let keys = sorted_keys(alloc, keys)?;
        let pages = pages_of(alloc, keys.as_slice())?;
        Ok(KeySet {
            pages,
            len: keys.len(),
        })
    }

    /// How many keys there are.
    pub fn len(&self) -> usize
        ensures { result ≡ set.len self.now }
    {
        self.len
    }

    pub fn is_empty(&self) -> bool
        ensures { result ≡ (set.len self.now == 0) }
    {
        self.len == 0
    }

    /// Whether a key is in the set.
    pub fn contains<P: Probe>(&self, key: &P) -> bool
        ensures { result ≡ set.contains self.now (P.bytes key.now) }
    {
        let pages = self.pages.as_slice();
        let at = place_of(pages, key);
        at < pages.len() && pages[at].search(key).is_ok()
    }

    /// The set with a key put in. All pages but one or two are shared.
    pub fn with(&self, alloc: Global, key: &Key) -> Result<KeySet, AllocError>
        requires { set.len self.now < 2 ^ 63 }
        ensures { IfOk result (λ s. s ≡ set.insert self.now key.now) }
    {
        let pages = self.pages.as_slice();
        let at = place_of(pages, key);
        if at >= pages.len() {
            let page = Page::new(alloc).with(alloc, 0, key.as_bytes())?;
            return Ok(KeySet {
                pages: single(alloc, page)?,
                len: 1,
            });
        }
        let page: &Page = &pages[at];
        match page.search(key) {
            Ok(_) => self.copy(alloc),
            Err(index) => {
                let others = grown(alloc, page, index, key.as_bytes())?;
                Ok(KeySet {
                    pages: spliced(alloc, pages, at, at + 1, others)?,
                    len: self.len + 1,
                })
            }
        }
    }

    /// The set without a key. All pages but one or two are shared.
    pub fn without(&self, alloc: Global, key: &Key) -> Result<KeySet, AllocError>
        ensures { IfOk result (λ s. s ≡ set.without_all self.now (key.now ∷ [])) }
    {
        let pages = self.pages.as_slice();
        let at = place_of(pages, key);
        if at >= pages.len() {
            return self.copy(alloc);
        }
        let page: &Page = &pages[at];
        match page.search(key) {
            Ok(index) => {
                let others = page.without(alloc, index)?;
                Ok(KeySet {
                    pages: shrunk(alloc, pages, at, others)?,
                    len: self.len - 1,
                })
            }
            Err(_) => self.copy(alloc),
        }
    }

    /// The set without some keys and then with others, in one walk over the set and both lists. Pages in which nothing
    /// changes are shared.
    pub fn changed(
        &self,
        alloc: Global,
        removed: Vec<Key>,
        added: Vec<Key>,
    ) -> Result<KeySet, AllocError>
        requires { set.len self.now + length added.items < 2 ^ 64 }
        ensures { IfOk result (λ s. s ≡ set.insert_all (set.without_all self.now removed.items) added.items) }
    {
        let removed = sorted_keys(alloc, removed)?;
        let added = sorted_keys(alloc, added)?;
        let pages = self.pages.as_slice();
        let pages = changed_pages(alloc, pages, removed.as_slice(), added.as_slice())?;
        let len = count_keys(pages.as_slice());
        Ok(KeySet { pages, len })
    }

    /// A walk over the keys, ascending.
    pub fn cursor(&self) -> KeyCursor<'_>
        ensures { result ≡ set.ascending self.now }
    {
        KeyCursor::new(self.pages.as_slice())
    }

    /// A walk over the keys that begin with these bytes, ascending. The first is found by halving.
    pub fn beginning_with(&self, front: Key) -> KeyCursor<'_>
        ensures { result ≡ filter (begins_with front) (set.ascending self.now) }
    {
        let walk = walk_from(self.pages.as_slice(), &front);
        KeyCursor::beginning_with(walk, front)
    }

    /// Whether two sets are the same. It takes no memory.
    pub fn is_same(&self, other: &KeySet) -> bool
        ensures { IsTrue result ↔ (self.now ≡ other.now) }
    {
        self.len == other.len && are_same_keys(self.pages.as_slice(), other.pages.as_slice())
    }

    /// The same set; all pages are shared.
    pub fn copy(&self, alloc: Global) -> Result<KeySet, AllocError>
        ensures { IfOk result (λ s. s ≡ self.now) }
    {
        let mut pages = Vec::with_capacity(alloc, self.pages.len())?;
        push_shared(&mut pages, self.pages.as_slice())?;
        Ok(KeySet {
            pages,
            len: self.len,
        })
    }
}

/// Keys in ascending order, each once.
fn sorted_keys(alloc: Global, keys: Vec<Key>) -> Result<Vec<Key>, AllocError>
    ensures sorted { IfOk result (λ sorted. IsStrictlySortedBy key_cmp sorted.items) }
    ensures same { IfOk result (λ sorted. set.from_list {R = key_cmp} sorted.items ≡ set.from_list keys.items) }
    ensures bound { IfOk result (λ sorted. length sorted.items ≤ length keys.items) }
{
    let mut keys = keys;
    keys.as_mut_slice().sort(alloc)?;
    keys.dedup();
    Ok(keys)
}

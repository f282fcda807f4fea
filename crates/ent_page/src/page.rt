//! Keys one after another in one list of bytes.
ghost use Rattle.std.specs.Prelude.{◌≡◌, ◌+◌, ◌-◌, ◌<◌, ◌≤◌, ◌++◌, ◌∷◌, [], ◌↔◌, IsTrue, IfOk, IfErr, OnOk, OnErr};
ghost use Rattle.std.specs.Prelude.{length, get_or, take, drop, map, ℕ, ◌^◌, All, vec_len, vec_capacity};
ghost use Rattle.std.specs.List.{insert, remove, between};
ghost use Rattle.ent_page.specs.Layout.{start_of, Ascends, AreBelow, AreAbove};

use crate::probe::Probe;
use std::alloc::{AllocError, Global};
use std::cmp::Ordering;
use std::marker::Model;

/// How many bytes are compared at a time.
const CHUNK: usize = 64;

/// A list of keys in two arrays: the bytes of all, and where each ends. Contracts see the list.
pub struct Page {
    bytes: Vec<u8>,
    ends: Vec<usize>,
}

impl Drop for Page {
    fn drop(self) {
        let Page {
            bytes: _bytes,
            ends: _ends,
        } = self;
    }
}

impl Model for Page {
    ghost use Rattle.std.specs.Prelude.{ℕ, List};
    ghost use Rattle.ent_page.specs.Layout.{pieces, IsLaid};

    ghost Value = { List (List ℕ) };

    ghost view = { λ p. pieces p.bytes.items 0 p.ends.items };

    ghost invariant = { λ p. IsLaid p.bytes.items p.ends.items };
}

impl Page {
    /// The page of no key. It takes no memory.
    pub fn new(alloc: Global) -> Self
        ensures { result ≡ [] }
    {
        Page {
            bytes: Vec::new(alloc),
            ends: Vec::new(alloc),
        }
    }

    /// The page of no key, with room for so many keys that have so many bytes in all.
    fn with_room(alloc: Global, keys: usize, bytes: usize) -> Result<Self, AllocError>
        ensures { IfOk result (λ page. page ≡ []) }
    {
        let bytes = Vec::with_capacity(alloc, bytes)?;
        let ends = Vec::with_capacity(alloc, keys)?;
        Ok(Page { bytes, ends })
    }

    /// How many keys there are.
    pub fn len(&self) -> usize
        ensures { result ≡ length self.now }
    {
        self.ends.len()
    }

    /// The key at an index, counted from 0.
    #[inline(always)]
    pub fn key(&self, index: usize) -> &[u8]
        requires { index < length self.now }
        ensures { result.now ≡ get_or self.now index [] }
    {
        piece(&self.bytes, &self.ends, index)
    }

    /// The index of a key, or where it would stand in a page whose keys ascend.
    pub fn search<P: Probe>(&self, key: &P) -> Result<usize, usize>
        ensures found { IfOk result (λ i. (i < length self.now) × (get_or self.now i [] ≡ P.bytes key.now)) }
        ensures within { IfErr result (λ i. i ≤ length self.now) }
        ensures below { IfErr result (λ i. Ascends self.now → AreBelow self.now (P.bytes key.now) i) }
        ensures above { IfErr result (λ i. Ascends self.now → AreAbove self.now (P.bytes key.now) i) }
    {
        let mut low = 0;
        let mut high = self.len();
        while low < high {
            let middle = low + (high - low) / 2;
            match key.against(self.key(middle)) {
                Ordering::Less => low = middle + 1,
                Ordering::Equal => return Ok(middle),
                Ordering::Greater => high = middle,
            }
        }
        Err(low)
    }

    /// The page with a key put in at an index. The bytes are copied.
    pub fn with(&self, alloc: Global, index: usize, key: &[u8]) -> Result<Page, AllocError>
        requires { index ≤ length self.now }
        ensures { IfOk result (λ page. page ≡ insert self.now index key.now) }
    {
        let bytes = self.bytes.len() + key.len();
        let mut page = Page::with_room(alloc, self.ends.len() + 1, bytes)?;
        page.append(self, 0, index)?;
        page.push(key)?;
        page.append(self, index, self.len())?;
        Ok(page)
    }

    /// The page without the key at an index. The bytes are copied.
    pub fn without(&self, alloc: Global, index: usize) -> Result<Page, AllocError>
        requires { index < length self.now }
        ensures { IfOk result (λ page. page ≡ remove self.now index) }
    {
        let len = self.len();
        let bytes = self.bytes.len().saturating_sub(self.key(index).len());
        let mut page = Page::with_room(alloc, len - 1, bytes)?;
        page.append(self, 0, index)?;
        page.append(self, index + 1, len)?;
        Ok(page)
    }

    /// The keys from one index up to another.
    pub fn part(&self, alloc: Global, from: usize, to: usize) -> Result<Page, AllocError>
        requires order { from ≤ to }
        requires within { to ≤ length self.now }
        ensures { IfOk result (λ page. page ≡ between from to self.now) }
    {
        let mut page = Page::new(alloc);
        page.append(self, from, to)?;
        Ok(page)
    }

    /// The keys of this page and then those of another.
    pub fn joined(&self, alloc: Global, other: &Page) -> Result<Page, AllocError>
        ensures { IfOk result (λ page. page ≡ self.now ++ other.now) }
    {
        let keys = self.ends.len() + other.ends.len();
        let mut page = Page::with_room(alloc, keys, self.bytes.len() + other.bytes.len())?;
        page.append(self, 0, self.len())?;
        page.append(other, 0, other.len())?;
        Ok(page)
    }

    /// Puts a key at the end. A refusal changes nothing.
    pub fn push(&mut self, key: &[u8]) -> Result<(), AllocError>
        ensures ok { OnOk result (self.new ≡ self.old ++ key.now ∷ []) }
        ensures err { OnErr result (self.new ≡ self.old) }
    {
        self.ends.reserve(1)?;
        self.bytes.extend_from_slice(key)?;
        self.ends.push_reserved(self.bytes.len());
        Ok(())
    }

    /// Puts the keys of another page from one index up to another at the end. A refusal changes nothing.
    pub fn append(&mut self, other: &Page, from: usize, to: usize) -> Result<(), AllocError>
        requires order { from ≤ to }
        requires within { to ≤ length other.now }
        ensures ok { OnOk result (self.new ≡ self.old ++ between from to other.now) }
        ensures err { OnErr result (self.new ≡ self.old) }
    {
        let start = start_at(&other.ends, from);
        let stop = start_at(&other.ends, to);
        let base = self.bytes.len();
        self.ends.reserve(to - from)?;
        let bytes = part_of(&other.bytes, start, stop);
        self.bytes.extend_from_slice(bytes)?;
        push_ends(&mut self.ends, part_of(&other.ends, from, to), start, base);
        Ok(())
    }

    /// Whether two pages are the same.
    pub fn is_same(&self, other: &Page) -> bool
        ensures { IsTrue result ↔ (self.now ≡ other.now) }
    {
        are_same_arrays(&self.bytes, &other.bytes, &self.ends, &other.ends)
    }
}

/// Where the key at an index begins, or where the keys end.
fn start_at(ends: &[usize], index: usize) -> usize
    requires { index ≤ length ends.now }
    ensures { result ≡ start_of 0 ends.now index }
{
    if index == 0 { 0 } else { ends[index - 1] }
}

/// What stands between the place before and the one at an index.
fn piece<'a>(bytes: &'a [u8], ends: &[usize], index: usize) -> &'a [u8]
    requires within { index < length ends.now }
    requires order { start_of 0 ends.now index ≤ get_or ends.now index 0 }
    requires end_within { get_or ends.now index 0 ≤ length bytes.now }
    ensures { result.now ≡ between (start_of 0 ends.now index) (get_or ends.now index 0) bytes.now }
{
    &bytes[start_at(ends, index)..ends[index]]
}

/// The elements from one index up to another.
fn part_of<T>(elements: &[T], from: usize, to: usize) -> &[T]
    requires order { from ≤ to }
    requires within { to ≤ length elements.now }
    ensures { result.now ≡ between from to elements.now }
{
    &elements[from..to]
}

/// Puts ends behind others, counted from a base where they were counted from a start.
fn push_ends(new: &mut Vec<usize>, ends: &[usize], start: usize, base: usize)
    requires room { vec_len new.old + length ends.now ≤ vec_capacity new.old }
    requires order { All (λ end. start ≤ end) ends.now }
    requires fits { All (λ end. end - start + base < 2 ^ 64) ends.now }
    ensures { new.new.items ≡ new.old.items ++ map (λ end. end - start + base) ends.now }
{
    if start == base {
        push_same(new, ends);
    } else {
        push_moved(new, ends, start, base);
    }
}

/// Puts ends behind others as they are.
fn push_same(new: &mut Vec<usize>, ends: &[usize])
    requires { vec_len new.old + length ends.now ≤ vec_capacity new.old }
    ensures { new.new.items ≡ new.old.items ++ ends.now }
{
    let _room = new.extend_from_slice(ends);
}

/// Puts ends behind others, one by one.
fn push_moved(new: &mut Vec<usize>, ends: &[usize], start: usize, base: usize)
    requires room { vec_len new.old + length ends.now ≤ vec_capacity new.old }
    requires order { All (λ end. start ≤ end) ends.now }
    requires fits { All (λ end. end - start + base < 2 ^ 64) ends.now }
    ensures { new.new.items ≡ new.old.items ++ map (λ end. end - start + base) ends.now }
{
    for end in ends {
        new.push_reserved(*end - start + base);
    }
}

/// Whether two lists of chunks are the same.
fn are_same_chunks(left: &[[u8; CHUNK]], right: &[[u8; CHUNK]]) -> bool
    ensures { IsTrue result ↔ (left.now ≡ right.now) }
{
    left == right
}

/// Whether two lists of bytes are the same. They are compared chunk by chunk, which is many times as fast as byte by
/// byte.
fn are_same_bytes(left: &[u8], right: &[u8]) -> bool
    ensures { IsTrue result ↔ (left.now ≡ right.now) }
{
    let (chunks, rest) = left.as_chunks::<CHUNK>();
    let (other_chunks, other_rest) = right.as_chunks::<CHUNK>();
    are_same_chunks(chunks, other_chunks) && rest == other_rest
}

fn are_same_arrays(bytes: &[u8], other_bytes: &[u8], ends: &[usize], other_ends: &[usize]) -> bool
    ensures { IsTrue result ↔ ((bytes.now ≡ other_bytes.now) × (ends.now ≡ other_ends.now)) }
{
    ends == other_ends && are_same_bytes(bytes, other_bytes)
}

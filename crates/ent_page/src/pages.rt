//! Ordered lists of pages.
ghost use Rattle.std.specs.Prelude.{◌≡◌, ◌+◌, ◌<◌, ◌≤◌, ◌^◌, ◌++◌, ◌↔◌, [], IsTrue, IfOk, OnOk, length};
ghost use Rattle.std.specs.Prelude.{map, take, drop, get_or};
ghost use Rattle.std.specs.List.{flat_map, insert, AllByRecursion};
ghost use Rattle.std.specs.List.Sorted.{IsStrictlySortedBy};
ghost use Rattle.std.specs.Arc.{arc_value};
ghost use Rattle.std.specs.declared.cmp.Ordering.TheVariants.{Greater};
ghost use Rattle.ent_page.specs.Key.{key_cmp};
ghost use Rattle.ent_page.specs.Paged.{IsSized, AllBelow, AllAbove};
ghost use Rattle.ent_page.specs.Front.{StartsAt};

use crate::key::Key;
use crate::page::Page;
use crate::page_builder::PageBuilder;
use crate::page_cursor::PageCursor;
use crate::probe::Probe;
use std::alloc::{AllocError, Global};
use std::cmp::Ordering;
use std::sync::Arc;

/// The most keys of a page.
pub const PAGE_LIMIT: usize = 256;

/// How many keys a page gets that is made of sorted keys.
pub(crate) const PAGE_FILL: usize = 128;

/// Neighbours that have no more keys together than this become one page.
pub(crate) const JOIN_LIMIT: usize = 192;

/// The place of the page in which a key stands, if it stands in any; 0 where there is no page.
pub(crate) fn place_of<P: Probe>(pages: &[Arc<Page>], key: &P) -> usize
    requires sized { AllByRecursion (λ page. IsSized (arc_value page)) pages.now }
    requires sorted { IsStrictlySortedBy key_cmp (flat_map arc_value pages.now) }
    ensures within { 0 < length pages.now → result < length pages.now }
    ensures below { AllBelow (flat_map arc_value (take result pages.now)) (P.bytes key.now) }
    ensures above { AllAbove (flat_map arc_value (drop (result + 1) pages.now)) (P.bytes key.now) }
{
    let mut low = 0;
    let mut high = pages.len();
    while low < high {
        let middle = low + (high - low) / 2;
        if first_is_above(&pages[middle], key) {
            high = middle;
        } else {
            low = middle + 1;
        }
    }
    low.saturating_sub(1)
}

/// Whether the first key of a page is above a key.
fn first_is_above<P: Probe>(page: &Page, key: &P) -> bool
    requires { 0 < length page.now }
    ensures { IsTrue result ↔ (key_cmp (get_or page.now 0 []) (P.bytes key.now) ≡ Greater) }
{
    key.against(page.key(0)) == Ordering::Greater
}

/// A walk over the keys from the first that is not below a key.
pub(crate) fn walk_from<'a>(pages: &'a [Arc<Page>], key: &Key) -> PageCursor<'a>
    requires sized { AllByRecursion (λ page. IsSized (arc_value page)) pages.now }
    requires sorted { IsStrictlySortedBy key_cmp (flat_map arc_value pages.now) }
    ensures { StartsAt key.now (flat_map arc_value pages.now) result }
{
    let at = place_of(pages, key);
    if at >= pages.len() {
        return PageCursor::new(pages);
    }
    let page: &Page = &pages[at];
    let index = match page.search(key) {
        Ok(index) => index,
        Err(index) => index,
    };
    PageCursor::from_index(&pages[at..], index)
}

/// Sorted keys in pages.
pub(crate) fn pages_of(alloc: Global, keys: &[Key]) -> Result<Vec<Arc<Page>>, AllocError>
    ensures keys { IfOk result (λ pages. flat_map arc_value pages.items ≡ keys.now) }
    ensures sized { IfOk result (λ pages. AllByRecursion (λ page. IsSized (arc_value page)) pages.items) }
{
    let mut out = PageBuilder::new(alloc);
    for key in keys {
        out.push(alloc, key.as_bytes())?;
    }
    out.finish(alloc)
}

/// A list of one page.
pub(crate) fn single(alloc: Global, page: Page) -> Result<Vec<Arc<Page>>, AllocError>
    requires { IsSized page }
    ensures keys { IfOk result (λ pages. flat_map arc_value pages.items ≡ page) }
    ensures sized { IfOk result (λ pages. AllByRecursion (λ page. IsSized (arc_value page)) pages.items) }
{
    let mut pages = Vec::with_capacity(alloc, 1)?;
    pages.push(Arc::new(alloc, page)?)?;
    Ok(pages)
}

/// A page with a key put in at an index, or its two halves where it grows too large.
pub(crate) fn grown(
    alloc: Global,
    page: &Page,
    index: usize,
    key: &[u8],
) -> Result<Vec<Arc<Page>>, AllocError>
    requires sized { IsSized page.now }
    requires within { index ≤ length page.now }
    ensures keys { IfOk result (λ pages. flat_map arc_value pages.items ≡ insert page.now index key.now) }
    ensures sized { IfOk result (λ pages. AllByRecursion (λ page. IsSized (arc_value page)) pages.items) }
{
    let page = page.with(alloc, index, key)?;
    let len = page.len();
    if len <= PAGE_LIMIT {
        return single(alloc, page);
    }
    let mut pages = Vec::with_capacity(alloc, 2)?;
    pages.push(Arc::new(alloc, page.part(alloc, 0, len / 2)?)?)?;
    pages.push(Arc::new(alloc, page.part(alloc, len / 2, len)?)?)?;
    Ok(pages)
}

/// Pages with another page in the place of one. That page joins a neighbour where both are small.
pub(crate) fn shrunk(
    alloc: Global,
    pages: &[Arc<Page>],
    at: usize,
    page: Page,
) -> Result<Vec<Arc<Page>>, AllocError>
    requires sized { AllByRecursion (λ page. IsSized (arc_value page)) pages.now }
    requires within { at < length pages.now }
    requires page { length page ≤ PAGE_LIMIT }
    ensures keys { IfOk result (λ shrunk. flat_map arc_value shrunk.items
        ≡ flat_map arc_value (take at pages.now) ++ (page ++ flat_map arc_value (drop (at + 1) pages.now))) }
    ensures sized { IfOk result (λ pages. AllByRecursion (λ page. IsSized (arc_value page)) pages.items) }
{
    let len = page.len();
    if len == 0 {
        return spliced(alloc, pages, at, at + 1, Vec::new(alloc));
    }
    let room = JOIN_LIMIT - len.min(JOIN_LIMIT);
    if at + 1 < pages.len() && pages[at + 1].len() <= room {
        let joined = page.joined(alloc, &pages[at + 1])?;
        return spliced(alloc, pages, at, at + 2, single(alloc, joined)?);
    }
    if at > 0 && pages[at - 1].len() <= room {
        let joined = pages[at - 1].joined(alloc, &page)?;
        return spliced(alloc, pages, at - 1, at + 1, single(alloc, joined)?);
    }
    spliced(alloc, pages, at, at + 1, single(alloc, page)?)
}

/// Pages with others in the place of those from one index up to another. The pages that stay are shared.
pub(crate) fn spliced(
    alloc: Global,
    pages: &[Arc<Page>],
    from: usize,
    to: usize,
    others: Vec<Arc<Page>>,
) -> Result<Vec<Arc<Page>>, AllocError>
    requires order { from ≤ to }
    requires within { to ≤ length pages.now }
    requires sized { AllByRecursion (λ page. IsSized (arc_value page)) pages.now }
    requires others { AllByRecursion (λ page. IsSized (arc_value page)) others.items }
    ensures keys { IfOk result (λ spliced. flat_map arc_value spliced.items
        ≡ flat_map arc_value (take from pages.now)
        ++ (flat_map arc_value others.items ++ flat_map arc_value (drop to pages.now))) }
    ensures sized { IfOk result (λ pages. AllByRecursion (λ page. IsSized (arc_value page)) pages.items) }
{
    let mut spliced = Vec::with_capacity(alloc, pages.len() - to + from + others.len())?;
    push_shared(&mut spliced, &pages[..from])?;
    push_shared(&mut spliced, others.as_slice())?;
    push_shared(&mut spliced, &pages[to..])?;
    Ok(spliced)
}

/// Puts the same pages behind others.
pub(crate) fn push_shared(new: &mut Vec<Arc<Page>>, pages: &[Arc<Page>]) -> Result<(), AllocError>
    ensures { OnOk result (map arc_value new.new.items ≡ map arc_value new.old.items ++ map arc_value pages.now) }
{
    for page in pages {
        new.push(page.clone()?)?;
    }
    Ok(())
}

/// How many keys pages hold.
pub(crate) fn count_keys(pages: &[Arc<Page>]) -> usize
    requires { length (flat_map arc_value pages.now) < 2 ^ 64 }
    ensures { result ≡ length (flat_map arc_value pages.now) }
{
    let mut count = 0;
    for page in pages {
        count += page.len();
    }
    count
}

/// Whether pages hold the same keys. Pages are compared whole up to the first two that differ, and from
/// there key by key.
pub(crate) fn are_same_keys(left: &[Arc<Page>], right: &[Arc<Page>]) -> bool
    ensures { IsTrue result ↔ (flat_map arc_value left.now ≡ flat_map arc_value right.now) }
{
    let both = left.len().min(right.len());
    let mut same = 0;
    while same < both && left[same].is_same(&right[same]) {
        same += 1;
    }
    are_same_walks(&left[same..], &right[same..])
}

/// Whether pages hold the same keys, compared key by key.
fn are_same_walks(left: &[Arc<Page>], right: &[Arc<Page>]) -> bool
    ensures { IsTrue result ↔ (flat_map arc_value left.now ≡ flat_map arc_value right.now) }
{
    let mut mine = PageCursor::new(left);
    let mut others = PageCursor::new(right);
    while let Some(key) = mine.next_key() {
        match others.next_key() {
            Some(other) => {
                if key != other {
                    return false;
                }
            }
            None => return false,
        }
    }
    others.next_key().is_none()
}

//! Changes of many keys in one pass.
ghost use Rattle.std.specs.Prelude.{◌≡◌, ◌++◌, ◌∷◌, [], ◌||◌, cond, ◌↔◌, IsTrue, OnOk, IfOk, drop};
ghost use Rattle.std.specs.declared.cmp.Ordering.TheVariants.{Less};
ghost use Rattle.std.specs.List.{flat_map, AllByRecursion};
ghost use Rattle.std.specs.List.Sorted.{IsStrictlySortedBy};
ghost use Rattle.std.specs.Arc.{arc_value};
ghost use Rattle.ent_page.specs.Key.{key_cmp};
ghost use Rattle.ent_page.specs.Paged.{IsSized};
ghost use Rattle.ent_page.specs.Front.{NoneBelow, IsSplitAt};
ghost use Rattle.ent_page.specs.Changed.{has, IsChanged, IsSplitBefore, IsPut};

use crate::key::Key;
use crate::page::Page;
use crate::page_builder::PageBuilder;
use crate::probe::are_same_bytes;
use std::alloc::{AllocError, Global};
use std::cmp::Ordering;
use std::sync::Arc;

/// Pages without some keys and then with others, in one walk over the pages and both lists. Pages in which nothing
/// changes are shared.
pub(crate) fn changed_pages(
    alloc: Global,
    pages: &[Arc<Page>],
    removed: &[Key],
    added: &[Key],
) -> Result<Vec<Arc<Page>>, AllocError>
    requires sized { AllByRecursion (λ page. IsSized (arc_value page)) pages.now }
    requires pages { IsStrictlySortedBy key_cmp (flat_map arc_value pages.now) }
    requires removed { IsStrictlySortedBy key_cmp removed.now }
    requires added { IsStrictlySortedBy key_cmp added.now }
    ensures keys { IfOk result (λ after.
        IsChanged (flat_map arc_value pages.now) removed.now added.now (flat_map arc_value after.items)) }
    ensures sized { IfOk result (λ after. AllByRecursion (λ page. IsSized (arc_value page)) after.items) }
{
    let mut out = PageBuilder::new(alloc);
    let mut removed = removed;
    let mut added = added;
    for at in 0..pages.len() {
        let (gone, stay) = before_page(pages, at + 1, removed);
        let (new, later) = before_page(pages, at + 1, added);
        push_page(alloc, &mut out, &pages[at], gone, new)?;
        removed = stay;
        added = later;
    }
    push_all(alloc, &mut out, added)?;
    out.finish(alloc)
}

/// The keys that are below the first of a page, and the others. All are below a page that isn't there.
fn before_page<'a>(pages: &[Arc<Page>], at: usize, keys: &'a [Key]) -> (&'a [Key], &'a [Key])
    requires sized { AllByRecursion (λ page. IsSized (arc_value page)) pages.now }
    requires keys { IsStrictlySortedBy key_cmp keys.now }
    ensures { IsSplitBefore (flat_map arc_value (drop at pages.now)) keys.now result.0.now result.1.now }
{
    if at >= pages.len() {
        return (keys, &[]);
    }
    split_below(keys, pages[at].key(0))
}

/// Puts a page's keys without some and with others at the end.
fn push_page(
    alloc: Global,
    out: &mut PageBuilder,
    page: &Arc<Page>,
    removed: &[Key],
    added: &[Key],
) -> Result<(), AllocError>
    requires sized { IsSized (arc_value page.now) }
    requires page { IsStrictlySortedBy key_cmp (arc_value page.now) }
    requires removed { IsStrictlySortedBy key_cmp removed.now }
    requires added { IsStrictlySortedBy key_cmp added.now }
    ensures { OnOk result (IsPut (IsChanged (arc_value page.now) removed.now added.now) out.old out.new) }
{
    if removed.is_empty() && added.is_empty() {
        return out.share(alloc, page);
    }
    push_changed(alloc, out, page, removed, added)
}

/// Puts keys without some and with others at the end.
fn push_changed(
    alloc: Global,
    out: &mut PageBuilder,
    page: &Page,
    removed: &[Key],
    added: &[Key],
) -> Result<(), AllocError>
    requires page { IsStrictlySortedBy key_cmp page.now }
    requires removed { IsStrictlySortedBy key_cmp removed.now }
    requires added { IsStrictlySortedBy key_cmp added.now }
    ensures { OnOk result (IsPut (IsChanged page.now removed.now added.now) out.old out.new) }
{
    let mut removed = removed;
    let mut added = added;
    for index in 0..page.len() {
        let key = page.key(index);
        let (below, later) = split_below(added, key);
        push_all(alloc, out, below)?;
        let (_, stay) = split_below(removed, key);
        push_unless(alloc, out, key, stay, later)?;
        removed = stay;
        added = later;
    }
    push_all(alloc, out, added)
}

/// Puts a key at the end unless it is the first of one of two lists.
fn push_unless(
    alloc: Global,
    out: &mut PageBuilder,
    key: &[u8],
    removed: &[Key],
    added: &[Key],
) -> Result<(), AllocError>
    requires removed { IsStrictlySortedBy key_cmp removed.now }
    requires added { IsStrictlySortedBy key_cmp added.now }
    requires none_removed { NoneBelow removed.now key.now }
    requires none_added { NoneBelow added.now key.now }
    ensures { OnOk result (out.new ≡ out.old ++
        cond (has removed.now key.now || has added.now key.now) [] (key.now ∷ [])) }
{
    if begins(removed, key) || begins(added, key) {
        return Ok(());
    }
    out.push(alloc, key)
}

/// Puts keys at the end.
fn push_all(alloc: Global, out: &mut PageBuilder, keys: &[Key]) -> Result<(), AllocError>
    ensures { OnOk result (out.new ≡ out.old ++ keys.now) }
{
    for key in keys {
        out.push(alloc, key.as_bytes())?;
    }
    Ok(())
}

/// The keys that are below another, and the others.
fn split_below<'a>(keys: &'a [Key], bound: &[u8]) -> (&'a [Key], &'a [Key])
    requires { IsStrictlySortedBy key_cmp keys.now }
    ensures { IsSplitAt bound.now keys.now result.0.now result.1.now }
{
    for (at, key) in keys.iter().enumerate() {
        if !is_below(key, bound) {
            return keys.split_at(at);
        }
    }
    (keys, &[])
}

/// Whether a key is among sorted keys of which none is below it.
fn begins(keys: &[Key], key: &[u8]) -> bool
    requires sorted { IsStrictlySortedBy key_cmp keys.now }
    requires from { NoneBelow keys.now key.now }
    ensures { result ≡ has keys.now key.now }
{
    keys.len() > 0 && are_same_bytes(keys[0].as_bytes(), key)
}

fn is_below(key: &Key, bound: &[u8]) -> bool
    ensures { IsTrue result ↔ (key_cmp key.now bound.now ≡ Less) }
{
    key.as_bytes().cmp(bound) == Ordering::Less
}

//! Pages that are made of keys in order.
ghost use Rattle.std.specs.Prelude.{◌≡◌, ◌++◌, ◌∷◌, [], OnOk, IfOk};
ghost use Rattle.std.specs.List.{flat_map, AllByRecursion};
ghost use Rattle.std.specs.Arc.{arc_value};
ghost use Rattle.ent_page.specs.Paged.{IsSized, AreSized};

use crate::page::Page;
use crate::pages::{JOIN_LIMIT, PAGE_FILL};
use std::alloc::{AllocError, Global};
use std::marker::Model;
use std::mem;
use std::sync::Arc;

/// Pages that are made one after another, and the page that is being filled. Contracts see the keys so far.
#[derive(Drop)]
pub(crate) struct PageBuilder {
    pages: Vec<Arc<Page>>,
    page: Page,
}

impl Model for PageBuilder {
    ghost use Rattle.std.specs.Prelude.{ℕ, List, ◌++◌};
    ghost use Rattle.std.specs.List.{flat_map};
    ghost use Rattle.std.specs.Arc.{arc_value};
    ghost use Rattle.ent_page.specs.Paged.{AreSized};

    ghost Value = { List (List ℕ) };

    ghost view = { λ b. flat_map arc_value b.pages.items ++ b.page };

    ghost invariant = { λ b. AreSized arc_value b.pages.items b.page };
}

impl PageBuilder {
    /// No key yet. It takes no memory.
    pub(crate) fn new(alloc: Global) -> Self
        ensures { result ≡ [] }
    {
        PageBuilder {
            pages: Vec::new(alloc),
            page: Page::new(alloc),
        }
    }

    /// Puts a key at the end.
    pub(crate) fn push(&mut self, alloc: Global, key: &[u8]) -> Result<(), AllocError>
        ensures { OnOk result (self.new ≡ self.old ++ key.now ∷ []) }
    {
        if self.page.len() >= PAGE_FILL {
            close(alloc, &mut self.pages, &mut self.page)?;
        }
        self.page.push(key)
    }

    /// Puts the keys of a page at the end. The page is shared, unless it is joined with the one before it.
    pub(crate) fn share(&mut self, alloc: Global, page: &Arc<Page>) -> Result<(), AllocError>
        requires { IsSized (arc_value page.now) }
        ensures { OnOk result (self.new ≡ self.old ++ arc_value page.now) }
    {
        close(alloc, &mut self.pages, &mut self.page)?;
        put_page(alloc, &mut self.pages, page.clone()?)
    }

    /// The pages.
    pub(crate) fn finish(self, alloc: Global) -> Result<Vec<Arc<Page>>, AllocError>
        ensures keys { IfOk result (λ pages. flat_map arc_value pages.items ≡ self) }
        ensures sized { IfOk result (λ pages. AllByRecursion (λ page. IsSized (arc_value page)) pages.items) }
    {
        let mut pages = self.pages;
        let mut page = self.page;
        close(alloc, &mut pages, &mut page)?;
        Ok(pages)
    }
}

/// Puts a page behind others unless it is empty, and leaves an empty one.
fn close(alloc: Global, pages: &mut Vec<Arc<Page>>, page: &mut Page) -> Result<(), AllocError>
    requires { AreSized arc_value pages.old.items page.old }
    ensures keys { OnOk result (flat_map arc_value pages.new.items ≡ flat_map arc_value pages.old.items ++ page.old) }
    ensures empty { page.new ≡ [] }
    ensures sized { AllByRecursion (λ page. IsSized (arc_value page)) pages.new.items }
{
    let full = mem::replace(page, Page::new(alloc));
    if full.len() == 0 {
        return Ok(());
    }
    put_page(alloc, pages, Arc::new(alloc, full)?)
}

/// Puts a page behind others. It joins the last where both are small.
fn put_page(alloc: Global, pages: &mut Vec<Arc<Page>>, page: Arc<Page>) -> Result<(), AllocError>
    requires sized { AllByRecursion (λ page. IsSized (arc_value page)) pages.old.items }
    requires page { IsSized (arc_value page) }
    ensures keys { OnOk result (flat_map arc_value pages.new.items
        ≡ flat_map arc_value pages.old.items ++ arc_value page) }
    ensures sized { AllByRecursion (λ page. IsSized (arc_value page)) pages.new.items }
{
    match pages.pop() {
        None => pages.push(page)?,
        Some(last) => {
            if last.len() + page.len() > JOIN_LIMIT {
                pages.push(last)?;
                pages.push(page)?;
            } else {
                let joined = last.joined(alloc, &page)?;
                pages.push(Arc::new(alloc, joined)?)?;
            }
        }
    }
    Ok(())
}

//! Books that are left by cores which were closed.
ghost use Rattle.std.specs.Prelude.{◌≡◌};
ghost use Rattle.ent_renewal.specs.Finished.{IsLeft};

use ent_book::NamedTable;
use ent_semantics::Book;
use ent_value::Sequence;
use std::marker::Model;

/// The book of a core that was closed. Contracts see the book; its type keeps that the opening has no fault of form,
/// and that the book is finished.
#[derive(Drop)]
pub struct FinishedBook {
    book: Book<Sequence<NamedTable>>,
}

impl Model for FinishedBook {
    ghost use Rattle.std.specs.Coded.{codes};
    ghost use Rattle.std.specs.Prelude.{List};
    ghost use Rattle.ent_rel.specs.Relation.{coded_relation};
    ghost use Rattle.ent_semantics.specs.declared.book.Book.{Book};
    ghost use Rattle.ent_book.specs.declared.table.NamedTable.{NamedTable};
    ghost use Rattle.ent_renewal.specs.Finished.{IsLeft};

    ghost Value = { Book (List NamedTable) };

    ghost coded = { Prim.hlevel (codes, coded_relation) };

    ghost view = { λ f. f.book };

    ghost invariant = { λ f. IsLeft f.book };
}

impl FinishedBook {
    /// What `Core::close` gives.
    pub fn new(book: Book<Sequence<NamedTable>>) -> Self
        requires { IsLeft book }
        ensures { result ≡ book }
    {
        FinishedBook { book }
    }

    pub fn book(&self) -> &Book<Sequence<NamedTable>>
        ensures book { result.now ≡ self.now }
        ensures left { IsLeft self.now }
    {
        &self.book
    }
}

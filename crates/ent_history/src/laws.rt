//! Laws of what a report tells. Nothing here has a body; what holds is in the contracts.
ghost use Rattle.std.specs.Prelude.{◌≡◌, map, length};
ghost use Rattle.std.specs.List.{range_with_len};
ghost use Rattle.ent_semantics.specs.declared.book.Book.{Book};
ghost use Rattle.ent_semantics.specs.Database.{Database};
ghost use Rattle.ent_book.specs.Report2.{report_2_text};
ghost use Rattle.ent_history.specs.Text.{history_text};
ghost use Rattle.ent_history.specs.Told.{told_by};

/// The report of a book whose fates are those of its transactions by number, from 1 on, is the text of what it tells.
#[tactic(auto, using(crate::proofs::Reported::reported))]
pub fn reports_tell_of_books()
    ensures { (book : Book Database)
        → map (λ fated. fated.tx) book.fates ≡ range_with_len 1 (length book.fates)
        → report_2_text book ≡ history_text (told_by book) }
{}

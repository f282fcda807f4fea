//! Laws of tables that are declared. Nothing here has a body but calls of laws; what holds is in the contracts.
ghost use Rattle.std.specs.Prelude.{◌≡◌, List, None};
ghost use Rattle.ent_tree.specs.declared.declaration.Create.{Create};
ghost use Rattle.ent_tree.specs.declared.declaration.Opening.{Opening};
ghost use Rattle.ent_tree.specs.declared.script.Script.{Script};
ghost use Rattle.ent_form.specs.OpeningFault.{opening_fault};
ghost use Rattle.ent_semantics.specs.Database.{Database, Name};
ghost use Rattle.ent_semantics.specs.declared.book.Book.{Book};
ghost use Rattle.ent_protocol.specs.Reached.{CanClose, IsFinishedBook, IsReached, book_of};
ghost use Rattle.ent_protocol.specs.State.{State};
ghost use Rattle.ent_headline.specs.Resolved.{resolved_forms};
ghost use Rattle.ent_renewal.specs.Renewal.{HoldsTablesOf, drained, present_database};

use ent_form::FormFault;
use ent_headline::resolved_runs_keep_kinds;
use ent_protocol::reached_states_are_tidy;

/// A finished book over an opening without a fault holds the tables that the opening declares, with rows of the kinds
/// of their columns.
pub fn finished_books_hold_their_tables()
    ensures { (opening : Opening) (scripts : List Script) (book : Book Database)
        → opening_fault opening ≡ None
        → IsFinishedBook resolved_forms opening scripts book
        → HoldsTablesOf opening.tables book.database }
{
    resolved_runs_keep_kinds();
}

/// Where a state that is reached over an opening without a fault can be closed, the tables as they stand are those of
/// its book, and those that the opening declares, with rows of the kinds of their columns.
pub fn states_at_rest_hold_their_tables()
    ensures settled { (s : State)
        → IsReached resolved_forms s
        → CanClose s
        → (book_of s).database ≡ present_database s }
    ensures holds { (s : State)
        → opening_fault s.opening ≡ None
        → IsReached resolved_forms s
        → CanClose s
        → HoldsTablesOf s.opening.tables (present_database s) }
{
    reached_states_are_tidy::<FormFault>();
    resolved_runs_keep_kinds();
}

/// Tables are still those that are declared where some of them are emptied.
pub(crate) fn drained_tables_are_held()
    ensures { (declared : List Create) (names : List Name) (database : Database)
        → HoldsTablesOf declared database
        → HoldsTablesOf declared (drained names database) }
{}

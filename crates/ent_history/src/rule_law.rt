//! Laws of the rules. Nothing here has a body; what holds is in the contracts.
ghost use Rattle.std.specs.Prelude.{◌≡◌, ◌↔◌, [], length};
ghost use Rattle.ent_semantics.specs.Book.{IsLegal};
ghost use Rattle.ent_history.specs.declared.history.History.{History};
ghost use Rattle.ent_history.specs.Told.{book_of, commits};
ghost use Rattle.ent_history.specs.Account.{accounts, commit_count};
ghost use Rattle.ent_history.specs.Findings.{findings};
ghost use Rattle.ent_history.specs.Formed.{IsFormed};

use ent_semantics::statements_keep_to_their_uses;

/// Of a history that is told in its form nothing is found exactly where its book is legal.
pub fn nothing_is_found_where_books_are_legal()
    ensures { (history : History) → IsFormed history → (findings history ≡ []) ↔ IsLegal (book_of history) }
{
    statements_keep_to_their_uses();
}

/// Where each script has a fate, as many transactions have committed as are told to have.
#[tactic(auto, using(crate::proofs::Bridge::counts_are))]
pub fn commits_are_counted()
    ensures { (history : History) → length history.transactions ≡ length history.scripts
        → commits history.transactions ≡ commit_count (accounts history) }
{}

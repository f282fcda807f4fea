//! Laws of the protocol. Nothing here has a body; what holds is in the contracts.
ghost use Rattle.std.specs.Prelude.{◌≡◌, ◌↔◌, ℕ, true, false, length, List, Some};
ghost use Rattle.ent_tree.specs.declared.declaration.Opening.{Opening};
ghost use Rattle.ent_tree.specs.declared.script.Script.{Script};
ghost use Rattle.ent_semantics.specs.Database.{Database};
ghost use Rattle.ent_semantics.specs.declared.book.Book.{Book};
ghost use Rattle.ent_protocol.specs.Event.{Event, Reply};
ghost use Rattle.ent_protocol.specs.Numbers.{AreNumbered};
ghost use Rattle.ent_protocol.specs.Play.{IsPlayed, Plays, is_idle};
ghost use Rattle.ent_protocol.specs.Reached.{CanClose, IsFinishedBook, IsGatheredAt, IsReached, LeadsTo};
ghost use Rattle.ent_protocol.specs.Reached.{book_of, closing, opened, scripts_of, settled};
ghost use Rattle.ent_protocol.specs.Run.{Forms};
ghost use Rattle.ent_protocol.specs.State.{State};
ghost use Rattle.ent_protocol.specs.Step.{Step};
ghost use Rattle.ent_protocol.specs.Tidy.{IsTidy};

/// A refusal, and the reply that there is nothing to do, leave the state as it was.
pub fn refusals_change_nothing<F>()
    ensures { (forms : Forms F) (s : State) (event : Event) (reply : Reply F) (new : State)
        → Step forms s event reply new
        → is_idle reply ≡ true
        → new ≡ s }
{}

/// In every state that is reached: where no run is on there is no member, and the settled database is the present
/// tables; what is noted of changes is of members.
pub fn reached_states_are_tidy<F>()
    ensures tidy { (forms : Forms F) (s : State) → IsReached forms s → IsTidy s }
    ensures settled { (forms : Forms F) (s : State)
        → IsReached forms s
        → s.running ≡ false
        → settled s ≡ s.tables }
{}

/// In every state that is reached the transactions that have committed are those of the journal, with the numbers of
/// their entries.
pub fn commits_are_numbered<F>()
    ensures { (forms : Forms F) (s : State) → IsReached forms s → AreNumbered s }
{}

/// A play from an opening's own state leads to a state that is reached.
pub fn plays_lead_on<F>()
    ensures { (forms : Forms F) (opening : Opening) (events : List (Event × Reply F)) (last : State)
        → Plays forms (opened opening) events last
        → (n : ℕ) × LeadsTo forms n (opened opening) last }
{}

/// A play of an input leads to a state that is reached from the state that the input's submits made.
pub fn played_states_are_gathered<F>()
    ensures { (forms : Forms F) (opening : Opening) (scripts : List Script) (events : List Event)
        (replies : List (Reply F)) (last : State)
        → IsPlayed forms opening scripts events replies last
        → IsGatheredAt forms (length scripts) last }
{}

/// Closing gives the state's book exactly where no run is on and nothing is dormant; of a state that is reached it is a
/// finished book, and all its finished books are given so.
pub fn closing_gives_the_book<F>()
    ensures exact { (s : State) (book : Book Database) → (closing s ≡ Some book) ↔ (CanClose s × (book ≡ book_of s)) }
    ensures finished { (forms : Forms F) (s : State) (book : Book Database)
        → IsReached forms s
        → closing s ≡ Some book
        → IsFinishedBook forms s.opening (scripts_of s) book }
    ensures given { (forms : Forms F) (opening : Opening) (scripts : List Script) (book : Book Database)
        → IsFinishedBook forms opening scripts book
        → (s : State) × IsReached forms s × (closing s ≡ Some book) }
{}

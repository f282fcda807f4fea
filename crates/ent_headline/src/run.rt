//! Laws of states that are reached by scripts resolved over an opening without a fault.
ghost use Rattle.std.specs.Prelude.{◌≡◌, ◌⊎◌, ◌∷◌, [], ℕ, Contains, List, None};
ghost use Rattle.ent_tree.specs.declared.declaration.Opening.{Opening};
ghost use Rattle.ent_tree.specs.declared.script.Script.{Script};
ghost use Rattle.ent_form.specs.declared.fault.FormFault.{FormFault};
ghost use Rattle.ent_form.specs.OpeningFault.{opening_fault};
ghost use Rattle.ent_protocol_laws.specs.Answered.{HasAsked, IsAnsweredOnce, NothingElse};
ghost use Rattle.ent_protocol_laws.specs.Conflicts.{ConflictsStandInGroups};
ghost use Rattle.ent_protocol_laws.specs.GoodAnswers.{AnswersAreGood};
ghost use Rattle.ent_protocol_laws.specs.GroupAnswers.{GroupAnswers, HaveGroups};
ghost use Rattle.ent_protocol_laws.specs.GroupRuns.{GroupRuns, UnownedIsSettled};
ghost use Rattle.ent_protocol_laws.specs.Present.{LentIsPresent, UsesAreApart};
ghost use Rattle.ent_protocol_laws.specs.SerialState.{IsSerialState};
ghost use Rattle.ent_protocol.specs.Event.{Finish, JoinAnswer, Reply};
ghost use Rattle.ent_protocol.specs.Job.{Done};
ghost use Rattle.ent_protocol.specs.Play.{Plays};
ghost use Rattle.ent_protocol.specs.Reached.{IsFinishedBook, IsReached, book_of, opened};
ghost use Rattle.ent_protocol.specs.State.{State};
ghost use Rattle.ent_protocol.specs.Step.{Step};
ghost use Rattle.ent_headline.specs.Outstanding.{IsHandedBack, IsOutstanding, IsOutstandingTogether};
ghost use Rattle.ent_headline.specs.Resolved.{resolved_forms};
ghost use Rattle.ent_headline.specs.Setting.{bare_opening, one, setter_commits};
ghost use Rattle.ent_semantics.specs.Book.{IsLegal, JournalIsRight, RunGivesBook, book_read_views};
ghost use Rattle.ent_semantics.specs.Database.{Database};
ghost use Rattle.ent_semantics.specs.declared.answer.Answer.TheVariants.{Value};
ghost use Rattle.ent_semantics.specs.declared.book.Book.{Book};
ghost use Rattle.ent_semantics.specs.Joint.{IsGrounded};
ghost use Rattle.ent_semantics.specs.Serial.{ReadView, Turn};

use crate::form::resolved_forms_are_faithful;
use ent_form::FormFault;
use ent_protocol::plays_lead_on;
use ent_protocol_laws::{
    committed_runs_give_the_book, conflicts_stand_in_groups,
    entangled_statements_are_answered_once, groups_run_alone, joint_answers_are_good,
    journals_fit_the_fates, lent_jobs_are_present, lent_jobs_stand_once,
    live_answers_are_good_in_groups, reached_states_are_legal, reached_states_are_serial,
};

/// Every state that is reached is a serial state: the committed transactions, run alone in the order of their commits,
/// give the settled database, and the members of the run, each once, one after the other from there, give the present
/// tables.
pub fn resolved_runs_are_serial()
    ensures { (s : State) → opening_fault s.opening ≡ None → IsReached resolved_forms s → IsSerialState s }
{
    resolved_forms_are_faithful();
    reached_states_are_serial::<FormFault>();
}

/// In every state that is reached the committed transactions, run alone in the order of their commits with some answers
/// of an oracle, give the answers and the database of the book; each answer of the oracle is a grounding over the
/// database that its statement sees.
pub fn resolved_runs_give_the_book()
    ensures { (s : State)
        → opening_fault s.opening ≡ None
        → IsReached resolved_forms s
        → (turns : List Turn)
        × RunGivesBook (book_of s) turns
        × ((read_view : ReadView)
        → Contains (book_read_views (book_of s) turns) read_view
        → IsGrounded s.opening.tables read_view) }
{
    resolved_forms_are_faithful();
    committed_runs_give_the_book::<FormFault>();
}

/// In every state that is reached the journal and the fates fit together: each transaction has one fate at most and one
/// entry at most, and it has committed with a number exactly where the entry of that number is its own.
pub fn resolved_journals_fit_the_fates()
    ensures { (s : State)
        → opening_fault s.opening ≡ None
        → IsReached resolved_forms s
        → JournalIsRight (book_of s) }
{
    resolved_forms_are_faithful();
    journals_fit_the_fates::<FormFault>();
}

/// In every state that is reached the book is legal.
pub fn resolved_runs_are_legal()
    ensures { (s : State)
        → opening_fault s.opening ≡ None
        → IsReached resolved_forms s
        → IsLegal (book_of s) }
{
    resolved_forms_are_faithful();
    reached_states_are_legal::<FormFault>();
}

/// In every state that is reached members of two groups hold no conflicting uses, and neither do two members that
/// aren't prepared. A lent job of one statement is its member's next one, and the tables that a job uses are the
/// present ones: of one statement always, of a joint one where its members are exactly a component.
pub fn resolved_jobs_are_present()
    ensures apart { (s : State)
        → opening_fault s.opening ≡ None
        → IsReached resolved_forms s
        → UsesAreApart s }
    ensures present { (s : State)
        → opening_fault s.opening ≡ None
        → IsReached resolved_forms s
        → LentIsPresent s }
{
    resolved_forms_are_faithful();
    lent_jobs_are_present::<FormFault>();
}

/// In every state that is reached members whose uses are in conflict are of one group, and of two of them at least one
/// is prepared.
pub fn resolved_conflicts_stand_in_groups()
    ensures { (s : State)
        → opening_fault s.opening ≡ None
        → IsReached resolved_forms s
        → ConflictsStandInGroups s }
{
    resolved_forms_are_faithful();
    conflicts_stand_in_groups::<FormFault>();
}

/// In every state that is reached each entangled statement that a transaction has passed, which has committed or is a
/// member, stands in exactly one of the joint answers that were made and not rolled back; and nothing else stands in
/// one.
pub fn resolved_entangled_statements_are_answered_once()
    ensures once { (s : State) (tx place : ℕ)
        → opening_fault s.opening ≡ None
        → IsReached resolved_forms s
        → HasAsked s tx place
        → IsAnsweredOnce s tx place }
    ensures nothing_else { (s : State)
        → opening_fault s.opening ≡ None
        → IsReached resolved_forms s
        → NothingElse s }
{
    resolved_forms_are_faithful();
    entangled_statements_are_answered_once::<FormFault>();
}

/// In every state that is reached a group runs alone: what its prepared members did, one after the other from the
/// settled database, gives their answers; so does what each other member of it did, from there, and the tables that
/// this one uses stand as that run leaves them. A table that nobody uses exclusively is the settled one.
pub fn resolved_groups_run_alone()
    ensures runs { (s : State) (group : ℕ)
        → opening_fault s.opening ≡ None
        → IsReached resolved_forms s
        → GroupRuns s group }
    ensures settled { (s : State)
        → opening_fault s.opening ≡ None
        → IsReached resolved_forms s
        → UnownedIsSettled s }
{
    resolved_forms_are_faithful();
    groups_run_alone::<FormFault>();
}

/// In every state that is reached each joint answer that was made and not rolled back is good over the run that gives
/// the present tables: its members are of distinct transactions, each grounding is one over the database that its
/// statement sees there, and what one of them demands one of them offers.
pub fn resolved_answers_are_good()
    ensures { (s : State)
        → opening_fault s.opening ≡ None
        → IsReached resolved_forms s
        → AnswersAreGood s }
{
    resolved_forms_are_faithful();
    joint_answers_are_good::<FormFault>();
}

/// In every state that is reached each joint answer of members is of one group, and good over what this group's members
/// did, run alone as `resolved_groups_run_alone` says: each grounding is one over the database that its statement sees
/// in that run, of the prepared members one after the other from the settled database, of each other member from where
/// they end; and what a member of the joint answer demands one of its members offers.
pub fn resolved_answers_are_good_in_groups()
    ensures one_group { (s : State)
        → opening_fault s.opening ≡ None
        → IsReached resolved_forms s
        → HaveGroups s }
    ensures good { (s : State) (group : ℕ)
        → opening_fault s.opening ≡ None
        → IsReached resolved_forms s
        → GroupAnswers s group }
{
    resolved_forms_are_faithful();
    live_answers_are_good_in_groups::<FormFault>();
}

/// In every state that is reached a result is accepted only where it is outstanding: its job is lent, its transaction
/// stands where it stood, in the same attempt, and the tables are the present ones where its statements use them.
/// Another one is handed back, and the state is as it was.
pub fn accepted_results_are_outstanding()
    ensures one { (s : State) (done : Done) (reply : Reply FormFault) (new : State)
        → opening_fault s.opening ≡ None
        → IsReached resolved_forms s
        → Step resolved_forms s (Finish done) reply new
        → IsOutstanding s done ⊎ IsHandedBack s done reply new }
    ensures together { (s : State) (done : Done) (reply : Reply FormFault) (new : State)
        → opening_fault s.opening ≡ None
        → IsReached resolved_forms s
        → Step resolved_forms s (JoinAnswer done) reply new
        → IsOutstandingTogether s done ⊎ IsHandedBack s done reply new }
{
    resolved_jobs_are_present();
    lent_jobs_stand_once::<FormFault>();
}

/// Each finished book of an opening without a fault and of some scripts is legal.
pub fn finished_books_are_legal()
    ensures { (opening : Opening) (scripts : List Script) (book : Book Database)
        → opening_fault opening ≡ None
        → IsFinishedBook resolved_forms opening scripts book
        → IsLegal book }
{
    resolved_runs_are_legal();
}

/// A script that binds a host variable is resolved over an opening without a fault, and commits: so there is a state of
/// which the laws above say something.
pub fn a_resolved_script_commits()
    ensures { (last : State)
        × Plays resolved_forms (opened bare_opening) setter_commits last
        × (opening_fault last.opening ≡ None)
        × IsReached resolved_forms last
        × (last.journal ≡ record { tx = 1; answers = Value one ∷ [] } ∷ []) }
{
    plays_lead_on::<FormFault>();
}

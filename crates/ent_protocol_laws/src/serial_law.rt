//! Laws of reached states. What holds is in the contracts; the bodies only call laws of lower crates.
ghost use Rattle.std.specs.Prelude.{ℕ, Contains, List};
ghost use Rattle.ent_protocol.specs.Reached.{IsReached, book_of};
ghost use Rattle.ent_protocol.specs.Run.{Forms};
ghost use Rattle.ent_protocol.specs.State.{State};
ghost use Rattle.ent_semantics.specs.Book.{IsLegal, JournalIsRight, RunGivesBook, book_read_views};
ghost use Rattle.ent_semantics.specs.Joint.{IsGrounded};
ghost use Rattle.ent_semantics.specs.Serial.{ReadView, Turn};
ghost use Rattle.ent_protocol_laws.specs.Answered.{HasAsked, IsAnsweredOnce, NothingElse};
ghost use Rattle.ent_protocol_laws.specs.Conflicts.{ConflictsStandInGroups};
ghost use Rattle.ent_protocol_laws.specs.Faithful.{AreFaithful};
ghost use Rattle.ent_protocol_laws.specs.GoodAnswers.{AnswersAreGood};
ghost use Rattle.ent_protocol_laws.specs.GroupAnswers.{GroupAnswers, HaveGroups};
ghost use Rattle.ent_protocol_laws.specs.GroupRuns.{GroupRuns, UnownedIsSettled};
ghost use Rattle.ent_protocol_laws.specs.Present.{LentIsPresent, UsesAreApart};
ghost use Rattle.ent_protocol_laws.specs.SerialState.{IsSerialState};

use ent_protocol::commits_are_numbered;
use ent_semantics::{closing_keeps_the_meaning, runs_go_on, statements_keep_to_their_uses};

/// Every state that is reached is a serial state: the committed transactions, run alone in the order of their commits,
/// give the settled database, and the members of the run, each once, one after the other from there, give the present
/// tables.
pub fn reached_states_are_serial<F>()
    ensures { (forms : Forms F) (s : State)
        → AreFaithful forms s.opening
        → IsReached forms s
        → IsSerialState s }
{
    statements_keep_to_their_uses();
    runs_go_on();
    closing_keeps_the_meaning();
}

/// In every state that is reached the committed transactions, run alone in the order of their commits with some answers
/// of an oracle, give the answers and the database of the book; each answer of the oracle is a grounding over the
/// database that its statement sees.
pub fn committed_runs_give_the_book<F>()
    ensures { (forms : Forms F) (s : State)
        → AreFaithful forms s.opening
        → IsReached forms s
        → (turns : List Turn)
        × RunGivesBook (book_of s) turns
        × ((read_view : ReadView)
        → Contains (book_read_views (book_of s) turns) read_view
        → IsGrounded s.opening.tables read_view) }
{
    statements_keep_to_their_uses();
    runs_go_on();
    closing_keeps_the_meaning();
}

/// In every state that is reached the journal and the fates fit together: each transaction has one fate at most and one
/// entry at most, and it has committed with a number exactly where the entry of that number is its own.
pub fn journals_fit_the_fates<F>()
    ensures { (forms : Forms F) (s : State)
        → AreFaithful forms s.opening
        → IsReached forms s
        → JournalIsRight (book_of s) }
{
    statements_keep_to_their_uses();
    runs_go_on();
    closing_keeps_the_meaning();
    commits_are_numbered::<F>();
}

/// In every state that is reached the book is legal: its journal and its fates fit together; the committed
/// transactions, run alone in the order of their commits with some answers of an oracle, give what the book says; each
/// entangled statement of that run stands in one joint answer, with the oracle's answer, and nothing else stands in
/// one; and each joint answer is good over that run.
pub fn reached_states_are_legal<F>()
    ensures { (forms : Forms F) (s : State)
        → AreFaithful forms s.opening
        → IsReached forms s
        → IsLegal (book_of s) }
{
    statements_keep_to_their_uses();
    runs_go_on();
    closing_keeps_the_meaning();
    commits_are_numbered::<F>();
}

/// In every state that is reached members of two groups hold no conflicting uses, and neither do two members that
/// aren't prepared. A lent job of one statement is its member's next one, and the tables that a job uses are the
/// present ones: of one statement always, of a joint one where its members are exactly a component.
pub fn lent_jobs_are_present<F>()
    ensures apart { (forms : Forms F) (s : State)
        → AreFaithful forms s.opening
        → IsReached forms s
        → UsesAreApart s }
    ensures present { (forms : Forms F) (s : State)
        → AreFaithful forms s.opening
        → IsReached forms s
        → LentIsPresent s }
{
    statements_keep_to_their_uses();
    runs_go_on();
    closing_keeps_the_meaning();
}

/// In every state that is reached members whose uses are in conflict are of one group, and of two of them at least one
/// is prepared.
pub fn conflicts_stand_in_groups<F>()
    ensures { (forms : Forms F) (s : State)
        → AreFaithful forms s.opening
        → IsReached forms s
        → ConflictsStandInGroups s }
{
    lent_jobs_are_present::<F>();
}

/// In every state that is reached each entangled statement that a transaction has passed, which has committed or is a
/// member, stands in exactly one of the joint answers that were made and not rolled back; and nothing else stands in
/// one.
pub fn entangled_statements_are_answered_once<F>()
    ensures once { (forms : Forms F) (s : State) (tx place : ℕ)
        → AreFaithful forms s.opening
        → IsReached forms s
        → HasAsked s tx place
        → IsAnsweredOnce s tx place }
    ensures nothing_else { (forms : Forms F) (s : State)
        → AreFaithful forms s.opening
        → IsReached forms s
        → NothingElse s }
{
    statements_keep_to_their_uses();
    runs_go_on();
    closing_keeps_the_meaning();
}

/// In every state that is reached a group runs alone: what its prepared members did, one after the other from the
/// settled database, gives their answers; so does what each other member of it did, from there, and the tables that
/// this one uses stand as that run leaves them. A table that nobody uses exclusively is the settled one.
pub fn groups_run_alone<F>()
    ensures runs { (forms : Forms F) (s : State) (group : ℕ)
        → AreFaithful forms s.opening
        → IsReached forms s
        → GroupRuns s group }
    ensures settled { (forms : Forms F) (s : State)
        → AreFaithful forms s.opening
        → IsReached forms s
        → UnownedIsSettled s }
{
    statements_keep_to_their_uses();
    runs_go_on();
    closing_keeps_the_meaning();
}

/// In every state that is reached each joint answer that was made and not rolled back is good over the run that gives
/// the present tables: its members are of distinct transactions, each grounding is one over the database that its
/// statement sees there, and what one of them demands one of them offers.
pub fn joint_answers_are_good<F>()
    ensures { (forms : Forms F) (s : State)
        → AreFaithful forms s.opening
        → IsReached forms s
        → AnswersAreGood s }
{
    statements_keep_to_their_uses();
    runs_go_on();
    closing_keeps_the_meaning();
}

/// In every state that is reached each joint answer of members is of one group, and good over what this group's members
/// did, run alone as `groups_run_alone` says: each grounding is one over the database that its statement sees in that
/// run, of the prepared members one after the other from the settled database, of each other member from where they
/// end; and what a member of the joint answer demands one of its members offers.
pub fn live_answers_are_good_in_groups<F>()
    ensures one_group { (forms : Forms F) (s : State)
        → AreFaithful forms s.opening
        → IsReached forms s
        → HaveGroups s }
    ensures good { (forms : Forms F) (s : State) (group : ℕ)
        → AreFaithful forms s.opening
        → IsReached forms s
        → GroupAnswers s group }
{
    statements_keep_to_their_uses();
    runs_go_on();
    closing_keeps_the_meaning();
}

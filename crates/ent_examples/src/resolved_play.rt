//! Plays of resolved scripts. Nothing here has a body of its own; what holds is in the contracts.
ghost use Rattle.std.specs.Prelude.{◌≡◌, ◌∷◌, ◌++◌, [], Some, codes, map};
ghost use Rattle.ent_tree.specs.declared.script.End.TheVariants.{Commit, Rollback};
ghost use Rattle.ent_semantics.specs.Book.{IsLegal};
ghost use Rattle.ent_semantics.specs.declared.book.Fate.TheVariants.{Committed, GaveUp, RolledBack};
ghost use Rattle.ent_protocol.specs.Reached.{book_of, closing, committed_joints, opened};
ghost use Rattle.ent_protocol.specs.State.{State};
ghost use Rattle.ent_examples.specs.Partners.{flight_122, partners_opening, partners_pass};
ghost use Rattle.ent_examples.specs.Earlier.{job_outlives, next_attempt};
ghost use Rattle.ent_examples.specs.Grown.{A_for_B, B_for_A, C_for_A};
ghost use Rattle.ent_examples.specs.HeldBack.{holds_back, mickey, minnie, posts_later};
ghost use Rattle.ent_examples.specs.Ring.{B_for_C, ring_closes, ring_commits};
ghost use Rattle.ent_examples.specs.WrittenScripts.{LeadTo, posted, booking, partners};

use crate::play::{
    job_outlives_its_attempt, partner_passes_a_prepared_lock, ring_commits_together,
    third_is_held_back,
};
use ent_form::FormFault;
use ent_headline::resolved_runs_are_legal;
use ent_protocol::plays_lead_on;
use ent_protocol_laws::events_keep_the_input;

/// Two partners are answered together, each with flight 122, and book it; both commit in one event, and their joint
/// answer stands in the book, which is legal.
pub fn a_pair_commits()
    ensures { (last : State)
        × LeadTo (partners_pass partners) last
        × (last.fates ≡ record { tx = 1; fate = Committed 1 1 } ∷ record { tx = 2; fate = Committed 2 1 } ∷ [])
        × (committed_joints last
        ≡ record {
          members = record { tx = 1; place = 1; grounding = flight_122 ∷ [] }
              ∷ record { tx = 2; place = 1; grounding = flight_122 ∷ [] } ∷ [];
        } ∷ [])
        × IsLegal (book_of last) }
{
    partner_passes_a_prepared_lock::<FormFault>();
    plays_lead_on::<FormFault>();
    events_keep_the_input::<FormFault>();
    resolved_runs_are_legal();
}

/// Three who ask for each other in a ring are answered by one job, and commit in one event. The book that closing gives
/// then is legal, and has the one joint answer of all three.
pub fn a_ring_of_three_commits()
    ensures { (last : State)
        × LeadTo
        (ring_closes (posted 8 A_for_B Commit) (posted 8 B_for_C Commit) (posted 8 C_for_A Commit) ++ ring_commits)
        last
        × (last.fates
        ≡ record { tx = 1; fate = Committed 1 1 } ∷ record { tx = 2; fate = Committed 2 1 }
        ∷ record { tx = 3; fate = Committed 3 1 } ∷ [])
        × (map (λ joint. map (λ member. member.tx) joint.members) (committed_joints last) ≡ (1 ∷ 2 ∷ 3 ∷ []) ∷ [])
        × (closing last ≡ Some (book_of last))
        × IsLegal (book_of last) }
{
    ring_commits_together::<FormFault>();
    plays_lead_on::<FormFault>();
    events_keep_the_input::<FormFault>();
    resolved_runs_are_legal();
}

/// A pair is answered together, and the second one rolls back while the first one books: nobody has committed, the
/// first one waits for its next run, and the tables are as they were opened.
pub fn a_rollback_leaves_nobody_committed()
    ensures { (last : State)
        × LeadTo
        (job_outlives (booking 8 A_for_B (codes "A") Commit) (posted 8 B_for_A Rollback) ++ next_attempt)
        last
        × (last.fates ≡ record { tx = 2; fate = RolledBack 1 } ∷ [])
        × (last.dormant ≡ record { tx = 1; runs = 2 } ∷ [])
        × (last.tables ≡ (opened partners_opening).tables)
        × IsLegal (book_of last) }
{
    job_outlives_its_attempt::<FormFault>();
    plays_lead_on::<FormFault>();
    events_keep_the_input::<FormFault>();
    resolved_runs_are_legal();
}

/// A third who offers what the second does is held back, and is posted once the two have committed. Nobody answers it,
/// and with its run it gives up; then the book is given, which is legal.
pub fn an_unsafe_third_posts_later()
    ensures { (last : State)
        × LeadTo
        (holds_back (posted 8 mickey Commit) (posted 8 minnie Commit) (posted 1 minnie Commit) ++ posts_later)
        last
        × (last.fates
        ≡ record { tx = 1; fate = Committed 1 1 } ∷ record { tx = 2; fate = Committed 2 1 }
        ∷ record { tx = 3; fate = GaveUp 1 } ∷ [])
        × (closing last ≡ Some (book_of last))
        × IsLegal (book_of last) }
{
    third_is_held_back::<FormFault>();
    plays_lead_on::<FormFault>();
    events_keep_the_input::<FormFault>();
    resolved_runs_are_legal();
}

//! Plays. Nothing here has a body; what holds is in the contracts.
ghost use Rattle.std.specs.Prelude.{◌≡◌, ◌∷◌, ◌++◌, [], None, Some, codes, false, map};
ghost use Rattle.ent_tree.specs.declared.script.End.TheVariants.{Commit, Rollback};
ghost use Rattle.ent_semantics.specs.declared.book.Fate.TheVariants.{Committed, Failed, GaveUp, RolledBack};
ghost use Rattle.ent_semantics.specs.declared.answer.Failure.TheVariants.{Overflow};
ghost use Rattle.ent_semantics.specs.declared.operand.Known.TheVariants.{Constant};
ghost use Rattle.ent_protocol.specs.Lookup.{Dormant, Finished, standing};
ghost use Rattle.ent_protocol.specs.Play.{Plays};
ghost use Rattle.ent_protocol.specs.Reached.{IsReached, book_of, closing, committed_joints, opened};
ghost use Rattle.ent_protocol.specs.Run.{Forms};
ghost use Rattle.ent_protocol.specs.State.{State, members};
ghost use Rattle.ent_examples.specs.Pairs.{Askers, pairs_commit};
ghost use Rattle.ent_examples.specs.Partners.{Partners, flight_122, partners_opening, partners_pass};
ghost use Rattle.ent_examples.specs.Writers.{insert_forms, two_writers, writers_opening};
ghost use Rattle.ent_examples.specs.Busy.{cycle_stands, deletes_form, is_busy};
ghost use Rattle.ent_examples.specs.Earlier.{job_outlives, next_attempt};
ghost use Rattle.ent_examples.specs.Failure.{partner_gives_up, set_fails, sets_too_much};
ghost use Rattle.ent_examples.specs.Grown.{A_for_B, B_for_A, C_for_A, all_are_answered, job_is_late};
ghost use Rattle.ent_examples.specs.HeldBack.{holds_back, mickey, minnie, posts_later};
ghost use Rattle.ent_examples.specs.Linked.{B_for_C, C_for_B, first_link, second_link, updates_form};
ghost use Rattle.ent_examples.specs.Ring as ring;
ghost use Rattle.ent_examples.specs.Ring.{ring_closes, ring_commits};
ghost use Rattle.ent_examples.specs.Scripts.{ScriptOf, asks_form, books_form};
ghost use Rattle.ent_examples.specs.Shrunk.{C_for_D, D_for_C, comes_and_goes, group_forms, is_picked_again};
ghost use Rattle.ent_examples.specs.Twice.{joint_comes_twice, single_comes_twice};

/// Two writers take two tables in turn and wait for each other: the greater one is rolled back and goes to the dormant
/// list, and the other one commits.
pub fn two_writers_deadlock()
    ensures { (last : State)
        × Plays insert_forms (opened writers_opening) two_writers last
        × (last.fates ≡ record { tx = 1; fate = Committed 1 1 } ∷ [])
        × (last.dormant ≡ record { tx = 2; runs = 1 } ∷ [])
        × (standing last 1 ≡ Some (Finished (Committed 1 1)))
        × (standing last 2 ≡ Some (Dormant 1))
        × (standing last 3 ≡ None)
        × (closing last ≡ None) }
{}

/// Two partners are answered together; one prepares, and the other passes its lock, which blocks a reader; both commit
/// in one event, and their joint answer is kept. So there are states that are reached in which a pair has committed.
pub fn partner_passes_a_prepared_lock<F>()
    ensures { (resolved : Forms F) (partners : Partners resolved)
        → (last : State)
        × Plays resolved (opened partners_opening) (partners_pass partners) last
        × IsReached resolved last
        × (last.fates
        ≡ record { tx = 1; fate = Committed 1 1 } ∷ record { tx = 2; fate = Committed 2 1 } ∷ [])
        × (committed_joints last
        ≡ record {
          members = record { tx = 1; place = 1; grounding = flight_122 ∷ [] }
              ∷ record { tx = 2; place = 1; grounding = flight_122 ∷ [] } ∷ [];
        } ∷ []) }
{}

/// Two pairs are answered one after the other, and the second one commits first: the journal has the pairs in the order
/// of their commits, and the joint answers stand in the order in which they were made.
pub fn joint_answers_stand_as_made<F>()
    ensures { (resolved : Forms F) (askers : Askers resolved)
        → (last : State)
        × Plays resolved (opened partners_opening) (pairs_commit askers) last
        × (map (λ entry. entry.tx) (book_of last).journal ≡ 3 ∷ 4 ∷ 1 ∷ 2 ∷ [])
        × (map (λ joint. map (λ member. member.tx) joint.members) (book_of last).joint_answers
        ≡ (1 ∷ 2 ∷ []) ∷ (3 ∷ 4 ∷ []) ∷ []) }
{}

/// A third who offers what the second does is held back, and is posted once the two have committed. Nobody answers it,
/// and with its run it gives up; then the book is given.
pub fn third_is_held_back<F>()
    ensures { (resolved : Forms F) (one : ScriptOf resolved 8 (asks_form mickey ∷ []) Commit)
        (two : ScriptOf resolved 8 (asks_form minnie ∷ []) Commit)
        (third : ScriptOf resolved 1 (asks_form minnie ∷ []) Commit)
        → (last : State)
        × Plays resolved (opened partners_opening) (holds_back one two third ++ posts_later) last
        × (last.fates
        ≡ record { tx = 1; fate = Committed 1 1 } ∷ record { tx = 2; fate = Committed 2 1 }
        ∷ record { tx = 3; fate = GaveUp 1 } ∷ [])
        × (closing last ≡ Some (book_of last)) }
{}

/// Of three whom two joint answers link, one is prepared, and another changes the row of that one and rolls back: all
/// three are taken out, the tables are as they were opened, and no joint answer is left.
pub fn linked_roll_back_together<F>()
    ensures { (resolved : Forms F)
        (one : ScriptOf resolved 2 (asks_form A_for_B ∷ books_form (codes "A") ∷ []) Commit)
        (two : ScriptOf resolved 2 (asks_form B_for_A ∷ asks_form B_for_C ∷ []) Commit)
        (three : ScriptOf resolved 8 (asks_form C_for_B ∷ updates_form ∷ []) Rollback)
        → (last : State)
        × Plays resolved (opened partners_opening) (first_link one two three ++ second_link) last
        × (last.fates ≡ record { tx = 3; fate = RolledBack 1 } ∷ [])
        × (last.dormant ≡ record { tx = 1; runs = 1 } ∷ record { tx = 2; runs = 1 } ∷ [])
        × (members last ≡ [])
        × (last.joints ≡ [])
        × (last.tables ≡ (opened partners_opening).tables) }
{}

/// A result is taken once, and by the event for its kind; in every other case it is handed back, and nothing changes.
pub fn results_are_taken_once<F>()
    ensures { (resolved : Forms F)
        (one : ScriptOf resolved 8 (asks_form mickey ∷ books_form (codes "Mickey") ∷ []) Commit)
        (two : ScriptOf resolved 8 (asks_form minnie ∷ books_form (codes "Minnie") ∷ []) Commit)
        → (last : State)
        × Plays resolved (opened partners_opening) (joint_comes_twice one two ++ single_comes_twice) last
        × (last.fates ≡ record { tx = 1; fate = Committed 1 1 } ∷ record { tx = 2; fate = Committed 2 1 } ∷ [])
        × (last.running ≡ false) }
{}

/// The result of a job is stale once its group was rolled back, also while the next attempt is at the same script.
pub fn job_outlives_its_attempt<F>()
    ensures { (resolved : Forms F)
        (one : ScriptOf resolved 8 (asks_form A_for_B ∷ books_form (codes "A") ∷ []) Commit)
        (two : ScriptOf resolved 8 (asks_form B_for_A ∷ []) Rollback)
        → (last : State)
        × Plays resolved (opened partners_opening) (job_outlives one two ++ next_attempt) last
        × (last.fates ≡ record { tx = 2; fate = RolledBack 1 } ∷ [])
        × (last.dormant ≡ record { tx = 1; runs = 2 } ∷ [])
        × (last.tables ≡ (opened partners_opening).tables) }
{}

/// A component that grew while its job was out: the old result is stale, and the three are answered by another job.
/// The old job is still lent when all have committed, and the run may end.
pub fn component_grows<F>()
    ensures { (resolved : Forms F) (one : ScriptOf resolved 8 (asks_form A_for_B ∷ []) Commit)
        (two : ScriptOf resolved 8 (asks_form B_for_A ∷ []) Commit)
        (three : ScriptOf resolved 8 (asks_form C_for_A ∷ []) Commit)
        → (last : State)
        × Plays resolved (opened partners_opening) (job_is_late one two three ++ all_are_answered) last
        × (last.fates
        ≡ record { tx = 1; fate = Committed 1 1 } ∷ record { tx = 2; fate = Committed 2 1 }
        ∷ record { tx = 3; fate = Committed 3 1 } ∷ [])
        × (map (λ joint. map (λ member. member.tx) joint.members) (committed_joints last) ≡ (1 ∷ 2 ∷ 3 ∷ []) ∷ [])
        × (closing last ≡ Some (book_of last)) }
{}

/// Three who ask for each other in a ring, each for the next, are answered by one job, and commit in one event.
pub fn ring_commits_together<F>()
    ensures { (resolved : Forms F) (one : ScriptOf resolved 8 (asks_form A_for_B ∷ []) Commit)
        (two : ScriptOf resolved 8 (asks_form ring.B_for_C ∷ []) Commit)
        (three : ScriptOf resolved 8 (asks_form C_for_A ∷ []) Commit)
        → (last : State)
        × Plays resolved (opened partners_opening) (ring_closes one two three ++ ring_commits) last
        × (last.fates
        ≡ record { tx = 1; fate = Committed 1 1 } ∷ record { tx = 2; fate = Committed 2 1 }
        ∷ record { tx = 3; fate = Committed 3 1 } ∷ [])
        × (map (λ joint. map (λ member. member.tx) joint.members) (committed_joints last) ≡ (1 ∷ 2 ∷ 3 ∷ []) ∷ [])
        × (closing last ≡ Some (book_of last)) }
{}

/// A component that grew and shrank back by a rollback: its job isn't lent any more, and the same job is lent again.
pub fn component_shrinks_back<F>()
    ensures { (resolved : Forms F) (one : ScriptOf resolved 8 (asks_form A_for_B ∷ []) Commit)
        (two : ScriptOf resolved 8 (asks_form B_for_A ∷ []) Commit)
        (three : ScriptOf resolved 8 (asks_form C_for_D ∷ asks_form C_for_A ∷ []) Commit)
        (four : ScriptOf resolved 8 (asks_form D_for_C ∷ []) Rollback)
        → (last : State)
        × Plays resolved (opened partners_opening)
        (group_forms one two three four ++ (comes_and_goes ++ is_picked_again)) last
        × (last.fates
        ≡ record { tx = 4; fate = RolledBack 1 } ∷ record { tx = 1; fate = Committed 1 1 }
        ∷ record { tx = 2; fate = Committed 2 1 } ∷ [])
        × (last.dormant ≡ record { tx = 3; runs = 1 } ∷ [])
        × (map (λ joint. map (λ member. member.tx) joint.members) (committed_joints last) ≡ (1 ∷ 2 ∷ []) ∷ []) }
{}

/// While something can happen the run can't end, and the reason is told: who can begin, the component that is untried,
/// whose job is out, and the cycle in which each waits for the other. Broken, it takes both back, and the run ends.
pub fn run_is_busy<F>()
    ensures { (resolved : Forms F) (one : ScriptOf resolved 8 (asks_form mickey ∷ deletes_form ∷ []) Commit)
        (two : ScriptOf resolved 8 (asks_form minnie ∷ deletes_form ∷ []) Commit)
        → (last : State)
        × Plays resolved (opened partners_opening) (is_busy one two ++ cycle_stands) last
        × (last.fates ≡ [])
        × (last.dormant ≡ record { tx = 1; runs = 1 } ∷ record { tx = 2; runs = 1 } ∷ [])
        × (last.tables ≡ (opened partners_opening).tables)
        × (closing last ≡ None) }
{}

/// A statement of one fails: it has its fate, and its partner, prepared already, goes back with it and has its other
/// run, in which it gives up.
pub fn failure_takes_the_group_back<F>()
    ensures { (resolved : Forms F)
        (one : ScriptOf resolved 8 (asks_form mickey ∷ sets_too_much Constant ∷ []) Commit)
        (two : ScriptOf resolved 2 (asks_form minnie ∷ []) Commit)
        → (last : State)
        × Plays resolved (opened partners_opening) (set_fails one two ++ partner_gives_up) last
        × (last.fates ≡ record { tx = 1; fate = Failed Overflow 1 } ∷ record { tx = 2; fate = GaveUp 2 } ∷ [])
        × (closing last ≡ Some (book_of last)) }
{}

//! Laws of reached states. What holds is in the contracts.
ghost use Rattle.std.specs.Prelude.{◌≡◌, ◌≤◌, ℕ, ◌+◌, length};
ghost use Rattle.std.specs.List.{AllByRecursion};
ghost use Rattle.ent_tree.specs.declared.limits.TheConstants.{MOST_SCRIPTS};
ghost use Rattle.ent_group.specs.declared.members.TheConstants.{MOST_MEMBERS};
ghost use Rattle.ent_semantics.specs.Pool.{IsSafe};
ghost use Rattle.ent_protocol.specs.Event.{Event, Reply};
ghost use Rattle.ent_protocol.specs.Member.{pool};
ghost use Rattle.ent_protocol.specs.Reached.{IsReached};
ghost use Rattle.ent_protocol.specs.Run.{Forms};
ghost use Rattle.ent_protocol.specs.State.{State, members};
ghost use Rattle.ent_protocol.specs.Step.{Step};
ghost use Rattle.ent_protocol_laws.specs.Attempts.{AskForMost, AsksForRun, StayBelow, StayWithin};
ghost use Rattle.ent_protocol_laws.specs.ByNumber.{StandByNumber};
ghost use Rattle.ent_protocol_laws.specs.Declared.{LentIsDeclared};
ghost use Rattle.ent_protocol_laws.specs.Groups.{GroupsAreClasses};
ghost use Rattle.ent_protocol_laws.specs.Lent.{LentStandOnce};
ghost use Rattle.ent_protocol_laws.specs.Standing.{GoesOn, StandOnce};

/// Every event keeps the opening, and the list of scripts that were submitted grows at its end alone.
pub fn steps_go_on<F>()
    ensures { (forms : Forms F) (s : State) (event : Event) (reply : Reply F) (new : State)
        → Step forms s event reply new
        → GoesOn s new }
{}

/// In every state that is reached each transaction that was submitted is a member, is dormant or has a fate: one of
/// these, and once. So members are distinct; and there are 64 at most.
pub fn transactions_stand_once<F>()
    ensures once { (forms : Forms F) (s : State) → IsReached forms s → StandOnce s }
    ensures bound { (forms : Forms F) (s : State) → IsReached forms s → length (members s) ≤ MOST_MEMBERS }
{}

/// In every state that is reached those with a fate, the dormant ones and the members are as many as were submitted.
pub fn transactions_are_counted<F>()
    ensures { (forms : Forms F) (s : State) → IsReached forms s
        → length s.fates + length s.dormant + length (members s) ≡ length s.submitted }
{}

/// In every state that is reached no more scripts were submitted than there may be, so no transaction is of a greater
/// number.
pub fn scripts_are_few<F>()
    ensures { (forms : Forms F) (s : State) → IsReached forms s → length s.submitted ≤ MOST_SCRIPTS }
{}

/// In every state that is reached members are of distinct numbers; those that aren't prepared stand by number, and so
/// do the statements in the pool.
pub fn members_stand_by_number<F>()
    ensures { (forms : Forms F) (s : State) → IsReached forms s → StandByNumber s }
{}

/// In every state that is reached in which each script asks for one run at least, nobody took part in more runs than
/// its script asks for, and whoever is dormant in fewer. So where no script asks for more than a number of runs, no
/// count of runs goes beyond it.
pub fn attempts_stay_within<F>()
    ensures own { (forms : Forms F) (s : State) → IsReached forms s → AllByRecursion AsksForRun s.submitted
        → StayWithin s }
    ensures bound { (forms : Forms F) (s : State) (most : ℕ) → IsReached forms s
        → AllByRecursion AsksForRun s.submitted
        → AskForMost most s
        → StayBelow most s }
{}

/// In every state that is reached a lent job stands once: two jobs of a statement are of two transactions, and two
/// joint jobs aren't of the same statements. The member of a job of one statement stands before it, in this attempt and
/// at this place, neither posted nor prepared.
pub fn lent_jobs_stand_once<F>()
    ensures { (forms : Forms F) (s : State) → IsReached forms s → LentStandOnce s }
{}

/// In every state that is reached each table that a lent job sees has the kinds of columns that are declared under its
/// number.
pub fn lent_tables_are_declared<F>()
    ensures { (forms : Forms F) (s : State) → IsReached forms s → LentIsDeclared s }
{}

/// In every state that is reached the groups are the classes of the least equivalence on the members that joins those
/// of a live joint answer.
pub fn groups_are_classes<F>()
    ensures { (forms : Forms F) (s : State) → IsReached forms s → GroupsAreClasses s }
{}

/// In every state that is reached the pool is safe: each post of a statement in it unifies with a head of one statement
/// in it at most.
pub fn pools_are_safe<F>()
    ensures { (forms : Forms F) (s : State) → IsReached forms s → IsSafe (pool s) }
{}

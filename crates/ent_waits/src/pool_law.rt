//! Laws of the pool. None has a body; what holds is in the contracts.
ghost use Rattle.std.specs.Prelude.{◌≡◌, ◌<◌, ◌≤◌, AllPairs, Contains, List, false, filter, length, map, not, ℕ};
ghost use Rattle.std.specs.List.{AllByRecursion};
ghost use Rattle.ent_value.specs.declared.value.Value.{Value};
ghost use Rattle.ent_tree.specs.declared.script.Script.{Script};
ghost use Rattle.ent_semantics.specs.Entangled.{Valuation};
ghost use Rattle.ent_semantics.specs.declared.entangled.Entangled.{Entangled};
ghost use Rattle.ent_semantics.specs.declared.operand.Known.{Known};
ghost use Rattle.ent_semantics.specs.declared.statement.Statement.{Statement};
ghost use Rattle.ent_semantics.specs.Pool.{Posted};
ghost use Rattle.ent_match.specs.Fault.{IsByNumber};
ghost use Rattle.ent_match.specs.Posting.{Adds};
ghost use Rattle.ent_protocol.specs.Begin.{posting, with_member};
ghost use Rattle.ent_protocol.specs.Member.{Asks, is_tx, next_of, pool, posted_as};
ghost use Rattle.ent_protocol.specs.PoolEvents.{joining};
ghost use Rattle.ent_protocol.specs.Rollback.{Cause, is_among, taken_out};
ghost use Rattle.ent_protocol.specs.Run.{submitting};
ghost use Rattle.ent_protocol.specs.State.{Member, State};
ghost use Rattle.ent_waits.specs.Pooled.{is_of_none};

/// A member that posts its statement: the pool has that statement more, and stands by number.
pub fn posting_adds_a_statement()
    ensures { (s : State) (member : Member) (statement : Entangled Value) (posted : List Posted)
        → AllPairs (λ (one other : Member). one.tx < other.tx) s.active
        → Contains s.active member
        → member.posted ≡ false
        → next_of s member ≡ Asks statement
        → Adds (pool s) posted (posted_as member statement)
        → IsByNumber posted
        → pool (posting s member statement) ≡ posted }
{}

/// Posted statements that are answered leave the pool, and the others stay.
pub fn answered_statements_leave()
    ensures { (s : State) (asked : List Posted) (groundings : List Valuation)
        → length groundings ≡ length asked
        → pool (joining s asked groundings) ≡ filter (is_of_none (map (λ query. query.tx) asked)) (pool s) }
{}

/// Members that are taken out of the run take their statements with them, and the others stay.
pub fn leaving_members_withdraw()
    ensures { (gone : List Member) (cause : Cause) (s : State)
        → pool (taken_out gone cause s) ≡ filter (λ query. not (is_among gone query.tx)) (pool s) }
{}

/// A member that hasn't posted may step on, hold uses, or leave for those that are prepared: the pool stays.
pub fn unposted_members_keep_the_pool()
    ensures replaced { (s : State) (new : Member)
        → new.posted ≡ false
        → ((member : Member) → Contains s.active member → member.tx ≡ new.tx → member.posted ≡ false)
        → pool (with_member new s) ≡ pool s }
    ensures left { (s : State) (tx : ℕ)
        → ((member : Member) → Contains s.active member → member.tx ≡ tx → member.posted ≡ false)
        → pool (record s { active = filter (λ member. not (is_tx tx member)) s.active }) ≡ pool s }
{}

/// A script more keeps the pool, where each member's own script was submitted.
pub fn submitted_scripts_keep_the_pool()
    ensures { (s : State) (script : Script) (form : List (Statement Known))
        → AllByRecursion (λ (member : Member). member.tx ≤ length s.submitted) s.active
        → pool (submitting s script form) ≡ pool s }
{}

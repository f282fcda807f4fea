//! Laws of what is lent. What holds is in the contracts.
ghost use Rattle.std.specs.Prelude.{◌≡◌, ◌<◌, All, Contains, List, None, length};
ghost use Rattle.ent_value.specs.declared.value.Value.{Value};
ghost use Rattle.ent_semantics.specs.FormKinds.{changed_tables};
ghost use Rattle.ent_semantics.specs.declared.statement.Statement.{Statement};
ghost use Rattle.ent_job.specs.Work.{IsJoint, IsOne};
ghost use Rattle.ent_form.specs.OpeningFault.{opening_fault};
ghost use Rattle.ent_semantics.specs.Pool.{Posted};
ghost use Rattle.ent_protocol.specs.Begin.{single_job};
ghost use Rattle.ent_protocol.specs.Member.{Ordinary, next_of};
ghost use Rattle.ent_protocol.specs.PoolEvents.{IsPresentComponent, joint_job, joint_uses};
ghost use Rattle.ent_protocol.specs.Reached.{IsReached};
ghost use Rattle.ent_protocol.specs.State.{State, Member};
ghost use Rattle.ent_protocol.specs.Waits.{next_uses};
ghost use Rattle.ent_headline.specs.Resolved.{resolved_forms};

use crate::kinds::next_statements_fit;
use crate::reached::{posted_heads_are_distinct, posted_variables_are_ranged};
use ent_eval::{components_stand_alone, lent_tables_stand};
use ent_form::{FormFault, resolved_statements_fit};
use ent_protocol_laws::pools_are_safe;

/// In every state that is reached by scripts resolved over their opening, the tables that a member's next statement
/// uses, and the one that it changes, are declared; so are those that posted statements of a component use.
pub fn used_tables_are_declared()
    ensures next { (s : State) (member : Member)
        → IsReached resolved_forms s
        → All (λ own. own.table < length s.opening.tables) (next_uses (next_of s member)) }
    ensures changed { (s : State) (member : Member) (statement : Statement Value)
        → IsReached resolved_forms s
        → next_of s member ≡ Ordinary statement
        → All (λ table. table < length s.opening.tables) (changed_tables statement) }
    ensures joint { (s : State) (asked : List Posted)
        → IsReached resolved_forms s
        → IsPresentComponent s asked
        → All (λ own. own.table < length s.opening.tables) (joint_uses asked) }
{
    resolved_statements_fit();
}

/// The next statement of a member that isn't prepared, where it is an ordinary one, is the work of a job with the
/// present tables that it uses.
pub fn begun_statements_are_work()
    ensures { (s : State) (member : Member) (statement : Statement Value)
        → opening_fault s.opening ≡ None
        → IsReached resolved_forms s
        → Contains s.active member
        → next_of s member ≡ Ordinary statement
        → IsOne (record { tx = member.tx; attempt = member.attempt; place = member.place; statement = statement })
        (single_job s member statement).tables }
{
    lent_tables_stand();
    next_statements_fit();
}

/// Posted statements that are exactly a component of the pool are the work of a joint job with the present tables that
/// they use.
pub fn picked_statements_fit()
    ensures { (s : State) (asked : List Posted)
        → IsReached resolved_forms s
        → IsPresentComponent s asked
        → IsJoint asked (joint_job s asked).tables }
{
    components_stand_alone();
    lent_tables_stand();
    pools_are_safe::<FormFault>();
    posted_heads_are_distinct();
    posted_variables_are_ranged();
}

//! Laws of settled tables and of members that aren't prepared, over an opening without a fault. What holds is in the
//! contracts.
ghost use Rattle.std.specs.Prelude.{◌≡◌, Contains, None, map};
ghost use Rattle.ent_value.specs.declared.value.Value.{Value};
ghost use Rattle.ent_semantics.specs.declared.statement.Statement.{Statement};
ghost use Rattle.ent_semantics.specs.FormKinds.{Fits, tables_named};
ghost use Rattle.ent_form.specs.Catalogue.{schemas_of};
ghost use Rattle.ent_form.specs.OpeningFault.{opening_fault};
ghost use Rattle.ent_form.specs.TableKinds.{kinds_numbered};
ghost use Rattle.ent_protocol.specs.Begin.{single_job};
ghost use Rattle.ent_protocol.specs.Member.{Ordinary, next_of};
ghost use Rattle.ent_protocol.specs.Reached.{IsReached};
ghost use Rattle.ent_protocol.specs.State.{State, Member};
ghost use Rattle.ent_headline.specs.Kinds.{HasKindsThere, HoldsKinds};
ghost use Rattle.ent_headline.specs.Resolved.{resolved_forms};

use crate::run::resolved_runs_are_serial;
use ent_form::{
    declared_columns_are_distinct, effects_keep_kinds, groundings_are_of_their_kinds,
    kinded_tables_are_wide, opening_tables_are_kinded, resolved_grounds_the_same,
    resolved_means_the_same, resolved_statements_fit, variables_are_the_written_ones,
};
use ent_semantics::closing_keeps_the_meaning;

/// In every state that is reached by scripts resolved over an opening without a fault, the settled tables have the
/// kinds that are declared, and each host variable that is known to resolving at the place of a member that isn't
/// prepared has a value of the kind that is known.
pub fn resolved_runs_keep_kinds()
    ensures { (s : State)
        → opening_fault s.opening ≡ None
        → IsReached resolved_forms s
        → HoldsKinds s }
{
    closing_keeps_the_meaning();
    effects_keep_kinds();
    groundings_are_of_their_kinds();
    kinded_tables_are_wide();
    opening_tables_are_kinded();
    resolved_statements_fit();
    declared_columns_are_distinct();
    resolved_grounds_the_same();
    resolved_means_the_same();
    variables_are_the_written_ones();
    resolved_runs_are_serial();
}

/// In every such state, each host variable that is known to resolving at the place of a member that isn't prepared has
/// a value of the kind that is known.
pub fn host_variables_have_kinds()
    ensures { (s : State) (member : Member)
        → opening_fault s.opening ≡ None
        → IsReached resolved_forms s
        → Contains s.active member
        → HasKindsThere s member }
{
    resolved_runs_keep_kinds();
}

/// The next statement of such a member, where it is an ordinary one, fits the kinds of the tables that it names, as
/// they are declared; so it fits those of the job that is lent where the member begins.
pub fn next_statements_fit()
    ensures declared { (s : State) (member : Member) (statement : Statement Value)
        → opening_fault s.opening ≡ None
        → IsReached resolved_forms s
        → Contains s.active member
        → next_of s member ≡ Ordinary statement
        → Fits (map (kinds_numbered (schemas_of s.opening.tables)) (tables_named statement)) statement }
    ensures lent { (s : State) (member : Member) (statement : Statement Value)
        → opening_fault s.opening ≡ None
        → IsReached resolved_forms s
        → Contains s.active member
        → next_of s member ≡ Ordinary statement
        → Fits (map (λ seen. seen.kinds) (single_job s member statement).tables) statement }
{
    host_variables_have_kinds();
    resolved_statements_fit();
}

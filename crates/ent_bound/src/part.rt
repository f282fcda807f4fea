//! Parts of a script in which host variables may stand.
ghost use Rattle.std.specs.Prelude.{◌≡◌, IfOk};
ghost use Rattle.std.specs.List.{list_any};
ghost use Rattle.ent_bound.specs.Bound.{bound_value};
ghost use Rattle.ent_bound.specs.Values.{is_variable};

use crate::variable::BoundVariable;
use ent_value::Name;
use std::alloc::{AllocError, Global};

/// A part of a script in which host variables may stand.
pub(crate) trait Part: Sized {
    ghost use Rattle.std.specs.Prelude.{List};
    ghost use Rattle.ent_tree.specs.declared.operand.ValueSpecification.{ValueSpecification as Known};

    ghost values: { Self → List Known };

    ghost over: { (Known → Known) → Self → Self };

    /// Whether it uses the host variable of a name.
    fn uses(&self, name: &Name) -> bool
        ensures { result ≡ list_any (is_variable name.now) (values self.now) };

    /// A copy in which bound values stand in the place of host variables.
    fn bound(&self, alloc: Global, variables: &[BoundVariable]) -> Result<Self, AllocError>
        ensures { IfOk result (λ made. made ≡ over (bound_value variables.now) self.now) };
}

//! Entangled statements.
ghost use Rattle.std.specs.Prelude.{◌≡◌, IfOk};
ghost use Rattle.ent_closing.specs.Environment.{environment_of};

use crate::closing::{Closing, closed_list};
use crate::environment::Environment;
use ent_semantics::{Atom, Binding, Entangled, Known, Membership};
use ent_tree::Duplicate;
use ent_value::Value;
use std::alloc::{AllocError, Global};

impl Closing for Atom<Known> {
    type Closed = Atom<Value>;

    ghost use Rattle.ent_semantics.specs.Closing.{atom_over};
    ghost use Rattle.ent_semantics.specs.Form.{known_worth};

    ghost closing = { λ environment atom. atom_over (known_worth environment) atom };

    fn closed(&self, alloc: Global, environment: &Environment) -> Result<Atom<Value>, AllocError> {
        let relation = self.relation.copy(alloc)?;
        let terms = closed_list(alloc, environment, &self.terms)?;
        Ok(Atom { relation, terms })
    }
}

impl Closing for Membership<Known> {
    type Closed = Membership<Value>;

    ghost use Rattle.ent_semantics.specs.Closing.{membership_over};
    ghost use Rattle.ent_semantics.specs.Form.{known_worth};

    ghost closing = { λ environment membership. membership_over (known_worth environment) membership };

    fn closed(
        &self,
        alloc: Global,
        environment: &Environment,
    ) -> Result<Membership<Value>, AllocError> {
        let terms = closed_list(alloc, environment, &self.terms)?;
        let select = self.select.closed(alloc, environment)?;
        Ok(Membership { terms, select })
    }
}

impl Closing for Binding<Known> {
    type Closed = Binding<Value>;

    ghost use Rattle.ent_semantics.specs.Closing.{binding_over};
    ghost use Rattle.ent_semantics.specs.Form.{known_worth};

    ghost closing = { λ environment binding. binding_over (known_worth environment) binding };

    fn closed(
        &self,
        alloc: Global,
        environment: &Environment,
    ) -> Result<Binding<Value>, AllocError> {
        let variable = self.variable.copy(alloc)?;
        let term = self.term.closed(alloc, environment)?;
        Ok(Binding { variable, term })
    }
}

impl Closing for Entangled<Known> {
    type Closed = Entangled<Value>;

    ghost use Rattle.ent_semantics.specs.Closing.{entangled_over};
    ghost use Rattle.ent_semantics.specs.Form.{known_worth};

    ghost closing = { λ environment entangled. entangled_over (known_worth environment) entangled };

    fn closed(
        &self,
        alloc: Global,
        environment: &Environment,
    ) -> Result<Entangled<Value>, AllocError> {
        let variables = self.variables.copy(alloc)?;
        let posts = closed_list(alloc, environment, &self.posts)?;
        let heads = closed_list(alloc, environment, &self.heads)?;
        let atoms = closed_list(alloc, environment, &self.atoms)?;
        let tests = closed_list(alloc, environment, &self.tests)?;
        let binds = closed_list(alloc, environment, &self.binds)?;
        Ok(Entangled {
            variables,
            posts,
            heads,
            atoms,
            tests,
            binds,
        })
    }
}

//! What is declared.
ghost use Rattle.std.specs.Prelude.{◌≡◌, None, IfOk};
ghost use Rattle.ent_form.specs.Catalogue.{schemas_of};
ghost use Rattle.ent_form.specs.OpeningFault.{opening_fault};
ghost use Rattle.ent_form.specs.Tables.{HaveDistinctColumns};

use ent_form::{Catalogue, declared_columns_are_distinct};
use ent_tree::{Create, Opening};
use ent_value::Refusal;
use std::alloc::{AllocError, Global};
use std::marker::Model;

/// The tables that an opening without a fault declares, in order, which is what contracts see.
#[derive(Drop)]
pub struct Declared<'a> {
    creates: &'a [Create],
    catalogue: Catalogue,
}

impl<'a> Model for Declared<'a> {
    ghost use Rattle.std.specs.Prelude.{List};
    ghost use Rattle.ent_tree.specs.declared.declaration.Create.{Create as Declaration};
    ghost use Rattle.ent_check.specs.Alone.{AreDeclaredWell};

    ghost Value = { List Declaration };

    ghost view = { λ d. d.creates.now };

    ghost invariant = { λ d. AreDeclaredWell d.creates.now d.catalogue.tables };
}

impl<'a> Declared<'a> {
    /// What an opening without a fault declares.
    pub fn of(alloc: Global, opening: &'a Opening) -> Result<Self, AllocError>
        requires { opening_fault opening.now ≡ None }
        ensures { IfOk result (λ declared. declared ≡ opening.now.tables) }
    {
        // A law: no table has two columns of one name.
        declared_columns_are_distinct();
        match Catalogue::of(alloc, opening) {
            Ok(catalogue) => Ok(Declared {
                creates: opening.tables.as_slice(),
                catalogue,
            }),
            Err(Refusal::Memory) => Err(AllocError),
            // It has no fault.
            Err(Refusal::Fault(_)) => unreachable!(),
        }
    }

    pub fn catalogue(&self) -> &Catalogue
        ensures tables { result.now.tables ≡ schemas_of self.now }
        ensures columns { HaveDistinctColumns self.now }
    {
        &self.catalogue
    }
}

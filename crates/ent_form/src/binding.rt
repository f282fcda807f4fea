//! The kinds of the host variables that a script has bound.
ghost use Rattle.std.specs.Prelude.{◌≡◌, OnOk, OnErr};
ghost use Rattle.ent_form.specs.Kinds.{none_bound, with_kind};
ghost use Rattle.ent_form.specs.Bindings.{bound_in};

use ent_value::{Kind, Name, Sequence};
use std::alloc::{AllocError, Global};

/// A host variable, and the kind of the value that it was bound to.
#[derive(Drop)]
pub(crate) struct KindBinding {
    pub name: Name,
    pub kind: Kind,
}

/// The host variables that are bound, and the kinds of their values.
#[derive(Drop)]
pub(crate) struct Bindings {
    /// The last one of a name counts.
    pub bindings: Sequence<KindBinding>,
}

impl Bindings {
    /// No host variable is bound.
    pub(crate) fn new(alloc: Global) -> Bindings
        ensures { bound_in result ≡ none_bound }
    {
        Bindings {
            bindings: Sequence::new(alloc),
        }
    }

    /// The kind of a host variable, where it is bound.
    pub(crate) fn kind_of(&self, name: &Name) -> Option<Kind>
        ensures { result ≡ bound_in self.now name.now }
    {
        let mut found = None;
        for binding in self.bindings.as_slice() {
            if binding.name == *name {
                found = Some(binding.kind);
            }
        }
        found
    }

    /// Binds a host variable to a value of this kind.
    pub(crate) fn bind(&mut self, name: Name, kind: Kind) -> Result<(), AllocError>
        ensures ok { OnOk result (bound_in self.new ≡ with_kind (bound_in self.old) name kind) }
        ensures err { OnErr result (self.new ≡ self.old) }
    {
        self.bindings.push(KindBinding { name, kind })?;
        Ok(())
    }
}

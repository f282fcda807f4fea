//! Why a call that takes memory refuses what it was given.
ghost use Rattle.std.specs.Prelude.{◌≡◌};
ghost use Rattle.ent_value.specs.declared.refusal.Refusal.TheVariants.{Memory, Fault};

use std::alloc::{AllocError, AllocFailed};

/// Why a call refuses: memory ran out, or what it was given has a fault.
#[derive(Debug, PartialEq, Eq, Drop)]
pub enum Refusal<F> {
    Memory,
    Fault(F),
}

impl<F> Refusal<F> {
    /// The refusal with another fault in the place of this one; Memory stays Memory.
    pub fn map<G, M: FnOnce(F) -> G>(self, other: M) -> Refusal<G>
        requires { (fault : F) → self ≡ Fault fault → M.pre other fault }
        ensures memory { self ≡ Memory → result ≡ Memory }
        ensures fault { (fault : F) → self ≡ Fault fault
            → (mapped : G) × (result ≡ Fault mapped) × M.post other fault mapped }
    {
        match self {
            Refusal::Memory => Refusal::Memory,
            Refusal::Fault(fault) => Refusal::Fault(other(fault)),
        }
    }
}

impl<F: Drop> From<AllocError> for Refusal<F> {
    ghost from_gives = { λ _ e. e ≡ Memory };

    fn from(_: AllocError) -> Self {
        Refusal::Memory
    }
}

impl<F: Drop, T: Drop> From<AllocFailed<T>> for Refusal<F> {
    ghost from_gives = { λ _ e. e ≡ Memory };

    fn from(_: AllocFailed<T>) -> Self {
        Refusal::Memory
    }
}

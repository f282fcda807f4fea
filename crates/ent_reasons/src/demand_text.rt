//! A demand in words.
ghost use Rattle.std.specs.Prelude.{◌≡◌, ◌++◌, OnOk, Option};
ghost use Rattle.std.specs.Option.{option_copied};
ghost use Rattle.ent_value.specs.declared.value.Value.{Value};
ghost use Rattle.ent_reasons.specs.Demand.{demand_text, known_value, more_terms_text, relation_text, term_text};
ghost use Rattle.ent_reasons.specs.Demand.{terms_text};

use ent_semantics::Term;
use ent_value::{Name, Value, print_value};
use std::alloc::{AllocError, Global};

/// A term of a demand, whose value may be known.
pub trait DemandTerm {
    ghost known: { Self → Option Value };

    /// Its value, where that is known.
    fn known(&self) -> Option<&Value>
        ensures { option_copied result ≡ known self.now };
}

impl DemandTerm for Option<Value> {
    ghost known = { λ term. term };

    fn known(&self) -> Option<&Value> {
        self.as_ref()
    }
}

impl DemandTerm for Term<Value> {
    ghost known = { known_value };

    fn known(&self) -> Option<&Value> {
        match self {
            Term::Known(value) => Some(value),
            Term::Variable(_) => None,
        }
    }
}

/// A value where it is known.
fn append_term<T: DemandTerm>(alloc: Global, out: &mut Vec<u8>, term: &T) -> Result<(), AllocError>
    ensures { OnOk result (out.new.items ≡ out.old.items ++ term_text (T.known term.now)) }
{
    match term.known() {
        Some(value) => print_value(alloc, out, value),
        None => out.extend_from_slice(b"_"),
    }
}

/// Terms after the first, each behind a comma and a space.
fn append_more_terms<T: DemandTerm>(
    alloc: Global,
    out: &mut Vec<u8>,
    more: &[T],
) -> Result<(), AllocError>
    ensures { OnOk result (out.new.items ≡ out.old.items ++ more_terms_text T.known more.now) }
{
    for term in more {
        out.extend_from_slice(b", ")?;
        append_term(alloc, out, term)?;
    }
    Ok(())
}

fn append_terms<T: DemandTerm>(
    alloc: Global,
    out: &mut Vec<u8>,
    terms: &[T],
) -> Result<(), AllocError>
    ensures { OnOk result (out.new.items ≡ out.old.items ++ terms_text T.known terms.now) }
{
    if let [first, more @ ..] = terms {
        append_term(alloc, out, first)?;
        append_more_terms(alloc, out, more)?;
    }
    Ok(())
}

/// The answer relation behind the terms.
fn append_relation(out: &mut Vec<u8>, relation: &Name) -> Result<(), AllocError>
    ensures { OnOk result (out.new.items ≡ out.old.items ++ relation_text relation.now) }
{
    out.extend_from_slice(b") IN ANSWER ")?;
    out.extend_from_slice(relation.as_bytes())
}

/// Appends a demand as a script writes it, as `('Minnie', _) IN ANSWER Trip`, with `_` where a value isn't known.
pub fn append_demand<T: DemandTerm>(
    alloc: Global,
    out: &mut Vec<u8>,
    relation: &Name,
    terms: &[T],
) -> Result<(), AllocError>
    ensures { OnOk result (out.new.items ≡ out.old.items ++ demand_text T.known relation.now terms.now) }
{
    out.extend_from_slice(b"(")?;
    append_terms(alloc, out, terms)?;
    append_relation(out, relation)
}

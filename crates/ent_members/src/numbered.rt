//! Scripts by the numbers of their transactions, from 1.
ghost use Rattle.std.specs.Prelude.{◌≡◌};
ghost use Rattle.std.specs.Option.{option_copied};
ghost use Rattle.ent_semantics.specs.Serial.{numbered};

use crate::submitted::SubmittedScript;
use ent_group::Tx;
use ent_semantics::element;

/// The script of a transaction's number.
pub fn script_of(submitted: &[SubmittedScript], tx: Tx) -> Option<&SubmittedScript>
    ensures { option_copied result ≡ numbered submitted.now tx }
{
    element(submitted, tx)
}

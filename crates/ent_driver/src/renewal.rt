//! A core that goes on where a book ends.
ghost use Rattle.std.specs.Prelude.{◌≡◌, IfErr, IfOk, None};
ghost use Rattle.ent_driver.specs.Renewal.{CannotGoOn, GoesOnFrom};
ghost use Rattle.ent_form.specs.OpeningFault.{opening_fault};
ghost use Rattle.ent_protocol.specs.Reached.{opened};

use crate::fault::DriverFault;
use ent_core::Core;
use ent_renewal::{FinishedBook, TooManyRows, renewed_opening};
use ent_tree::Opening;
use ent_value::Refusal;
use std::alloc::{AllocError, Global};

/// A core over an opening without a fault of form.
fn open(alloc: Global, opening: Opening) -> Result<Core, AllocError>
    requires { opening_fault opening ≡ None }
    ensures { IfOk result (λ core. core ≡ opened opening) }
{
    match Core::open(alloc, opening) {
        Ok(core) => Ok(core),
        Err(Refusal::Memory) => Err(AllocError),
        Err(Refusal::Fault(_)) => unreachable!(),
    }
}

/// A core over the declarations of a book, with the tables that the book ends with. Nothing is submitted to it yet.
pub(crate) fn renewed_core(alloc: Global, book: &FinishedBook) -> Result<Core, DriverFault>
    ensures ok { IfOk result (λ core. GoesOnFrom book.now core) }
    ensures refused { IfErr result (λ fault. CannotGoOn book.now fault) }
{
    match renewed_opening(alloc, book) {
        Ok(opening) => Ok(open(alloc, opening)?),
        Err(Refusal::Memory) => Err(DriverFault::Memory),
        Err(Refusal::Fault(TooManyRows)) => Err(DriverFault::TooManyRows),
    }
}

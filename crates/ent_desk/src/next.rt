//! The core that goes on where another one ends.
ghost use Rattle.std.specs.Prelude.{◌≡◌, IfErr, IfOk, None};
ghost use Rattle.ent_desk.specs.Opened.{first_over};
ghost use Rattle.ent_desk.specs.Renewed.{HasTooManyRows};
ghost use Rattle.ent_form.specs.OpeningFault.{opening_fault};
ghost use Rattle.ent_protocol.specs.Reached.{CanClose, book_of, opened};
ghost use Rattle.ent_renewal.specs.Renewal.{IsRenewed, present_database};
ghost use Rattle.ent_renewal.specs.declared.opening.TooManyRows.{TooManyRows as NoRoom};
ghost use Rattle.ent_value.specs.declared.refusal.Refusal.TheVariants.{Fault};

use crate::ticket::First;
use ent_core::Core;
use ent_rel::Table;
use ent_renewal::{TablesByName, TooManyRows, drained_opening, states_at_rest_hold_their_tables};
use ent_tree::{Duplicate, Opening};
use ent_value::{Name, Refusal};
use std::alloc::{AllocError, Global};

/// The tables of a core, as they stand.
#[derive(Drop)]
struct PresentTables<'a> {
    core: &'a Core,
}

impl<'a> TablesByName for PresentTables<'a> {
    ghost database = { λ p. present_database p.core.now };

    fn table_named(&self, name: &Name) -> Option<&Table> {
        self.core.table(name)
    }
}

/// A core to which nothing was submitted, and what the first session keeps of it.
#[derive(Drop)]
pub(crate) struct Next {
    pub(crate) core: Core,
    pub(crate) first: First,
}

/// An opening over the tables that a core ends with: none of them is drained.
fn next_opening(alloc: Global, core: &Core) -> Result<Opening, Refusal<TooManyRows>>
    requires { CanClose core.now }
    ensures renewed { IfOk result (λ next.
        IsRenewed core.now.opening.tables (book_of core.now).database next) }
    ensures fault { IfErr result (λ refusal. (fault : NoRoom)
        → refusal ≡ Fault fault
        → HasTooManyRows (book_of core.now)) }
{
    // Laws: the tables are settled, and are those that the opening declares.
    states_at_rest_hold_their_tables();
    core.is_reached();
    let opening = core.opening();
    let none = Vec::new(alloc);
    let made = drained_opening(alloc, opening, &PresentTables { core }, none.as_slice());
    made
}

/// A core over an opening without a fault of form.
fn open(alloc: Global, opening: Opening) -> Result<Core, AllocError>
    requires { opening_fault opening ≡ None }
    ensures { IfOk result (λ core. core ≡ opened opening) }
{
    match Core::open(alloc, opening) {
        Ok(core) => Ok(core),
        Err(Refusal::Memory) => Err(AllocError),
        Err(Refusal::Fault(_)) => unreachable!(),
    }
}

/// The core that goes on where one ends in which no run is on and nobody waits for one.
pub(crate) fn next_of(alloc: Global, core: &Core) -> Result<Next, Refusal<TooManyRows>>
    requires { CanClose core.now }
    ensures fresh { IfOk result (λ next. next.core ≡ opened next.core.opening) }
    ensures renewed { IfOk result (λ next.
        IsRenewed core.now.opening.tables (book_of core.now).database next.core.opening) }
    ensures first { IfOk result (λ next. next.first ≡ first_over next.core.opening 0) }
    ensures fault { IfErr result (λ refusal. (fault : NoRoom)
        → refusal ≡ Fault fault
        → HasTooManyRows (book_of core.now)) }
{
    let opening = next_opening(alloc, core)?;
    let first = First {
        opening: opening.copy(alloc)?,
        count: 0,
    };
    Ok(Next {
        core: open(alloc, opening)?,
        first,
    })
}

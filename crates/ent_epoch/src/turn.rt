//! The core of the next epoch.
ghost use Rattle.std.specs.Prelude.{◌≡◌, ◌↔◌, ◌<◌, IfErr, IfOk, IsSome, IsTrue, None, OnErr, OnOk, Some};
ghost use Rattle.ent_book.specs.Tables.{book_seen};
ghost use Rattle.ent_form.specs.OpeningFault.{opening_fault};
ghost use Rattle.ent_protocol.specs.Reached.{CanClose, book_of, opened};
ghost use Rattle.ent_renewal.specs.Renewal.{GoesOn, IsRenewed, present_database, rows_together};
ghost use Rattle.ent_semantics.specs.Book.{IsLegal};
ghost use Rattle.ent_tree.specs.declared.limits.TheConstants.{MOST_OPENING_ROWS};
ghost use Rattle.ent_value.specs.declared.refusal.Refusal.TheVariants.{Fault};
ghost use Rattle.ent_epoch.specs.Epoch.{carried_over, core_in};
ghost use Rattle.ent_renewal.specs.declared.opening.TooManyRows.{TooManyRows as TooManyRowsSeen};

use ent_rel::Table;
use ent_renewal::{
    FinishedBook, TablesByName, TooManyRows, drained_opening, states_at_rest_hold_their_tables,
};
use ent_sched::{Core, NotClosed, NotDone};
use ent_tree::Opening;
use ent_value::{Name, Refusal};
use std::alloc::{AllocError, Global};

/// Why an epoch doesn't turn.
#[derive(Clone, Copy, Debug, PartialEq, Eq)]
pub enum NotTurned {
    /// A run is on, or somebody waits for one.
    Busy,
    /// E407: the tables that aren't drained have more rows together than an opening has.
    TooManyRows,
    /// The epoch has the greatest number that there is.
    NoNumber,
}

/// The tables of a core, as they stand.
#[derive(Drop)]
struct PresentTables<'a> {
    core: &'a Core,
}

impl<'a> TablesByName for PresentTables<'a> {
    ghost database = { λ p. present_database p.core.now };

    fn table_named(&self, name: &Name) -> Option<&Table> {
        self.core.table(name)
    }
}

/// Whether no run is on and nobody waits for one.
pub(crate) fn can_close(core: &Core) -> bool
    ensures { IsTrue result ↔ CanClose core.now }
{
    if core.running() {
        return false;
    }
    match core.dormant(1) {
        None => true,
        Some(_) => false,
    }
}

/// A core over an opening without a fault of form.
fn open(alloc: Global, opening: Opening) -> Result<Core, AllocError>
    requires { opening_fault opening ≡ None }
    ensures { IfOk result (λ core. core ≡ opened opening) }
{
    match Core::open(alloc, opening) {
        Ok(core) => Ok(core),
        Err(Refusal::Memory) => Err(AllocError),
        Err(Refusal::Fault(_)) => unreachable!(),
    }
}

/// An opening over the tables that a core ends with, but that the drained ones are empty.
fn next_opening(
    alloc: Global,
    core: &Core,
    drained: &[Name],
) -> Result<Opening, Refusal<TooManyRows>>
    requires { CanClose core.now }
    ensures renewed { IfOk result (λ next.
        IsRenewed core.now.opening.tables (carried_over drained.now core.now) next) }
    ensures goes_on { IfOk result (λ next.
        GoesOn core.now.opening.tables (carried_over drained.now core.now) (opened next)) }
    ensures fault { IfErr result (λ refusal. (fault : TooManyRowsSeen)
        → refusal ≡ Fault fault
        → MOST_OPENING_ROWS < rows_together core.now.opening.tables (carried_over drained.now core.now)) }
{
    // Laws: the tables are settled, and are those that the opening declares.
    states_at_rest_hold_their_tables();
    core.is_reached();
    let opening = core.opening();
    let made = drained_opening(alloc, opening, &PresentTables { core }, drained);
    made
}

/// A core over the tables that another ends with, but that the drained ones are empty. Nothing is submitted to it yet.
pub(crate) fn next_core(
    alloc: Global,
    core: &Core,
    drained: &[Name],
) -> Result<Core, Refusal<TooManyRows>>
    requires { CanClose core.now }
    ensures renewed { IfOk result (λ next.
        IsRenewed core.now.opening.tables (carried_over drained.now core.now) next.opening) }
    ensures goes_on { IfOk result (λ next.
        GoesOn core.now.opening.tables (carried_over drained.now core.now) next) }
    ensures fault { IfErr result (λ refusal. (fault : TooManyRowsSeen)
        → refusal ≡ Fault fault
        → MOST_OPENING_ROWS < rows_together core.now.opening.tables (carried_over drained.now core.now)) }
{
    let opening = next_opening(alloc, core, drained)?;
    Ok(open(alloc, opening)?)
}

/// Closes the core of an epoch, and puts another in its place. Where memory runs out nothing changes.
pub(crate) fn exchange(core: &mut Option<Core>, next: Core) -> Result<FinishedBook, AllocError>
    requires there { IsSome core.old }
    requires closes { CanClose (core_in core.old) }
    ensures book { IfOk result (λ book. book_seen book ≡ book_of (core_in core.old)) }
    ensures legal { IfOk result (λ book. IsLegal (book_seen book)) }
    ensures there { IsSome core.new }
    ensures ok { OnOk result (core_in core.new ≡ next) }
    ensures err { OnErr result (core_in core.new ≡ core_in core.old) }
{
    let Some(open) = core.take() else {
        unreachable!();
    };
    // A law: the opening has no fault of form.
    open.is_reached();
    match open.close() {
        Ok(book) => {
            *core = Some(next);
            Ok(FinishedBook::new(book))
        }
        Err(
            NotClosed {
                core: same,
                refusal: Refusal::Memory,
            },
        ) => {
            *core = Some(same);
            Err(AllocError)
        }
        Err(
            NotClosed {
                refusal: Refusal::Fault(NotDone),
                ..
            },
        ) => unreachable!(),
    }
}

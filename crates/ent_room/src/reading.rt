//! A room over the text of an input, and over rows that are given as values.
ghost use Rattle.std.specs.Prelude.{◌≡◌, [], IfErr, IfOk, None, OnOk};
ghost use Rattle.std.specs.Result.{result_err};
ghost use Rattle.ent_admission.specs.Admission.{no_groups};
ghost use Rattle.ent_admission.specs.Passed.{begun};
ghost use Rattle.ent_form.specs.Catalogue.{schemas_of};
ghost use Rattle.ent_form.specs.Form.{script_in};
ghost use Rattle.ent_form.specs.InputFault.{input_fault, scripts_fault};
ghost use Rattle.ent_form.specs.OpeningFault.{first_of, opening_fault};
ghost use Rattle.ent_input.specs.Reading.{IsInput, IsRefused};
ghost use Rattle.ent_prepare.specs.Given.{CanStand, with_rows};
ghost use Rattle.ent_value.specs.declared.refusal.Refusal.TheVariants.{Fault};
ghost use Rattle.ent_waiting.specs.declared.waiting_list.Full.{Full as FullSeen};
ghost use Rattle.ent_room.specs.Reading.{AreTooMany, IsNotOpened, Opens, RefusesRows, all_put, empty_list};

use crate::putting::Stay;
use crate::room::Room;
use ent_form::{Catalogue, FormFault, resolve};
use ent_input::{InputFault, read_input};
use ent_prepare::{GivenRow, first_fault_tells_its_row, given_rows_come_last, with_rows};
use ent_tree::{Input, MOST_OPENING_ROWS, MOST_SCRIPTS, Opening, Script};
use ent_value::{Limited, Refusal};
use ent_waiting::{Full, Limits, Ticket};
use std::alloc::{AllocError, Global};

/// Why no room is opened over a text.
#[derive(Clone, Copy, Debug, PartialEq, Eq)]
pub enum NotOpened {
    /// It has more scripts than may wait, or than there are tickets.
    Full,
    /// It has this fault, as the text of an input.
    Faulty(InputFault),
    /// E407: more rows stand there, with those that are given, than an opening has, which are [`MOST_OPENING_ROWS`].
    TooManyRows,
    /// The first of the given rows that doesn't fit names no table, or has another number of values than its table has
    /// columns, or a value of another kind. The place of the fault is the number of the row among those that are given,
    /// from 0.
    NotARow(FormFault),
}

/// The fault of form of a script over these tables.
fn fault_of(
    alloc: Global,
    catalogue: &Catalogue,
    script: &Script,
) -> Result<Option<FormFault>, AllocError>
    ensures { IfOk result (λ fault. fault ≡ result_err (script_in catalogue.now.tables script.now)) }
{
    match resolve(alloc, catalogue, script) {
        Ok(_) => Ok(None),
        Err(Refusal::Memory) => Err(AllocError),
        Err(Refusal::Fault(fault)) => Ok(Some(fault)),
    }
}

/// The first fault of form of scripts over these tables.
fn scripts_fault(
    alloc: Global,
    catalogue: &Catalogue,
    scripts: &[Script],
) -> Result<Option<FormFault>, AllocError>
    ensures { IfOk result (λ fault. fault
        ≡ first_of (λ script. result_err (script_in catalogue.now.tables script)) scripts.now) }
{
    for script in scripts {
        if let Some(fault) = fault_of(alloc, catalogue, script)? {
            return Ok(Some(fault));
        }
    }
    Ok(None)
}

/// The first fault of form of an input: that of its opening, else that of its scripts.
fn input_fault(alloc: Global, input: &Input) -> Result<Option<FormFault>, AllocError>
    ensures { IfOk result (λ fault. fault ≡ input_fault input.now.opening input.now.scripts) }
{
    match Catalogue::of(alloc, &input.opening) {
        Ok(catalogue) => scripts_fault(alloc, &catalogue, input.scripts.as_slice()),
        Err(Refusal::Memory) => Err(AllocError),
        Err(Refusal::Fault(fault)) => Ok(Some(fault)),
    }
}

/// The input that a text is, without a fault; or its first fault.
fn input_of(alloc: Global, text: &[u8]) -> Result<Input, Refusal<InputFault>>
    ensures input { IfOk result (λ input. IsInput text.now input) }
    ensures refused { IfErr result (λ refusal. IsRefused text.now refusal) }
{
    let input = read_input(alloc, text)?;
    match input_fault(alloc, &input)? {
        None => Ok(input),
        Some(fault) => Err(Refusal::Fault(InputFault::Form(fault))),
    }
}

impl Room {
    /// Takes scripts in that have no fault of form, in order. Each waits for as many batches as its WITHIN says.
    fn take_all(&mut self, scripts: Limited<Script, MOST_SCRIPTS>) -> Result<(), Refusal<Full>>
        requires formed { scripts_fault self.old.admission.epoch.core.opening scripts ≡ None }
        ensures list { OnOk result (self.new.admission.list ≡ all_put scripts self.old.admission.list) }
        ensures epoch { self.new.admission.epoch ≡ self.old.admission.epoch }
        ensures coming { self.new.admission.coming ≡ self.old.admission.coming }
        ensures feed { self.new.admission.feed ≡ self.old.admission.feed }
        ensures news { self.new.admission.news ≡ self.old.admission.news }
        ensures last { self.new.last ≡ self.old.last }
        ensures full { IfErr result (λ refusal. (fault : FullSeen)
            → refusal ≡ Fault fault
            → AreTooMany scripts self.old.admission.list) }
    {
        for script in scripts.into_vec() {
            self.take_in(script, Stay::AsWritten)?;
        }
        Ok(())
    }

    /// A room over an opening without a fault of form, with these rows behind its own; or why they can't stand there.
    fn over(
        alloc: Global,
        opening: Opening,
        rows: &[GivenRow],
        number: u64,
        next: Ticket,
        next_group: u64,
        limits: Limits,
    ) -> Result<Self, Refusal<NotOpened>>
        requires formed { opening_fault opening ≡ None }
        ensures rows { OnOk result (CanStand opening rows.now) }
        ensures epoch { IfOk result (λ room. room.admission.epoch ≡ begun number (with_rows rows.now opening)) }
        ensures list { IfOk result (λ room. room.admission.list ≡ empty_list next limits) }
        ensures coming { IfOk result (λ room. room.admission.coming ≡ record { keys = [] }) }
        ensures feed { IfOk result (λ room. room.admission.feed ≡ no_groups next_group) }
        ensures news { IfOk result (λ room. room.admission.news ≡ []) }
        ensures last { IfOk result (λ room. room.last ≡ None) }
        ensures refused { IfErr result (λ refusal. RefusesRows opening rows.now refusal) }
    {
        if rows.len() > MOST_OPENING_ROWS - opening.rows.len() {
            return Err(Refusal::Fault(NotOpened::TooManyRows));
        }
        // Laws: the opening with these rows has no other fault than one of these rows, and that tells its row.
        given_rows_come_last();
        first_fault_tells_its_row();
        let opening = with_rows(alloc, opening, rows)?;
        match Room::open(alloc, opening, number, next, next_group, limits) {
            Ok(room) => Ok(room),
            Err(Refusal::Memory) => Err(Refusal::Memory),
            Err(Refusal::Fault(fault)) => Err(Refusal::Fault(NotOpened::NotARow(fault))),
        }
    }

    /// A room over the text of an input: its declarations, its opening rows and, behind them, the given ones; and its
    /// scripts. These wait in order, the first under the ticket `next`, each for as many batches as its WITHIN says.
    /// The first epoch has this number, and the first group of the feed the number `next_group`. It tells the first
    /// fault of the text; else too many rows, or the first of the given ones that doesn't fit; else that more scripts
    /// stand there than may wait.
    pub fn read(
        alloc: Global,
        text: &[u8],
        rows: &[GivenRow],
        number: u64,
        next: Ticket,
        next_group: u64,
        limits: Limits,
    ) -> Result<Self, Refusal<NotOpened>>
        ensures opened { IfOk result (λ room. Opens text.now rows.now number next next_group limits room) }
        ensures refused { IfErr result (λ refusal. IsNotOpened text.now rows.now next limits refusal) }
    {
        let input = match input_of(alloc, text) {
            Ok(input) => input,
            Err(Refusal::Memory) => return Err(Refusal::Memory),
            Err(Refusal::Fault(fault)) => return Err(Refusal::Fault(NotOpened::Faulty(fault))),
        };
        let mut room = Room::over(alloc, input.opening, rows, number, next, next_group, limits)?;
        match room.take_all(input.scripts) {
            Ok(()) => Ok(room),
            Err(Refusal::Memory) => Err(Refusal::Memory),
            Err(Refusal::Fault(Full)) => Err(Refusal::Fault(NotOpened::Full)),
        }
    }
}

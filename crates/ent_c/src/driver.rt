//! Drivers that a caller of C keeps and drives.
ghost use Rattle.std.specs.Prelude.{◌≡◌, [], IfErr, IfOk, MatchOption, pos};
ghost use Rattle.std.specs.declared.option.Option.TheVariants.{None};
ghost use Rattle.ent_driver.specs.Drives.{Answers, IsUnanswered, IsUnreported, IsUnshown, Opens, Reports, Shows};
ghost use Rattle.ent_engine.specs.Reading.{IsRefused};
ghost use Rattle.ent_c.specs.Calls.{HandsOut, IsMisused, Declines};
ghost use Rattle.ent_c.specs.Drivers.{ClosesDriver, HandsOutOr, OpensDriver, RenewsDriver, RunsDriver};
ghost use Rattle.ent_c.specs.Drivers.{StandsIn, SubmitsTo};
ghost use Rattle.ent_c.specs.Drivers.{behind};
ghost use Rattle.ent_c.specs.Version.{version_numbered};

use crate::buffer::lay_over;
use crate::handle::Handle;
use crate::position::Position;
use crate::told::CallTold;
use crate::version::version_numbered;
use crate::{DONE, MISUSED};
use ent_book::ReportVersion;
use ent_driver::{Driver, DriverFault};
use ent_engine::{RunFault, status_of};
use std::alloc::Global;

/// Hands a text out, or tells why there is none, of the bytes that were handed in.
pub(crate) fn hand_out(
    text: Result<Vec<u8>, DriverFault>,
    given: &[u8],
    buffer: &mut [u8],
    told: &mut CallTold,
) -> i32
    ensures handed { IfOk text (λ text. HandsOut text.items buffer.old buffer.new told.new × (result ≡ pos 0)) }
    ensures refused { IfErr text (λ fault. Declines fault given.now buffer.old buffer.new told.new result) }
{
    match text {
        Ok(text) => {
            *told = CallTold::text(text.len());
            lay_over(text.as_slice(), buffer);
            DONE
        }
        Err(fault) => {
            *told = CallTold::refusal(given, fault);
            fault.status() as i32
        }
    }
}

/// A driver over an input, or the fault for which there is none.
fn driver_over(alloc: Global, input: &[u8]) -> Result<Box<Driver>, RunFault>
    ensures opened { IfOk result (λ driver. Opens input.now driver.value) }
    ensures refused { IfErr result (λ fault. IsRefused input.now fault) }
{
    let driver = Driver::open(alloc, input)?;
    Ok(Box::new(alloc, driver)?)
}

/// Opens a driver over an input, whose scripts wait for a run. A handle that isn't null is misused.
#[unsafe(no_mangle)]
pub extern "C" fn ent_c_open(
    alloc: Global,
    handle: &mut Handle,
    input: &[u8],
    told: &mut CallTold,
) -> i32
    ensures { OpensDriver input.now handle.old.held handle.new.held told.new result }
{
    if let Some(driver) = handle.take(alloc) {
        handle.put(driver);
        *told = CallTold::text(0);
        return MISUSED;
    }
    match driver_over(alloc, input) {
        Ok(driver) => {
            handle.put(driver);
            *told = CallTold::text(0);
            DONE
        }
        Err(fault) => {
            *told = CallTold::fault(input, fault, 0);
            status_of(&fault) as i32
        }
    }
}

/// Submits the script of a text that has this script alone, and tells its number.
#[unsafe(no_mangle)]
pub extern "C" fn ent_c_submit(
    alloc: Global,
    handle: &mut Handle,
    script: &[u8],
    tx: &mut u64,
    told: &mut CallTold,
) -> i32
    ensures { SubmitsTo script.now handle.old.held handle.new.held tx.old tx.new told.new result }
{
    let Some(mut driver) = handle.take(alloc) else {
        *told = CallTold::refusal(script, DriverFault::Vacant);
        return MISUSED;
    };
    let submitted = driver.submit(alloc, script);
    handle.put(driver);
    match submitted {
        Ok(number) => {
            *tx = number;
            *told = CallTold::text(0);
            DONE
        }
        Err(fault) => {
            *told = CallTold::refusal(script, fault);
            fault.status() as i32
        }
    }
}

/// Makes one run, where anything is left to be done.
#[unsafe(no_mangle)]
pub extern "C" fn ent_c_run(alloc: Global, handle: &mut Handle) -> i32
    ensures { RunsDriver handle.old.held handle.new.held result }
{
    let Some(mut driver) = handle.take(alloc) else {
        return MISUSED;
    };
    let ran = driver.run(alloc);
    handle.put(driver);
    match ran {
        Ok(()) => DONE,
        Err(fault) => fault.status() as i32,
    }
}

/// Tells where a transaction stands.
#[unsafe(no_mangle)]
pub extern "C" fn ent_c_standing(
    alloc: Global,
    handle: &mut Handle,
    tx: u64,
    position: &mut Position,
) -> i32
    ensures same { handle.new.held ≡ handle.old.held }
    ensures position { StandsIn handle.old.held tx position.old position.new result }
{
    let Some(driver) = handle.take(alloc) else {
        return MISUSED;
    };
    let standing = driver.standing(tx);
    handle.put(driver);
    match standing {
        Ok(standing) => {
            *position = Position::of(standing);
            DONE
        }
        Err(fault) => fault.status() as i32,
    }
}

/// Hands out the lines of a transaction's answers so far.
#[unsafe(no_mangle)]
pub extern "C" fn ent_c_answers(
    alloc: Global,
    handle: &mut Handle,
    tx: u64,
    buffer: &mut [u8],
    told: &mut CallTold,
) -> i32
    ensures same { handle.new.held ≡ handle.old.held }
    ensures text { HandsOutOr (Answers (behind handle.old.held) tx) (IsUnanswered (behind handle.old.held) tx)
        [] buffer.old buffer.new told.new result }
{
    let Some(driver) = handle.take(alloc) else {
        return hand_out(Err(DriverFault::Vacant), &[], buffer, told);
    };
    let text = driver.answers(alloc, tx);
    handle.put(driver);
    hand_out(text, &[], buffer, told)
}

/// Hands out the lines of a table as it stands.
#[unsafe(no_mangle)]
pub extern "C" fn ent_c_table(
    alloc: Global,
    handle: &mut Handle,
    name: &[u8],
    buffer: &mut [u8],
    told: &mut CallTold,
) -> i32
    ensures same { handle.new.held ≡ handle.old.held }
    ensures text { HandsOutOr (Shows (behind handle.old.held) name.now) (IsUnshown (behind handle.old.held) name.now)
        name.now buffer.old buffer.new told.new result }
{
    let Some(driver) = handle.take(alloc) else {
        return hand_out(Err(DriverFault::Vacant), name, buffer, told);
    };
    let text = driver.table(alloc, name);
    handle.put(driver);
    hand_out(text, name, buffer, told)
}

/// Closes a driver whose transactions all have a fate. Its book is left, and answers for its reports.
#[unsafe(no_mangle)]
pub extern "C" fn ent_c_close(alloc: Global, handle: &mut Handle) -> i32
    ensures { ClosesDriver handle.old.held handle.new.held result }
{
    let Some(mut driver) = handle.take(alloc) else {
        return MISUSED;
    };
    let closed = driver.close();
    handle.put(driver);
    match closed {
        Ok(()) => DONE,
        Err(fault) => fault.status() as i32,
    }
}

/// Opens a driver that was closed again, over the tables that its book ends with. Nothing is submitted to it yet.
#[unsafe(no_mangle)]
pub extern "C" fn ent_c_renew(alloc: Global, handle: &mut Handle) -> i32
    ensures { RenewsDriver handle.old.held handle.new.held result }
{
    let Some(mut driver) = handle.take(alloc) else {
        return MISUSED;
    };
    let renewed = driver.renew(alloc);
    handle.put(driver);
    match renewed {
        Ok(()) => DONE,
        Err(fault) => fault.status() as i32,
    }
}

/// Hands out the report of a driver that was closed, of this version.
fn closed_report(
    alloc: Global,
    handle: &mut Handle,
    version: ReportVersion,
    buffer: &mut [u8],
    told: &mut CallTold,
) -> i32
    ensures same { handle.new.held ≡ handle.old.held }
    ensures text { HandsOutOr (Reports (behind handle.old.held) version) (IsUnreported (behind handle.old.held))
        [] buffer.old buffer.new told.new result }
{
    let Some(driver) = handle.take(alloc) else {
        return hand_out(Err(DriverFault::Vacant), &[], buffer, told);
    };
    let text = driver.report(alloc, version);
    handle.put(driver);
    hand_out(text, &[], buffer, told)
}

/// Hands out the report of a driver that was closed, of the version of this number.
#[unsafe(no_mangle)]
pub extern "C" fn ent_c_closed_report(
    alloc: Global,
    handle: &mut Handle,
    version: u32,
    buffer: &mut [u8],
    told: &mut CallTold,
) -> i32
    ensures same { handle.new.held ≡ handle.old.held }
    ensures text { MatchOption (version_numbered version) (IsMisused buffer.old buffer.new told.new result)
        (λ version. HandsOutOr (Reports (behind handle.old.held) version) (IsUnreported (behind handle.old.held))
        [] buffer.old buffer.new told.new result) }
{
    match version_numbered(version) {
        Some(version) => closed_report(alloc, handle, version, buffer, told),
        None => {
            *told = CallTold::text(0);
            MISUSED
        }
    }
}

/// Frees a driver, whatever it has come to; the handle is null then.
#[unsafe(no_mangle)]
pub extern "C" fn ent_c_free(alloc: Global, handle: &mut Handle)
    ensures { handle.new.held ≡ None }
{
    drop(handle.take(alloc));
}

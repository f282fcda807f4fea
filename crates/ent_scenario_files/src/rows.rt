//! Stored rows, explained.
ghost use Rattle.std.specs.Prelude.{◌≡◌, IsTrue, ◌↔◌};

use anyhow::{Context, Result, ensure};
use std::alloc::Global;
use std::fs;
use std::io::Read;

/// Has `said` answer each row of a folder, and writes how many rows there are. If an answer differs from the expected
/// one, it shows the answer, and is refused at the end.
pub fn run_rows<F: Fn(Global, &[u8]) -> Result<String>>(
    rt: &HostRuntime,
    folder: &str,
    said: F,
) -> Result<()>
    requires { F.IsAlwaysCallable said }
{
    let alloc = rt.alloc();
    let index = fs::read_to_string(rt, format!(in alloc; "{folder}/INDEX")?)?;
    let mut count = 0usize;
    let mut wrong = 0usize;
    for name in index.lines() {
        if !check(rt, folder, name, &said).context(format_args!("row {name}"))? {
            wrong = wrong.saturating_add(1);
        }
        count = count.saturating_add(1);
    }
    ensure!(wrong == 0, "{wrong} of {count} rows are wrong");
    println!(rt; "{folder}: {count} rows")?;
    Ok(())
}

/// Whether of a stored row is said what must be; else it shows what is said.
fn check<F: Fn(Global, &[u8]) -> Result<String>>(
    rt: &HostRuntime,
    folder: &str,
    name: &str,
    said: F,
) -> Result<bool>
    requires { F.IsAlwaysCallable said }
{
    let alloc = rt.alloc();
    let input = fs::read(rt, format!(in alloc; "{folder}/{name}.in")?)?;
    let wanted = fs::read_to_string(rt, format!(in alloc; "{folder}/{name}.out")?)?;
    let given = said(alloc, input.as_slice())?;
    let is_right = is_equal(given.as_str(), wanted.as_str());
    if !is_right {
        println!(rt; "{name} is told otherwise:\n{}", given.as_str())?;
    }
    Ok(is_right)
}

/// Whether what is said is what must be, byte for byte.
fn is_equal(given: &str, wanted: &str) -> bool
    ensures { IsTrue result ↔ given.now ≡ wanted.now }
{
    given == wanted
}

/// Writes what is said of standard input.
pub fn tell_row<F: Fn(Global, &[u8]) -> Result<String>>(rt: &HostRuntime, said: F) -> Result<()>
    requires { F.IsAlwaysCallable said }
{
    let mut input = Vec::new(rt.alloc());
    rt.reader().read_to_end(&mut input)?;
    let given = said(rt.alloc(), input.as_slice())?;
    print!(rt; "{}", given.as_str())?;
    Ok(())
}

//! Stored scenarios, played.
ghost use Rattle.std.specs.Prelude.{◌≡◌, ◌≢◌, IfOk, OnErr, OnOk, length};
ghost use Rattle.std.specs.Str.Lines.{lines};

use anyhow::{Context, Result, bail};
use std::alloc::Global;
use std::{env, fs, io};

/// Plays scenarios, each by `replies`, which gives the replies to one, a line or more each. Without a word it goes over
/// the stored ones, says how many lines of replies each has, and is refused at the first that differs from what is
/// expected; with a word it reads one from standard input and writes the replies.
pub fn run_scenarios<F: Fn(Global, &str) -> Result<String>>(
    rt: &HostRuntime,
    replies: F,
) -> Result<()>
    requires { F.IsAlwaysCallable replies }
{
    if env::args(rt)?.nth(1).is_some() {
        return play(rt, replies);
    }
    let index = fs::read_to_string(rt, "scenarios/INDEX")?;
    for name in index.lines() {
        let count = check(rt, name, &replies).context(format_args!("scenario {name}"))?;
        println!(rt; "{name}: {count} replies")?;
    }
    Ok(())
}

/// Plays the scenario on standard input.
fn play<F: Fn(Global, &str) -> Result<String>>(rt: &HostRuntime, replies: F) -> Result<()>
    requires { F.IsAlwaysCallable replies }
{
    let text = io::read_to_string(rt.alloc(), rt.reader())?;
    let given = replies(rt.alloc(), text.as_str())?;
    print!(rt; "{}", given.as_str())?;
    Ok(())
}

/// Plays a stored scenario, and answers how many lines of replies it has, where they are those that are expected.
fn check<F: Fn(Global, &str) -> Result<String>>(
    rt: &HostRuntime,
    name: &str,
    replies: F,
) -> Result<usize>
    requires { F.IsAlwaysCallable replies }
{
    let alloc = rt.alloc();
    let text = fs::read_to_string(rt, format!(in alloc; "scenarios/{name}.in")?)?;
    let wanted = fs::read_to_string(rt, format!(in alloc; "scenarios/{name}.out")?)?;
    let given = replies(alloc, text.as_str())?;
    count_equal(given.as_str(), wanted.as_str())
}

/// How many lines of replies there are, exactly where they are those that are expected; else it names the first that
/// isn't.
fn count_equal(given: &str, wanted: &str) -> Result<usize>
    ensures equal { OnOk result (given.now ≡ wanted.now) }
    ensures count { IfOk result (λ count. count ≡ length (lines given.now)) }
    ensures differs { OnErr result (given.now ≢ wanted.now) }
{
    if given == wanted {
        return Ok(given.lines().count());
    }
    let mut expected = wanted.lines();
    let mut count = 0usize;
    for line in given.lines() {
        count = count.saturating_add(1);
        if expected.next() != Some(line) {
            bail!("reply {count}: {line}");
        }
    }
    bail!("{count} replies are too few, or end otherwise")
}

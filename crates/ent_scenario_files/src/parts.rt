//! Scenarios of parts: a line `== NAME` begins something new, and each line behind it is a call of that.
use crate::replies::{Out, put};
use anyhow::{Context, Result, bail};
use std::alloc::Global;

/// What the calls of a part speak of.
pub trait Part: Drop + Sized {
    /// Begins what a line `== NAME` names.
    fn begin(alloc: Global, name: &str) -> Result<Self>;

    /// Puts the reply to a line, which is a call of these words.
    fn reply(&mut self, alloc: Global, line: &str, call: &[&str], out: &mut Out) -> Result<()>;
}

fn put_reply<P: Part>(alloc: Global, now: &mut Option<P>, line: &str, out: &mut Out) -> Result<()> {
    if let Some(name) = line.strip_prefix("== ") {
        *now = Some(P::begin(alloc, name)?);
        return Ok(());
    }
    let Some(part) = now else {
        bail!("no part is begun");
    };
    let call: Vec<&str> = line.split(' ').collect(alloc)?;
    part.reply(alloc, line, call.as_slice(), out)
        .context(format_args!("{line}"))?;
    put(out, "\n");
    Ok(())
}

/// The replies to the calls of a scenario, a line each.
pub fn replies_of_parts<P: Part>(alloc: Global, text: &str) -> Result<String> {
    let mut out = Out::new(alloc);
    let mut now: Option<P> = None;
    for line in text.lines() {
        put_reply(alloc, &mut now, line, &mut out)?;
    }
    out.into_text()
}

//! Which call was made again.
use anyhow::{Result, bail};

/// The calls of a manager that may want memory.
#[derive(Clone, Copy, Debug, PartialEq, Eq)]
pub(crate) enum Call {
    Open,
    Submit,
    Work,
    Close,
}

/// The call that was made again for want of memory, if any was.
#[derive(Clone, Copy, Debug, Default)]
pub(crate) struct Again {
    call: Option<Call>,
}

impl Again {
    /// Memory ran out in a call. It is made again, unless that has happened before.
    pub(crate) fn note(&mut self, call: Call) -> Result<()> {
        if self.call.is_some() {
            bail!("memory ran out twice");
        }
        self.call = Some(call);
        Ok(())
    }

    pub(crate) fn word(&self) -> Option<&'static str> {
        match self.call {
            Some(Call::Open) => Some("open"),
            Some(Call::Submit) => Some("submit"),
            Some(Call::Work) => Some("work"),
            Some(Call::Close) => Some("close"),
            None => None,
        }
    }
}

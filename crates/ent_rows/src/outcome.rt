//! How a run of the command ended.
use crate::machine::{Behaviour, Machine};
use anyhow::{Result, ensure};
use ent_command::entangle;
use std::alloc::Global;
use std::sync::Wait;
use std::thread::Threads;

/// What a run of the command gave: its exit status, and what it wrote to standard output and to standard error.
#[derive(Drop)]
pub(crate) struct Outcome {
    status: u8,
    output: Vec<u8>,
    errors: Vec<u8>,
}

impl Outcome {
    /// Runs the command with these words behind its name, on an input that is read so, where output is written so. Only
    /// threads are the real machine's.
    pub(crate) fn of<T: Threads + Wait + Sync>(
        alloc: Global,
        threads: &T,
        words: &str,
        input: &[u8],
        reads: Behaviour,
        writes: Behaviour,
    ) -> Result<Self> {
        let mut given = vec![in alloc; "entangle"]?;
        for word in words.split_whitespace() {
            given.push(word)?;
        }
        let machine = Machine::new(alloc, given.as_slice(), input, reads, writes);
        let status = entangle(&machine, threads, false).status();
        let (output, errors) = machine.into_written();
        Ok(Outcome {
            status,
            output,
            errors,
        })
    }

    /// What was written to standard output.
    pub(crate) fn output(&self) -> &[u8] {
        self.output.as_slice()
    }

    /// Checks the exit status.
    fn check_status(&self, alloc: Global, status: &str) -> Result<()> {
        let got = format!(in alloc; "{}", self.status)?;
        ensure!(got.as_str() == status, "status {got}");
        Ok(())
    }

    /// Checks the exit status, and all that is said on standard error.
    pub(crate) fn check_said(&self, alloc: Global, status: &str, said: &[u8]) -> Result<()> {
        self.check_status(alloc, status)?;
        ensure!(self.errors.as_slice() == said, "something else is said");
        Ok(())
    }

    /// Checks the exit status, and the line on standard error: none where the line is empty, some text where it is `*`,
    /// and two lines where ` / ` stands in it.
    pub(crate) fn check_end(&self, alloc: Global, status: &str, line: &str) -> Result<()> {
        self.check_status(alloc, status)?;
        if line == "*" {
            ensure!(!self.errors.is_empty(), "nothing is said");
            return Ok(());
        }
        let mut wanted = Vec::new(alloc);
        if !line.is_empty() {
            for part in line.split(" / ") {
                wanted.extend_from_slice(part.as_bytes())?;
                wanted.push(b'\n')?;
            }
        }
        ensure!(self.errors == wanted, "another line on standard error");
        Ok(())
    }
}

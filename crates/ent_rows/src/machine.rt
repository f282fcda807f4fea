//! A machine that is made up for one run of the command: it gives the words of the command line and standard input, and
//! keeps what is written.
ghost use Rattle.std.specs.Prelude.{◌≤◌, length, IfOk};

use std::alloc::{Allocator, Global};
use std::cell::{Cell, RefCell};
use std::env::{Env, FillError};
use std::fmt::Display;
use std::io;
use std::io::{BufRead, ErrorKind, Lines, Read, Write};

/// How a stream moves bytes.
#[derive(Clone, Copy)]
pub(crate) struct Behaviour {
    /// The most bytes that a call moves.
    pub(crate) most: usize,
    /// Which call fails, counted from 1; 0 for none.
    pub(crate) fails_at: usize,
}

impl Behaviour {
    /// Moves as many bytes as there are, and doesn't fail.
    pub(crate) const FREE: Behaviour = Behaviour {
        most: usize::MAX,
        fails_at: 0,
    };
}

/// Standard input.
#[derive(Drop)]
pub(crate) struct Given<'a> {
    left: &'a [u8],
    behaviour: Behaviour,
    calls: usize,
}

impl Read for Given<'_> {
    fn read(&mut self, buffer: &mut [u8]) -> io::Result<usize> {
        let count = self.fill_buf()?.read(buffer)?;
        self.consume(count);
        Ok(count)
    }
}

impl BufRead for Given<'_> {
    fn fill_buf(&mut self) -> io::Result<&[u8]> {
        self.calls = self.calls.saturating_add(1);
        if self.calls == self.behaviour.fails_at {
            return Err(io::Error::from(ErrorKind::BrokenPipe));
        }
        Ok(
            self.left
                .split_at(self.left.len().min(self.behaviour.most))
                .0,
        )
    }

    fn consume(&mut self, count: usize) {
        self.left = self.left.split_at(count.min(self.left.len())).1;
    }
}

/// The machine of one run.
#[derive(Drop)]
pub(crate) struct Machine<'a> {
    alloc: Global,
    words: &'a [&'a str],
    input: &'a [u8],
    reads: Behaviour,
    writes: Behaviour,
    written: Cell<usize>,
    output: RefCell<Vec<u8>>,
    errors: RefCell<Vec<u8>>,
}

impl<'a> Machine<'a> {
    /// A machine with these words on its command line, whose input is read so, and whose output is written so.
    pub(crate) fn new(
        alloc: Global,
        words: &'a [&'a str],
        input: &'a [u8],
        reads: Behaviour,
        writes: Behaviour,
    ) -> Self {
        Machine {
            alloc,
            words,
            input,
            reads,
            writes,
            written: Cell::new(0),
            output: RefCell::new(Vec::new(alloc)),
            errors: RefCell::new(Vec::new(alloc)),
        }
    }

    /// Counts a call that writes, which fails where it is the one that is to fail.
    fn count_write(&self) -> io::Result<()> {
        self.written.set(self.written.get().saturating_add(1));
        if self.written.get() == self.writes.fails_at {
            return Err(io::Error::from(ErrorKind::BrokenPipe));
        }
        Ok(())
    }

    /// Writes these bytes to standard output, as many in a call as it moves.
    fn write(&self, bytes: &[u8]) -> io::Result<()> {
        if self.writes.most == 0 {
            return Err(io::Error::from(ErrorKind::WriteZero));
        }
        for part in bytes.chunks(self.writes.most) {
            self.count_write()?;
            put(&self.output, part)?;
        }
        Ok(())
    }

    /// What was written to standard output, and to standard error.
    pub(crate) fn into_written(self) -> (Vec<u8>, Vec<u8>) {
        (self.output.into_inner(), self.errors.into_inner())
    }
}

/// Puts bytes behind what was written.
fn put(written: &RefCell<Vec<u8>>, bytes: &[u8]) -> io::Result<()> {
    match written.try_borrow_mut() {
        Ok(mut written) => Ok(written.extend_from_slice(bytes)?),
        Err(_) => Err(io::Error::from(ErrorKind::Other)),
    }
}

/// A value's text.
fn text_of<D: Display + Drop>(alloc: Global, value: D) -> io::Result<Vec<u8>> {
    let mut text = Vec::new(alloc);
    write!(text, "{value}")?;
    Ok(text)
}

impl Alloc for Machine<'_> {
    type A = Global;

    fn alloc(&self) -> Global {
        self.alloc
    }
}

impl Env for Machine<'_> {
    fn arg(&self, i: usize, buf: &mut [u8]) -> Result<usize, FillError> {
        let Some(word) = self.words.get(i) else {
            return Err(FillError::NotPresent);
        };
        let bytes = word.as_bytes();
        if bytes.len() > buf.len() {
            return Err(FillError::TooLong);
        }
        buf.split_at_mut(bytes.len()).0.copy_from_slice(bytes);
        Ok(bytes.len())
    }

    fn var(&self, _name: &str, _buf: &mut [u8]) -> Result<usize, FillError> {
        Err(FillError::NotPresent)
    }

    fn var_at(&self, _i: usize, _buf: &mut [u8]) -> Result<usize, FillError> {
        Err(FillError::NotPresent)
    }
}

impl<'a> Input for Machine<'a> {
    type Reader = Given<'a>;

    fn read_line<A: Allocator + Clone>(&self, buf: &mut String<A>) -> io::Result<usize> {
        self.reader().read_line(buf)
    }

    fn lines<A: Allocator>(&self, alloc: A) -> Lines<Given<'a>, A> {
        self.reader().lines(alloc)
    }

    fn reader(&self) -> Given<'a> {
        Given {
            left: self.input,
            behaviour: self.reads,
            calls: 0,
        }
    }
}

impl Print for Machine<'_> {
    fn print<D: Display + Drop>(&self, value: D) -> io::Result<()> {
        self.write(text_of(self.alloc, value)?.as_slice())
    }

    fn println<D: Display + Drop>(&self, value: D) -> io::Result<()> {
        let mut line = text_of(self.alloc, value)?;
        line.push(b'\n')?;
        self.write(line.as_slice())
    }

    fn write_all(&self, bytes: &[u8]) -> io::Result<()> {
        self.write(bytes)
    }

    fn write_some(&self, bytes: &[u8]) -> io::Result<usize> {
        self.count_write()?;
        let count = bytes.len().min(self.writes.most);
        put(&self.output, bytes.split_at(count).0)?;
        Ok(count)
    }
}

impl Eprint for Machine<'_> {
    fn eprint<D: Display + Drop>(&self, value: D) -> io::Result<()> {
        put(&self.errors, text_of(self.alloc, value)?.as_slice())
    }

    fn eprintln<D: Display + Drop>(&self, value: D) -> io::Result<()> {
        put(&self.errors, text_of(self.alloc, value)?.as_slice())?;
        put(&self.errors, b"\n")
    }
}

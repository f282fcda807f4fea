//! A reader or a writer that remembers its failures.
ghost use Rattle.std.specs.Prelude.{◌≡◌, true, length, ◌&&◌, ◌||◌, ◌==◌, is_err, not, Ok};
ghost use Rattle.std.specs.Io.{ReadsAtMost, WritesAtMost};
ghost use Rattle.std.specs.Io.KnownBytes.{ReadConsumes, WriteAppends, Keeps};
ghost use Rattle.ent_value.specs.Watched.{IsUnmarked, takes_nothing};

use std::io;
use std::io::{Read, Write};
use std::marker::Model;

/// A reader or a writer with two marks: that it failed, and that it stalled. The marks are unset at first, and only
/// this type's own reads and writes set them, so that a mark tells what happened. Contracts see `inner`, `failed` and
/// `stalled`.
#[derive(Drop)]
pub struct Watched<T> {
    inner: T,
    failed: bool,
    stalled: bool,
}

impl<T> Model for Watched<T> {
    ghost use Rattle.ent_value.specs.Watched.{Stream};

    ghost Value = { Stream T };

    ghost view = { λ w. record { inner = w.inner; failed = w.failed; stalled = w.stalled } };
}

impl<T> Watched<T> {
    /// A reader or a writer that hasn't failed yet.
    pub fn new(inner: T) -> Self
        ensures inner { result.inner ≡ inner }
        ensures unmarked { IsUnmarked result }
    {
        Watched {
            inner,
            failed: false,
            stalled: false,
        }
    }

    /// The reader or the writer.
    pub fn get(&self) -> &T
        ensures { result.now ≡ self.now.inner }
    {
        &self.inner
    }

    /// The reader or the writer, given back.
    pub fn into_inner(self) -> T
        ensures { result ≡ self.inner }
    {
        let Watched { inner, .. } = self;
        inner
    }

    /// Whether a read, a write or a flush answered an error.
    pub fn has_failed(&self) -> bool
        ensures { result ≡ self.now.failed }
    {
        self.failed
    }

    /// Whether a write of one byte or more took none.
    pub fn has_stalled(&self) -> bool
        ensures { result ≡ self.now.stalled }
    {
        self.stalled
    }
}

impl<R: Read> Watched<R> {
    /// Reads once into the buffer, and answers how many bytes came: 0 is the end.
    pub fn read(&mut self, buffer: &mut [u8]) -> io::Result<usize>
        ensures bound { ReadsAtMost result buffer.new }
        ensures bytes { ReadConsumes (R.remaining self.old.inner) (R.remaining self.new.inner) result buffer.new }
        ensures failed { self.new.failed ≡ (self.old.failed || is_err result) }
        ensures stalled { self.new.stalled ≡ self.old.stalled }
    {
        let result = self.inner.read(buffer);
        if result.is_err() {
            self.failed = true;
        }
        result
    }
}

impl<W: Write> Watched<W> {
    /// Writes a beginning of the bytes, and answers how many were taken.
    pub fn write(&mut self, bytes: &[u8]) -> io::Result<usize>
        ensures bound { WritesAtMost result bytes.now }
        ensures bytes { WriteAppends (W.contents self.old.inner) (W.contents self.new.inner) result bytes.now }
        ensures failed { self.new.failed ≡ (self.old.failed || is_err result) }
        ensures stalled { self.new.stalled ≡ (self.old.stalled || takes_nothing result bytes.now) }
    {
        let result = self.inner.write(bytes);
        match &result {
            Ok(count) => {
                if *count == 0 && !bytes.is_empty() {
                    self.stalled = true;
                }
            }
            Err(_) => self.failed = true,
        }
        result
    }

    /// Hands on what the writer holds back.
    pub fn flush(&mut self) -> io::Result<()>
        ensures bytes { Keeps (W.contents self.old.inner) (W.contents self.new.inner) }
        ensures failed { self.new.failed ≡ (self.old.failed || is_err result) }
        ensures stalled { self.new.stalled ≡ self.old.stalled }
    {
        let result = self.inner.flush();
        if result.is_err() {
            self.failed = true;
        }
        result
    }
}

//! Readers and writers that move few bytes, or fail at a stated call: `== streams`.
use anyhow::{Context, Result, bail};
use ent_scenario_files::replies::{Out, put, put_number, yes_or_no};
use ent_scenario_files::words::{index, unescaped};
use ent_value::Watched;
use std::alloc::Global;
use std::io;
use std::io::{ErrorKind, Read, Write};

/// What a reader or a writer does at its calls.
#[derive(Clone, Copy)]
pub(crate) struct Behaviour {
    /// The most bytes that a call moves.
    most: usize,
    /// Which call fails, counted from 1; 0 for none.
    fails_at: usize,
    flush_fails: bool,
}

/// A behaviour in words, as `most=16 fails_at=2 flush_fails=yes`.
pub(crate) fn read_behaviour(words: &[&str]) -> Result<Behaviour> {
    let mut behaviour = Behaviour {
        most: 1024,
        fails_at: 0,
        flush_fails: false,
    };
    for word in words {
        match word.split_once('=') {
            Some(("most", most)) => behaviour.most = index(most)?,
            Some(("fails_at", call)) => behaviour.fails_at = index(call)?,
            Some(("flush_fails", says)) => behaviour.flush_fails = says == "yes",
            _ => bail!("this is no behaviour"),
        }
    }
    Ok(behaviour)
}

/// Counts a call, and fails where its turn has come.
fn count_call(calls: &mut usize, behaviour: Behaviour) -> io::Result<()> {
    *calls = calls.saturating_add(1);
    if *calls == behaviour.fails_at {
        return Err(io::Error::from(ErrorKind::BrokenPipe));
    }
    Ok(())
}

/// A reader of some bytes.
#[derive(Drop)]
pub(crate) struct SlowReader {
    left: Vec<u8>,
    behaviour: Behaviour,
    calls: usize,
}

impl Read for SlowReader {
    fn read(&mut self, buffer: &mut [u8]) -> io::Result<usize> {
        count_call(&mut self.calls, self.behaviour)?;
        let count = self.left.len().min(buffer.len()).min(self.behaviour.most);
        let (front, rest) = self.left.as_slice().split_at(count);
        let rest = Vec::from_slice(*self.left.allocator(), rest)?;
        buffer.split_at_mut(count).0.copy_from_slice(front);
        self.left = rest;
        Ok(count)
    }
}

/// A writer that keeps what it takes.
#[derive(Drop)]
pub(crate) struct SlowWriter {
    taken: Vec<u8>,
    behaviour: Behaviour,
    calls: usize,
}

impl SlowWriter {
    pub(crate) fn new(alloc: Global, behaviour: Behaviour) -> Self {
        SlowWriter {
            taken: Vec::new(alloc),
            behaviour,
            calls: 0,
        }
    }

    pub(crate) fn taken(&self) -> &[u8] {
        self.taken.as_slice()
    }
}

impl Write for SlowWriter {
    fn write(&mut self, bytes: &[u8]) -> io::Result<usize> {
        count_call(&mut self.calls, self.behaviour)?;
        let count = bytes.len().min(self.behaviour.most);
        self.taken.extend_from_slice(bytes.split_at(count).0)?;
        Ok(count)
    }

    fn flush(&mut self) -> io::Result<()> {
        if self.behaviour.flush_fails {
            return Err(io::Error::from(ErrorKind::BrokenPipe));
        }
        Ok(())
    }
}

/// A reader and a writer.
#[derive(Drop)]
pub(crate) struct Streams {
    reader: Watched<SlowReader>,
    writer: Watched<SlowWriter>,
}

fn reader(alloc: Global, text: &str, behaviour: Behaviour) -> Result<Watched<SlowReader>> {
    Ok(Watched::new(SlowReader {
        left: Vec::from_slice(alloc, text.as_bytes())?,
        behaviour,
        calls: 0,
    }))
}

impl Streams {
    pub(crate) fn new(alloc: Global) -> Result<Self> {
        let behaviour = read_behaviour(&[])?;
        Ok(Streams {
            reader: reader(alloc, "", behaviour)?,
            writer: Watched::new(SlowWriter::new(alloc, behaviour)),
        })
    }
}

pub(crate) fn reply(
    alloc: Global,
    streams: &mut Streams,
    call: &[&str],
    out: &mut Out,
) -> Result<()> {
    match call {
        ["reader", text, words @ ..] => {
            streams.reader = read_reader(alloc, text, words)?;
            put_marks(&streams.reader, out);
        }
        ["writer", words @ ..] => {
            streams.writer = Watched::new(SlowWriter::new(alloc, read_behaviour(words)?));
            put_marks(&streams.writer, out);
        }
        ["read", most] => put_read(alloc, &mut streams.reader, index(most)?, out)?,
        ["write", text] => put_written(alloc, &mut streams.writer, text, out)?,
        ["flush"] => put_flushed(&mut streams.writer, out),
        ["taken"] => put_taken(out, streams.writer.get().taken()),
        _ => bail!("streams know no such call"),
    }
    Ok(())
}

fn read_reader(alloc: Global, text: &str, words: &[&str]) -> Result<Watched<SlowReader>> {
    let text = unescaped(alloc, text)?;
    reader(alloc, text.as_str(), read_behaviour(words)?)
}

fn put_read(
    alloc: Global,
    reader: &mut Watched<SlowReader>,
    most: usize,
    out: &mut Out,
) -> Result<()> {
    let mut buffer = vec![in alloc; 0; most]?;
    let read = reader.read(buffer.as_mut_slice()).ok();
    put_moved(out, read);
    put_marks(reader, out);
    Ok(())
}

fn put_written(
    alloc: Global,
    writer: &mut Watched<SlowWriter>,
    text: &str,
    out: &mut Out,
) -> Result<()> {
    let text = unescaped(alloc, text)?;
    let written = writer.write(text.as_bytes()).ok();
    put_moved(out, written);
    put_marks(writer, out);
    Ok(())
}

fn put_flushed(writer: &mut Watched<SlowWriter>, out: &mut Out) {
    let moved = match writer.flush() {
        Ok(()) => Some(0),
        Err(_) => None,
    };
    put_moved(out, moved);
    put_marks(writer, out);
}

fn put_moved(out: &mut Out, moved: Option<usize>) {
    match moved {
        Some(count) => put_number(out, count),
        None => put(out, "failed"),
    }
    put(out, ", ");
}

pub(crate) fn put_marks<T>(watched: &Watched<T>, out: &mut Out) {
    put(out, "failed ");
    put(out, yes_or_no(watched.has_failed()));
    put(out, ", stalled ");
    put(out, yes_or_no(watched.has_stalled()));
}

/// What was taken, with `\n` for the end of a line.
pub(crate) fn put_taken(out: &mut Out, taken: &[u8]) {
    for byte in taken {
        if *byte == b'\n' {
            put(out, "\\n");
        } else {
            out.put_bytes(&[*byte]);
        }
    }
}

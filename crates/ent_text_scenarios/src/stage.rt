//! What the calls of a scenario speak of.
use crate::book::BookDraft;
use crate::streams::Streams;
use crate::{book, counts, forms, prints, streams, tokens, trees, values};
use anyhow::{Result, bail};
use ent_scenario_files::Part;
use ent_scenario_files::replies::Out;
use std::alloc::Global;

/// What is called, as the line `== ..` before the calls names it.
#[derive(Drop)]
pub(crate) enum Stage {
    Tokens,
    Trees,
    Prints,
    Copies,
    Counts,
    Forms,
    Values,
    Book(BookDraft),
    Streams(Streams),
}

impl Part for Stage {
    fn begin(alloc: Global, name: &str) -> Result<Self> {
        Ok(match name {
            "tokens" => Stage::Tokens,
            "trees" => Stage::Trees,
            "prints" => Stage::Prints,
            "copies" => Stage::Copies,
            "counts" => Stage::Counts,
            "forms" => Stage::Forms,
            "values" => Stage::Values,
            "book" => Stage::Book(BookDraft::new(alloc)),
            "streams" => Stage::Streams(Streams::new(alloc)?),
            _ => bail!("nothing is called {name}"),
        })
    }

    fn reply(&mut self, alloc: Global, line: &str, call: &[&str], out: &mut Out) -> Result<()> {
        match self {
            Stage::Tokens => tokens::reply(alloc, line, out),
            Stage::Trees => trees::reply(alloc, line, out),
            Stage::Prints => prints::reply(alloc, line, out),
            Stage::Copies => prints::reply_to_copies(alloc, line, out),
            Stage::Counts => counts::reply(alloc, line, out),
            Stage::Forms => forms::reply(alloc, line, out),
            Stage::Values => values::reply(alloc, call, out),
            Stage::Book(draft) => book::reply(alloc, draft, call, out),
            Stage::Streams(streams) => streams::reply(alloc, streams, call, out),
        }
    }
}

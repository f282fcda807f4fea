//! Lists: `== lists`. Numbers are pushed to a sequence, and to a list of at most two as long as there is room in it.
use crate::groups::put_numbers;
use anyhow::{Result, bail};
use ent_scenario_files::replies::{Out, put, put_number, put_shown, yes_or_no};
use ent_scenario_files::words::{index, number};
use ent_value::{Limited, Sequence};
use std::alloc::Global;
use std::mem::replace;

/// A sequence, and a list of at most two.
#[derive(Drop)]
pub(crate) struct Lists {
    sequence: Sequence<u64>,
    pair: Limited<u64, 2>,
}

impl Lists {
    pub(crate) fn new(alloc: Global) -> Self {
        Lists {
            sequence: Sequence::new(alloc),
            pair: Limited::new(alloc),
        }
    }

    pub(crate) fn reply(&mut self, alloc: Global, call: &[&str], out: &mut Out) -> Result<()> {
        match call {
            ["push", word] => self.push(number(word)?)?,
            ["rebuild"] => self.rebuild(alloc),
            ["get", place] => {
                self.put_at(index(place)?, out);
                return Ok(());
            }
            ["count"] => {
                self.put_counts(out);
                return Ok(());
            }
            _ => bail!("lists know no such call"),
        }
        self.put(out);
        Ok(())
    }

    fn push(&mut self, number: u64) -> Result<()> {
        self.sequence.push(number)?;
        if self.pair.len() < 2 {
            self.pair.push(number)?;
        }
        Ok(())
    }

    /// The sequence is made anew, of the vector that it was.
    fn rebuild(&mut self, alloc: Global) {
        let vector = replace(&mut self.sequence, Sequence::new(alloc)).into_vec();
        self.sequence = Sequence::from_vec(vector);
    }

    /// Both lists, as they are lent.
    fn put(&self, out: &mut Out) {
        put_numbers(out, self.sequence.as_slice());
        put(out, "; ");
        put_numbers(out, self.pair.as_slice());
    }

    fn put_at(&self, place: usize, out: &mut Out) {
        put_found(self.sequence.get(place), out);
        put(out, "; ");
        put_found(self.pair.get(place), out);
    }

    /// How many there are, as it is told and as they are walked through, and whether there are none.
    fn put_counts(&self, out: &mut Out) {
        put_number(out, self.sequence.len());
        put(out, " ");
        put_number(out, self.sequence.iter().count());
        put(out, " ");
        put(out, yes_or_no(self.sequence.is_empty()));
        put(out, "; ");
        put_number(out, self.pair.len());
        put(out, " ");
        put_number(out, self.pair.iter().count());
        put(out, " ");
        put(out, yes_or_no(self.pair.is_empty()));
    }
}

fn put_found(found: Option<&u64>, out: &mut Out) {
    match found {
        Some(number) => put_shown(out, number),
        None => put(out, "none"),
    }
}

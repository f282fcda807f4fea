//! Tables on which members were blocked.
use crate::observation::Block;
use crate::observations::Observations;
use ent_group::Tx;
use ent_lock::Mode;
use std::{fmt, str};

/// The table on which a holder blocked a transaction, if that was seen.
pub(crate) fn block_of(observations: &Observations, tx: Tx, holder: Tx) -> Option<&Block> {
    let blocks = observations.observation(tx)?.blocks.as_slice();
    blocks.iter().find(|block| block.holder == holder)
}

/// How a table is used.
#[derive(Clone, Copy)]
pub(crate) struct ModeText(pub(crate) Mode);

impl fmt::Display for ModeText {
    fn fmt<W: fmt::Write>(&self, f: &mut fmt::Formatter<W>) -> fmt::Result {
        match self.0 {
            Mode::Shared => write!(f, "shared"),
            Mode::Exclusive => write!(f, "exclusively"),
        }
    }
}

/// The name of a table.
#[derive(Clone, Copy)]
pub(crate) struct TableName<'a>(pub(crate) &'a Block);

impl fmt::Display for TableName<'_> {
    fn fmt<W: fmt::Write>(&self, f: &mut fmt::Formatter<W>) -> fmt::Result {
        write!(
            f,
            "{}",
            str::from_utf8(self.0.table.as_bytes()).unwrap_or("..")
        )
    }
}

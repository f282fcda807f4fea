//! What a posted statement lacked.
use crate::observation::Lacking;
use std::{fmt, str};

/// A way to a lacking demand over more transactions than this is told in short.
const LONG_WAY: usize = 5;

impl Lacking {
    /// Whether it hangs on so many others that not all of them are named.
    pub(crate) fn is_long(&self) -> bool {
        self.way.len() > LONG_WAY
    }
}

impl fmt::Display for Lacking {
    fn fmt<W: fmt::Write>(&self, f: &mut fmt::Formatter<W>) -> fmt::Result {
        let number = self.number;
        let demand = str::from_utf8(self.demand.as_slice()).unwrap_or("..");
        let needed = self.way.as_slice().get(1..).unwrap_or(&[]);
        let Some(last) = needed.last() else {
            return write!(
                f,
                "nobody offered a match for its demand {number}, {demand}"
            );
        };
        let named = if self.is_long() { 2 } else { needed.len() };
        let mut needs = "it needs";
        for tx in needed.get(..named).unwrap_or(needed) {
            write!(f, "{needs} tx {tx}")?;
            needs = ", which needs";
        }
        if self.is_long() {
            let others = needed.len();
            write!(f, ", and so on over {others} others to tx {last}")?;
        }
        write!(
            f,
            ", and nobody offered a match for demand {number} of tx {last}, {demand}"
        )
    }
}

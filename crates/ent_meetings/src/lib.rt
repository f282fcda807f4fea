//! Who may meet, by the text alone: what a script offers and demands of the others, and which of those who wait meet.
//!
//! A script demands the postconditions of all its entangled statements, and offers all their heads. Of a term the text
//! may know the value: that of a literal, and of a host variable that the script has SET to a literal and not bound
//! since. A demand may be met by an offer of its relation and length, unless two known values differ. So what is told
//! here doesn't depend on tables, and a meeting that the tables forbid is not ruled out.
#![tactic(auto)]

mod board;
mod closed;
mod entry;
mod found;
mod group;
mod index;
mod key;
mod known;
mod lack;
mod meeting;
mod next;
mod party;
mod pattern;
mod postings;
mod search;
mod side;
mod tickets;
mod widening;

pub use found::{Bound, Found};
pub use index::Index;
pub use lack::{Lack, unoffered};
pub use meeting::is_met;
pub use next::Next;
pub use party::Party;
pub use pattern::{Pattern, may_be_one};
pub use search::{MOST_CHOICES, MOST_LOOKS, Search};
pub use widening::widen;

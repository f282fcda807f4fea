//! Classes of which no value is in all indexes that have that class and no other: there is no choice then.
ghost use Rattle.std.specs.Prelude.{◌≡◌, ◌<◌, ℕ, length, true};
ghost use Rattle.std.specs.List.{list_all, list_any};
ghost use Rattle.ent_join.specs.Domain.{is_empty_domain, may_have};

use crate::frame::Frame;
use crate::index::Index;
use ent_value::{Row, Value};

/// Whether each index of a class alone has the value of a key of one value.
fn all_may_have(indexes: &[Index], class: usize, key: &[Value]) -> bool
    ensures { result ≡ list_all (may_have class key.now) indexes.now }
{
    indexes.iter().all(|index| index.may_have(class, key))
}

/// Whether each index of a class alone has the value of one of some keys.
fn some_is_had(indexes: &[Index], class: usize, keys: &[Row]) -> bool
    ensures { result ≡ list_any (λ key. list_all (may_have class key) indexes.now) keys.now }
{
    keys.iter()
        .any(|key| all_may_have(indexes, class, key.values()))
}

/// Whether the first of some indexes that is of a class alone has no value that all have.
fn is_empty_domain(indexes: &[Index], class: usize, leaders: &[Index]) -> bool
    ensures { result ≡ is_empty_domain indexes.now class leaders.now }
{
    match leaders {
        [] => false,
        [leader, leaders @ ..] => {
            if leader.is_alone(class) {
                return !some_is_had(indexes, class, leader.rows());
            }
            is_empty_domain(indexes, class, leaders)
        }
    }
}

impl Frame {
    /// Whether there is a class of which no value is in all indexes of it alone.
    pub(crate) fn has_empty_domain(&self) -> bool
        ensures { result ≡ true → (class : ℕ) × (class < length self.now.kinds)
            × (is_empty_domain self.now.indexes class self.now.indexes ≡ true) }
    {
        let indexes = self.indexes.as_slice();
        for class in 0..self.kinds.len() {
            if is_empty_domain(indexes, class, indexes) {
                return true;
            }
        }
        false
    }
}

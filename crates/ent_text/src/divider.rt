//! What stands between the things of a list.

/// What stands between two things of a list.
#[derive(Clone, Copy, Debug, PartialEq, Eq)]
pub enum Divider {
    Comma,
    And,
}

//! Links between places, and marks that go along them.
ghost use Rattle.std.specs.Prelude.{◌≡◌, ◌<◌, length, MatchBool};
ghost use Rattle.ent_match.specs.Links.{AreWithin, Closes, Grows, Closed, unmarked};

/// A link from one place to another.
#[derive(Clone, Copy)]
pub struct Link {
    pub from: usize,
    pub to: usize,
}

/// Marks the places that a link leads to from a marked one, and answers whether there was a new one.
fn mark_once(links: &[Link], marks: &mut [bool]) -> bool
    requires { AreWithin links.now (length marks.old) }
    ensures grows { Grows links.now marks.old marks.new }
    ensures ends { MatchBool result (unmarked marks.new < unmarked marks.old) (Closed links.now marks.new) }
{
    let mut is_new = false;
    for link in links {
        if marks[link.from] && !marks[link.to] {
            marks[link.to] = true;
            is_new = true;
        }
    }
    is_new
}

/// Marks all places that links lead to from marked ones.
pub(crate) fn mark_all(links: &[Link], marks: &mut [bool])
    requires { AreWithin links.now (length marks.old) }
    ensures { Closes links.now marks.old marks.new }
{
    'rounds: while mark_once(links, marks) {}
}

//! Labels of places: the least place from which links lead to each, along them and back.
ghost use Rattle.std.specs.Prelude.{◌≡◌, ◌<◌, length, MatchBool};
ghost use Rattle.ent_match.specs.Components.{joins_of};
ghost use Rattle.ent_match.specs.Labels.{LevelsOne, Lowers, IsLevel, Stays, total};
ghost use Rattle.ent_match.specs.Links.{AreWithin};

use crate::link::Link;

/// Takes the lesser label of the two places of a link to the other, unless it leads to a removed one; answers whether
/// one was less.
fn lower_along(link: Link, removed: &[bool], labels: &mut [usize]) -> bool
    requires from { link.from < length labels.old }
    requires to { link.to < length labels.old }
    requires room { length removed.now ≡ length labels.old }
    ensures { MatchBool result (LevelsOne link removed.now labels.old labels.new)
        (Stays link removed.now labels.old labels.new) }
{
    if removed[link.to] {
        return false;
    }
    let from = labels[link.from];
    let to = labels[link.to];
    if from < to {
        labels[link.to] = from;
        return true;
    }
    if to < from {
        labels[link.from] = to;
        return true;
    }
    false
}

/// Takes labels along the links between places that aren't removed, from a lesser one to a greater one either way, and
/// answers whether there was such a link.
fn lower_once(links: &[Link], removed: &[bool], labels: &mut [usize]) -> bool
    requires within { AreWithin links.now (length labels.old) }
    requires room { length removed.now ≡ length labels.old }
    ensures lowers { Lowers (joins_of links.now removed.now) labels.old labels.new }
    ensures ends { MatchBool result (total labels.new < total labels.old)
        (IsLevel (joins_of links.now removed.now) labels.new) }
{
    let mut is_new = false;
    for link in links {
        if lower_along(*link, removed, labels) {
            is_new = true;
        }
    }
    is_new
}

/// Takes labels along links between places that aren't removed, both ways, until none leads to a greater one.
pub(crate) fn lower_all(links: &[Link], removed: &[bool], labels: &mut [usize])
    requires within { AreWithin links.now (length labels.old) }
    requires room { length removed.now ≡ length labels.old }
    ensures lowers { Lowers (joins_of links.now removed.now) labels.old labels.new }
    ensures level { IsLevel (joins_of links.now removed.now) labels.new }
{
    'rounds: while lower_once(links, removed, labels) {}
}

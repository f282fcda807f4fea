//! Which posts and heads of statements unify.
ghost use Rattle.std.specs.Prelude.{◌≡◌, ◌↔◌, ◌<◌, IsTrue, length, Some, slice_get};
ghost use Rattle.ent_semantics.specs.Pool.{CanMeet};

use crate::posted::Posted;
use ent_unify::unifies;

/// Whether a post of one statement, by its index, unifies with a head of another. It tries each head.
pub(crate) fn has_head_for(owner: &Posted, asker: &Posted, index: usize) -> bool
    requires { index < length asker.now.statement.posts }
    ensures { IsTrue result ↔ CanMeet asker.now index owner.now }
{
    let posted = asker.statement();
    let offering = owner.statement();
    let post = &posted.posts.as_slice()[index];
    for head in offering.heads.as_slice() {
        if unifies(
            post,
            posted.variables.as_slice(),
            head,
            offering.variables.as_slice(),
        ) {
            return true;
        }
    }
    false
}

/// Whether a post of one statement, by its index, unifies with a head of another.
pub(crate) fn can_meet(asker: &Posted, index: usize, owner: &Posted) -> bool
    requires { index < length asker.now.statement.posts }
    ensures { IsTrue result ↔ CanMeet asker.now index owner.now }
{
    if !asker.may_meet(owner) {
        return false;
    }
    has_head_for(owner, asker, index)
}

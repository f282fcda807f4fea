//! Whether one more statement may be posted.
ghost use Rattle.std.specs.Prelude.{◌≡◌, [], ◌∷◌, ◌++◌, IfOk, MatchOption};
ghost use Rattle.ent_semantics.specs.Pool.{IsFirstUnsafe, IsSafe};
ghost use Rattle.ent_match.specs.Posting.{HasNone};
ghost use Rattle.ent_match.specs.declared.fault.PostFault.TheVariants as faults;

use ent_match::{Pool, PostFault, Posted, Unsafe, same_statements_are_alike};
use std::alloc::{AllocError, Global};

/// Why a statement isn't posted, where it isn't for want of memory.
pub fn unsafe_post(why: PostFault) -> Result<Unsafe, AllocError>
    ensures { IfOk result (λ fault. why ≡ faults.Unsafe fault) }
{
    match why {
        PostFault::Memory => Err(AllocError),
        PostFault::Unsafe(fault) => Ok(fault),
    }
}

/// Why one more statement can't be posted: none where the pool with it is safe, else the first unsafe post of
/// that pool.
pub fn post_fault(alloc: Global, pool: &Pool, query: &Posted) -> Result<Option<Unsafe>, AllocError>
    requires { HasNone pool.now query.now }
    ensures { IfOk result (λ fault. MatchOption fault (IsSafe (pool.now ++ query.now ∷ []))
        (IsFirstUnsafe (pool.now ++ query.now ∷ []))) }
{
    same_statements_are_alike();
    let mut with_query = pool.shared(alloc)?;
    let member = query.shared()?;
    match with_query.post(member) {
        Ok(()) => Ok(None),
        Err((member, why)) => {
            drop(member);
            let fault = unsafe_post(why)?;
            Ok(Some(fault))
        }
    }
}

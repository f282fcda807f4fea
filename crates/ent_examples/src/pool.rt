//! Pools of friends. Nothing here has a body; what holds is in the contracts.
ghost use Rattle.ent_semantics.specs.Pool.{IsFirstUnsafe, IsSafe, IsUnsafeAt};
ghost use Rattle.ent_examples.specs.Pool.{two_friends, with_third};

/// Two friends who name each other are a safe pool.
pub fn friends_are_safe()
    ensures { IsSafe two_friends }
{}

/// Where a third transaction offers what the second does, the first one's post unifies with two heads.
pub fn third_is_unsafe()
    ensures pair { IsUnsafeAt with_third (record { asker = 1; index = 0; first = 2; second = 3 }) }
    ensures not_safe { IsSafe with_third → ⊥ }
{}

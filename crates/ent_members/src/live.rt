//! What stands in the slab under the keys of transactions.
ghost use Rattle.std.specs.Prelude.{◌≡◌, ◌+◌, ◌==◌, ℕ, false, length, nat_eq};
ghost use Rattle.std.specs.List.{AllByRecursion, IsDistinct, list_any};
ghost use Rattle.slab.specs.Slab.{ContainsKey, get as value_at, slab_len};

use crate::Entrant;
use slab::Slab;

/// What stands under these keys is taken out.
pub(crate) fn remove_each(live: &mut Slab<Entrant>, keys: &[usize])
    requires distinct { IsDistinct nat_eq keys.now }
    requires there { AllByRecursion (ContainsKey live.old) keys.now }
    ensures others { (key : ℕ) → list_any (λ k. k == key) keys.now ≡ false
        → value_at live.new key ≡ value_at live.old key }
    ensures fewer { slab_len live.new + length keys.now ≡ slab_len live.old }
{
    let Some((first, rest)) = keys.split_first() else {
        return;
    };
    live.remove(*first);
    remove_each(live, rest);
}

//! Jobs are called back.
ghost use Rattle.std.specs.Prelude.{◌≡◌, []};

use crate::store::Store;

/// Lends no job any more, not even one whose statements are no component now. It takes no memory.
pub(crate) fn recall(store: &mut Store)
    ensures { store.new ≡ record store.old { lent = [] } }
{
    store.lent.clear();
}

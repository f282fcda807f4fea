//! Scripts that were read before.
ghost use Rattle.std.specs.Prelude.{◌≡◌, IfOk, IfSome};
ghost use Rattle.ent_prepare.specs.Cached.{AreRead};
ghost use Rattle.ent_input.specs.Reading.{IsScript};

use ent_tree::Script;
use lru::LruCache;
use std::alloc::{AllocError, Global};
use std::num::NonZeroUsize;

/// How many texts are kept with their scripts. One more takes the place of the one that was used longest ago.
pub const MOST_TEXTS: usize = 64;

/// The most bytes of a text that is kept. A longer one is read each time.
pub const LONGEST_KEPT: usize = 4_096;

/// Texts, each with the script that it reads as, the most recently used first.
pub(crate) type Cache = LruCache<Vec<u8>, Script>;

/// A cache in which nothing is kept.
pub(crate) fn empty(alloc: Global) -> Result<Cache, AllocError>
    ensures { IfOk result (λ cache. AreRead cache.entries) }
{
    match NonZeroUsize::new(MOST_TEXTS) {
        Some(most) => LruCache::new(alloc, most),
        None => unreachable!(),
    }
}

/// A copy of a text.
fn copied(alloc: Global, text: &[u8]) -> Result<Vec<u8>, AllocError>
    ensures { IfOk result (λ copy. copy.items ≡ text.now) }
{
    let mut copy = Vec::new(alloc);
    copy.extend_from_slice(text)?;
    Ok(copy)
}

/// Keeps a script under its text. A longer text isn't kept, nor is one for which memory runs out.
pub(crate) fn keep(alloc: Global, cache: &mut Cache, text: &[u8], script: Script)
    requires script { IsScript text.now script }
    requires kept { AreRead cache.old.entries }
    ensures { AreRead cache.new.entries }
{
    if text.len() > LONGEST_KEPT {
        return;
    }
    if let Ok(key) = copied(alloc, text) {
        let _ = cache.put(key, script);
    }
}

/// A text that is kept becomes the most recently used.
pub(crate) fn touch(cache: &mut Cache, text: &[u8])
    requires { AreRead cache.old.entries }
    ensures { AreRead cache.new.entries }
{
    let _ = cache.promote(text);
}

/// The script of a text that is kept.
pub(crate) fn kept<'a>(cache: &'a Cache, text: &[u8]) -> Option<&'a Script>
    requires { AreRead cache.now.entries }
    ensures { IfSome result (λ script. IsScript text.now script.now) }
{
    cache.peek(text)
}

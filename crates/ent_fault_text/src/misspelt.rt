//! Words that are nearly reserved ones.
use crate::expected::Expected;
use crate::mark::Mark;
use crate::scene::Scene;
use std::alloc::AllocError;

/// The hint that a reserved word was meant. It could have stood in the place of the token that can't stand, or of the
/// one before that, where this was read as a name.
pub(crate) fn misspelt(
    scene: &Scene<'_>,
    found: &Mark<'_>,
    expected: &Expected,
) -> Result<Option<String>, AllocError> {
    let alloc = scene.alloc;
    if let Some(near) = expected.meant(alloc, found.text)? {
        return Ok(Some(near));
    }
    match scene.token(-1) {
        Some(before) if before.is_name() => {
            let lead = scene.lead_up_to(before.start);
            Expected::behind(alloc, scene.whole, lead)?.meant(alloc, before.text)
        }
        _ => Ok(None),
    }
}

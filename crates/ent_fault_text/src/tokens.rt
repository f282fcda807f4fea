//! The tokens around a place.
use crate::mark::{Mark, sort_of};
use crate::scene::Scene;
use ent_text::Tokens;
use std::alloc::AllocError;

/// What stands around the place of a scene of which no token was taken.
pub(crate) fn scene_at<'a>(mut scene: Scene<'a>) -> Result<Scene<'a>, AllocError> {
    let whole_text = scene.text;
    let mut left = Tokens::of(whole_text);
    while let Some(view) = left.front() {
        let sort = sort_of(view);
        let start = left.start(0);
        let text = whole_text.get(start..left.end(0)).unwrap_or("");
        scene.take(Mark { sort, text, start })?;
        if scene.is_full {
            break;
        }
        left = left.tail();
    }
    Ok(scene)
}

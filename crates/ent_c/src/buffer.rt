//! A buffer of the caller's.
ghost use Rattle.std.specs.Prelude.{◌≡◌};
ghost use Rattle.ent_c.specs.Text.{laid_over};

/// Lays a text over the beginning of a buffer. What doesn't fit is cut off.
pub(crate) fn lay_over(text: &[u8], buffer: &mut [u8])
    ensures { buffer.new ≡ laid_over buffer.old text.now }
{
    let count = text.len().min(buffer.len());
    let (front, _) = buffer.split_at_mut(count);
    front.copy_from_slice(&text[..count]);
}

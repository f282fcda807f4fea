//! Single bytes and ends of a slice.
ghost use Rattle.std.specs.Prelude.{◌≡◌, ◌≤◌, length, drop, slice_index};

/// The byte at an index, or 0.
pub(crate) fn byte_at(bytes: &[u8], index: usize) -> u8
    ensures { result ≡ slice_index bytes.now index }
{
    bytes.get(index).copied().unwrap_or(0)
}

/// The bytes behind so many of them.
pub fn tail(bytes: &[u8], len: usize) -> &[u8]
    requires { len ≤ length bytes.now }
    ensures { result.now ≡ drop len bytes.now }
{
    bytes.split_at(len).1
}

/// The bytes from an index on; none, where there are fewer.
pub(crate) fn from(bytes: &[u8], index: usize) -> &[u8]
    ensures { result.now ≡ drop index bytes.now }
{
    bytes.get(index..).unwrap_or(&[])
}

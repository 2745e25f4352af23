//! Parts of slices.

ghost use Rattle.std.specs.Prelude.{◌≡◌, ◌≤◌, length, take, drop};

/// Puts the first bytes at the beginning of a buffer, and leaves the rest of it.
pub fn copy_prefix(buf: &mut [u8], bytes: &[u8], count: usize)
    requires fits { count ≤ length buf.old }
    requires there { count ≤ length bytes.now }
    ensures prefix { take count buf.new ≡ take count bytes.now }
    ensures rest { drop count buf.new ≡ drop count buf.old }
{
    buf[..count].copy_from_slice(&bytes[..count]);
}

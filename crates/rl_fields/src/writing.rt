//! Numbers written at the end of a byte string, the highest byte first. After `Memory` the byte string is unchanged.

ghost use Rattle.std.specs.Prelude.{◌≡◌, ◌++◌, OnOk, OnErr};
ghost use Rattle.byteorder.specs.Endian.{big_bytes};

use byteorder::{BigEndian, ByteOrder};
use rl_base::list::Bytes;
use rl_base::memory::Memory;

/// Appends a byte.
pub fn push_u8(out: &mut Bytes, x: u8) -> Result<(), Memory>
    ensures ok { OnOk result (out.new ≡ out.old ++ big_bytes 1 x) }
    ensures err { OnErr result (out.new ≡ out.old) }
{
    out.push(x)
}

/// Appends a number's four bytes.
pub fn push_u32(out: &mut Bytes, x: u32) -> Result<(), Memory>
    ensures ok { OnOk result (out.new ≡ out.old ++ big_bytes 4 x) }
    ensures err { OnErr result (out.new ≡ out.old) }
{
    let mut bytes = [0; 4];
    BigEndian::write_u32(&mut bytes, x);
    out.append(&bytes)
}

/// Appends a number's eight bytes.
pub fn push_u64(out: &mut Bytes, x: u64) -> Result<(), Memory>
    ensures ok { OnOk result (out.new ≡ out.old ++ big_bytes 8 x) }
    ensures err { OnErr result (out.new ≡ out.old) }
{
    let mut bytes = [0; 8];
    BigEndian::write_u64(&mut bytes, x);
    out.append(&bytes)
}

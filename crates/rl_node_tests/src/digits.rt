//! Bytes as hexadecimal digits.

ghost use Rattle.std.specs.Prelude.{◌<◌};

use rl_base::memory::Memory;
use std::alloc::Global;

/// The bytes that hexadecimal digits stand for. Blanks count for nothing.
pub fn bytes_of(alloc: Global, digits: &str) -> Result<Vec<u8>, Memory> {
    let mut bytes = Vec::new(alloc);
    let mut high = None;
    for c in digits.as_bytes() {
        if *c == b' ' {
            continue;
        }
        high = match high {
            None => Some(digit(*c)),
            Some(high) => {
                bytes.push(high * 16 + digit(*c))?;
                None
            }
        };
    }
    Ok(bytes)
}

/// The number of a hexadecimal digit; of anything else 0.
fn digit(c: u8) -> u8
    ensures { result < 16 }
{
    if c >= b'0' && c <= b'9' {
        c - b'0'
    } else if c >= b'a' && c <= b'f' {
        c - b'a' + 10
    } else {
        0
    }
}

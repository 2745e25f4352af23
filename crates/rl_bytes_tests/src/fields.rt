//! Fields, written and read.

use rl_base::flaw::Flaw;
use rl_base::list::Bytes;
use rl_fields::fault::Fault;
use rl_fields::number::{u8_within, u32_within, u64_within};
use rl_fields::string::{alone, string};
use rl_fields::writing::{push_u8, push_u32, push_u64};
use std::test::Fail;

#[test]
fn fields_are_read_as_they_were_written(rt: HostRuntime) -> Result<(), Fail> {
    let mut out = Bytes::new(rt.alloc());
    push_u8(&mut out, 7)?;
    push_u32(&mut out, 258)?;
    push_u64(&mut out, 1099511627776)?;
    out.append(b"ab")?;
    let (byte, rest) = u8_within(1, 7, out.as_slice())?;
    assert_eq!(rt; byte, 7);
    let (short, rest) = u32_within(0, 258, rest)?;
    assert_eq!(rt; short, 258);
    let (long, rest) = u64_within(0, u64::MAX, rest)?;
    assert_eq!(rt; long, 1099511627776);
    let (text, rest) = string(2, rest)?;
    assert_eq!(rt; text, b"ab".as_slice());
    alone((), rest)?;
    Ok(())
}

#[test]
fn faults_tell_what_was_left(rt: HostRuntime) {
    let bytes = [0, 0, 1, 2, 9];
    assert!(rt;
        matches!(
            u32_within(0, 257, &bytes),
            Err(Fault {
                left: 5,
                kind: Flaw::Range
            })
        )
    );
    assert!(rt;
        matches!(
            u64_within(0, 1, &bytes),
            Err(Fault {
                left: 5,
                kind: Flaw::Short
            })
        )
    );
    assert!(rt;
        matches!(
            alone((), &bytes[4..]),
            Err(Fault {
                left: 1,
                kind: Flaw::Extra
            })
        )
    );
}

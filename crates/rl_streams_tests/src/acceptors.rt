//! An acceptor of one stream.

ghost use Rattle.std.specs.Prelude.{◌≡◌, length, IfOk};

use rl_acceptor::Refused;
use rl_acceptor::acceptor::Acceptor;
use rl_base::list::{Bytes, Log};
use rl_base::memory::Memory;
use std::alloc::Global;
use std::process::Abort;
use std::test::Fail;

/// A log of one batch of one byte.
fn log_of_one(alloc: Global, byte: u8) -> Result<Log, Memory>
    ensures { IfOk result (λ log. length log ≡ 1) }
{
    let mut log = Log::new(alloc);
    log.push(Bytes::from_slice(alloc, &[byte])?)?;
    Ok(log)
}

/// What comes to an acceptor.
#[derive(Clone, Copy)]
enum Call {
    Prepare { epoch: u32 },
    /// A log of one batch of one byte.
    Sync { epoch: u32, byte: u8 },
    /// The batch `7` for a slot.
    Accept { epoch: u32, slot: u8 },
}

/// What comes to an acceptor, and what it answers.
const CALLS: [(Call, Result<u32, Refused>); 10] = [
    (Call::Prepare { epoch: 5 }, Ok(0)),
    (
        Call::Prepare { epoch: 4 },
        Err(Refused::Promised { promised: 5 }),
    ),
    (
        Call::Accept { epoch: 4, slot: 0 },
        Err(Refused::Promised { promised: 5 }),
    ),
    (
        Call::Accept { epoch: 5, slot: 0 },
        Err(Refused::OtherBallot { ballot: 0 }),
    ),
    (Call::Sync { epoch: 5, byte: 1 }, Ok(1)),
    (
        Call::Accept { epoch: 5, slot: 2 },
        Err(Refused::OutOfOrder { len: 1 }),
    ),
    (Call::Accept { epoch: 5, slot: 1 }, Ok(2)),
    (Call::Accept { epoch: 5, slot: 1 }, Ok(2)),
    (
        Call::Sync { epoch: 4, byte: 9 },
        Err(Refused::Promised { promised: 5 }),
    ),
    (Call::Sync { epoch: 5, byte: 9 }, Ok(2)),
];

/// What an acceptor answers; a Prepare is answered by 0.
fn answer(
    alloc: Global,
    acceptor: &mut Acceptor,
    call: Call,
) -> Result<Result<u32, Refused>, Memory>
    requires { length acceptor.old.streams ≡ 1 }
    ensures { length acceptor.new.streams ≡ 1 }
{
    Ok(match call {
        Call::Prepare { epoch } => match acceptor.prepare(epoch) {
            Ok(()) => Ok(0),
            Err(refused) => Err(refused),
        },
        Call::Sync { epoch, byte } => acceptor.sync(epoch, 1, log_of_one(alloc, byte)?),
        Call::Accept { epoch, slot } => {
            let batch = Bytes::from_slice(alloc, &[7])?;
            acceptor.accept(epoch, 1, u32::from(slot), batch)
        }
    })
}

/// Checks that a log is of batches of one byte, these.
fn check_log(rt: &impl Abort, log: &Log, expected: &[u8]) {
    assert_eq!(rt; log.len(), expected.len());
    for (batch, byte) in log.as_slice().iter().zip(expected) {
        assert_eq!(rt; batch.as_slice(), [*byte].as_slice());
    }
}

#[test]
fn one_stream(rt: HostRuntime) -> Result<(), Fail> {
    let alloc = rt.alloc();
    let mut acceptor = Acceptor::new(alloc, 1)?;
    for (call, expected) in CALLS {
        assert_eq!(rt; answer(alloc, &mut acceptor, call)?, expected);
    }
    check_log(&rt, acceptor.log(1), &[1, 7]);
    assert_eq!(rt; acceptor.ballot(1), 5);
    assert_eq!(rt; acceptor.promised(), 5);
    Ok(())
}

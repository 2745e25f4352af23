//! A candidate of one stream.

ghost use Rattle.std.specs.Prelude.{◌≡◌, length, IfOk};

use rl_base::list::{Ballots, Bytes, Log, Logs};
use rl_base::memory::Memory;
use rl_election::candidate::Candidate;
use rl_election::recover_error::RecoverError;
use std::alloc::Global;
use std::process::Abort;
use std::test::Fail;

/// The promises of nodes of three: node, ballot, log, and how many have promised then.
const TWO_OF_THREE: [(u32, u32, &[u8], u32); 4] = [
    (1, 1, b"ab", 1),
    (1, 1, b"ab", 1),
    (3, 2, b"a", 2),
    (1, 9, b"abc", 2),
];

/// And of four.
const THREE_OF_FOUR: [(u32, u32, &[u8], u32); 3] = [
    (1, 1, b"ab", 1),
    (2, 2, b"ac", 2),
    (3, 3, b"a", 3),
];

/// One stream's ballot.
fn ballots(alloc: Global, ballot: u32) -> Result<Ballots, Memory>
    ensures { IfOk result (λ ballots. length ballots ≡ 1) }
{
    let mut ballots = Ballots::new(alloc);
    ballots.push(ballot)?;
    Ok(ballots)
}

/// One stream's log of batches of one byte.
fn logs(alloc: Global, bytes: &[u8]) -> Result<Logs, Memory>
    ensures { IfOk result (λ logs. length logs ≡ 1) }
{
    let mut log = Log::new(alloc);
    for byte in bytes {
        log.push(Bytes::from_slice(alloc, &[*byte])?)?;
    }
    let mut logs = Logs::new(alloc);
    logs.push(log)?;
    Ok(logs)
}

/// Counts a node's promise of a ballot and a log of one stream, and checks how many nodes have promised.
fn promises(
    rt: &impl Abort,
    alloc: Global,
    candidate: &mut Candidate,
    node: u32,
    ballot: u32,
    bytes: &[u8],
    expected: u32,
) -> Result<(), Fail>
    requires { candidate.old.streams ≡ 1 }
    ensures { candidate.new.streams ≡ 1 }
{
    let have = candidate.promise(node, ballots(alloc, ballot)?, logs(alloc, bytes)?);
    assert_eq!(rt; have, expected);
    assert_eq!(rt; candidate.have(), expected);
    assert!(rt; candidate.has_promised(node));
    Ok(())
}

/// Checks that the one recovered log is of batches of one byte, these.
fn check_recovered(
    rt: &impl Abort,
    alloc: Global,
    candidate: &Candidate,
    expected: &[u8],
) -> Result<(), Fail> {
    let logs = candidate.recover(alloc)?;
    assert_eq!(rt; logs.len(), 1);
    for log in logs.as_slice() {
        assert_eq!(rt; log.len(), expected.len());
        for (batch, byte) in log.as_slice().iter().zip(expected) {
            assert_eq!(rt; batch.as_slice(), [*byte].as_slice());
        }
    }
    Ok(())
}

#[test]
fn the_longest_log_of_the_highest_ballot(rt: HostRuntime) -> Result<(), Fail> {
    let alloc = rt.alloc();
    let mut candidate = Candidate::start(alloc, 3, 3, 1, 2)?;
    let early = RecoverError::NotYet { have: 0, need: 2 };
    assert_eq!(rt; candidate.recover(alloc).err(), Some(early));
    for (node, ballot, bytes, have) in TWO_OF_THREE {
        promises(&rt, alloc, &mut candidate, node, ballot, bytes, have)?;
    }
    check_recovered(&rt, alloc, &candidate, b"a")
}

#[test]
fn one_log_of_three_and_no_slot_of_another(rt: HostRuntime) -> Result<(), Fail> {
    let alloc = rt.alloc();
    let mut candidate = Candidate::start(alloc, 4, 3, 1, 3)?;
    for (node, ballot, bytes, have) in THREE_OF_FOUR {
        promises(&rt, alloc, &mut candidate, node, ballot, bytes, have)?;
    }
    check_recovered(&rt, alloc, &candidate, b"a")
}

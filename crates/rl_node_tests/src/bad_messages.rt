//! Messages that no node of a run sends.

use crate::cluster::{Cluster, Stop, played};
use crate::digits::bytes_of;
use crate::group::Call;
use rl_node::{NodeError, NodeView};
use std::alloc::Global;
use std::process::Abort;
use std::test::Fail;

/// Three nodes and one worker. Node 1 leads the epoch 1, whose one item each node knows; node 2 stands for the epoch 2.
const SCRIPT: &str =
    "rolis 1\nnodes 3\ntable a 2 1\ntxn 1\nput a 0 5\nend\ntxn 1\nput a 0 6\nend\nevents\nelect 1\nall\nall\nall\nall\nstep 1 1 5\nall\nall\nall\nelect 2\n";

/// Bad messages: the node that receives them, and their bytes.
const BAD: [(u32, &str); 22] = [
    // no spelling of a message: none, one byte too many
    (1, ""),
    (2, "01010200000001 00"),
    // no spelling of a batch
    (3, "04010300000001 01 00000002 00000001 00"),
    // to another node
    (1, "01010200000001"),
    // a node that is not there, and a stream
    (1, "05040100000001 01 00000001"),
    (
        3,
        "04010300000001 02 00000002 0000000d 02 00000001 0000000000000003",
    ),
    // not from the owner of its epoch
    (1, "06020100000001 01 00000001"),
    (3, "01010300000002"),
    // not to the owner of its epoch
    (2, "05010200000001 01 00000001"),
    (3, "02010300000001 01 00000000 00000000"),
    // a batch of another worker
    (
        3,
        "04010300000001 01 00000002 00000024 010100000001020000000000000003000000020000010000000000010000000000000006",
    ),
    // a batch above the ballot of its stream
    (
        2,
        "02030200000002 01 00000001 00000001 0000000d 03 00000002 0000000000000001",
    ),
    // and above the epoch of its message
    (
        3,
        "04010300000001 01 00000002 0000000d 02 00000002 0000000000000003",
    ),
    // no such table, no such key, and a column too many
    (
        3,
        "04010300000001 01 00000002 00000024 010100000001010000000000000003000000020000010100000000010000000000000006",
    ),
    (
        3,
        "04010300000001 01 00000002 00000024 010100000001010000000000000003000000020000010000000002010000000000000006",
    ),
    (
        3,
        "04010300000001 01 00000002 0000002c 0101000000010100000000000000030000000200000100000000000200000000000000060000000000000006",
    ),
    // two parts of one stream
    (2, "02030200000002 02 00000000 00000000 00000000 00000000"),
    // a ballot that is not below the epoch of the candidate
    (2, "02030200000002 01 00000002 00000000"),
    // stamps that do not rise
    (
        3,
        "03010300000001 01 00000002 0000000d 02 00000001 0000000000000003 0000000d 02 00000001 0000000000000003",
    ),
    // a batch that does not rise above the kept log
    (
        3,
        "04010300000001 01 00000002 0000000d 02 00000001 0000000000000002",
    ),
    // an Ack of more than was proposed
    (1, "05020100000001 01 00000003"),
    // a log without what is known
    (
        3,
        "03020300000002 01 00000001 0000000d 03 00000002 0000000000000001",
    ),
];

/// The same messages, where one differs in what is wrong alone.
const GOOD: [(u32, &str); 8] = [
    (1, "05030100000001 01 00000001"),
    (3, "06010300000001 01 00000001"),
    (1, "05020100000001 01 00000002"),
    (
        2,
        "02030200000002 01 00000001 00000001 0000000d 03 00000001 0000000000000001",
    ),
    (
        3,
        "04010300000001 01 00000002 00000024 010100000001010000000000000003000000020000010000000001010000000000000006",
    ),
    (
        3,
        "04010300000001 01 00000003 0000000d 02 00000001 0000000000000004",
    ),
    (
        3,
        "03010300000001 01 00000002 0000000d 02 00000001 0000000000000003 0000000d 02 00000001 0000000000000004",
    ),
    (3, "01020300000002"),
];

/// A node, in words.
fn words(alloc: Global, view: &NodeView) -> Result<String, Fail> {
    Ok(format!(in alloc; "{view:?}")?)
}

/// Checks that a node refuses a message, and is as it was.
fn check_bad(
    rt: &impl Abort,
    alloc: Global,
    cluster: &mut Cluster,
    a: u32,
    digits: &str,
) -> Result<(), Fail> {
    let bytes = bytes_of(alloc, digits)?;
    let before = words(alloc, &cluster.group.view(alloc, a)?)?;
    let answer = cluster.call(alloc, a, Call::Handle(bytes.as_slice()));
    assert_eq!(rt; answer, Err(Stop::Node(NodeError::BadMessage)), "{digits}");
    let after = words(alloc, &cluster.group.view(alloc, a)?)?;
    assert_eq!(rt; after.as_str(), before.as_str(), "{digits}");
    Ok(())
}

/// Checks that nodes refuse messages.
fn check_all_bad(rt: &impl Abort, alloc: Global, messages: &[(u32, &str)]) -> Result<(), Fail> {
    let mut cluster = played(alloc, SCRIPT.as_bytes())?;
    for (a, digits) in messages {
        check_bad(rt, alloc, &mut cluster, *a, digits)?;
    }
    Ok(())
}

/// Checks that nodes take messages.
fn check_all_good(rt: &impl Abort, alloc: Global, messages: &[(u32, &str)]) -> Result<(), Fail> {
    let mut cluster = played(alloc, SCRIPT.as_bytes())?;
    for (a, digits) in messages {
        let bytes = bytes_of(alloc, digits)?;
        let answer = cluster.call(alloc, *a, Call::Handle(bytes.as_slice()));
        assert_eq!(rt; answer, Ok(()), "{digits}");
    }
    Ok(())
}

#[test]
fn what_is_wrong_is_refused_and_changes_nothing(rt: HostRuntime) -> Result<(), Fail> {
    check_all_bad(&rt, rt.alloc(), &BAD)
}

#[test]
fn what_is_right_is_taken(rt: HostRuntime) -> Result<(), Fail> {
    check_all_good(&rt, rt.alloc(), &GOOD)
}

//! A stream that is full.

use crate::cluster::{Cluster, Stop, played};
use crate::group::Call;
use rl_base::limit::SLOTS;
use rl_node::NodeError;
use std::alloc::Global;
use std::process::Abort;
use std::test::Fail;

/// One node that leads, and a request that never runs: so its worker may propose idle marks.
const SCRIPT: &str =
    "rolis 1\ntable a 1 1\ntxn 1\nput a 0 5\nend\nevents\nelect 1\nall\nall\nall\nall\n";

const FULL: NodeError = NodeError::StreamFull { slots: SLOTS };

/// The one node leads, and its stream has as many batches as it may have.
fn full_leader(alloc: Global) -> Result<Cluster, Fail> {
    let mut cluster = played(alloc, SCRIPT.as_bytes())?;
    for _mark in 1..SLOTS {
        cluster.call(alloc, 1, Call::Idle(1))?;
    }
    cluster.deliver_all(alloc)?;
    Ok(cluster)
}

/// Checks that the node refuses each call, since its stream is full.
fn check_full(rt: &impl Abort, alloc: Global, cluster: &mut Cluster) {
    let calls = [
        Call::Handle(&[]),
        Call::Elect,
        Call::Tick,
        Call::Step(1),
        Call::Flush(1),
        Call::Idle(1),
    ];
    for call in calls {
        assert_eq!(rt; cluster.call(alloc, 1, call), Err(Stop::Node(FULL)));
    }
    assert_eq!(rt; cluster.group.play(alloc, 1, 1), Err(FULL));
}

/// Checks what the one node has promised, and how many batches its one stream has.
fn check_kept(
    rt: &impl Abort,
    alloc: Global,
    cluster: &Cluster,
    promised: u32,
) -> Result<(), Fail> {
    let view = cluster.group.view(alloc, 1)?;
    assert_eq!(rt; view.promised, promised);
    for stream in view.streams.as_slice() {
        assert_eq!(rt; (stream.ballot, stream.len), (1, SLOTS));
    }
    Ok(())
}

#[test]
fn neither_a_leader_nor_a_candidate_goes_past_the_last_slot(rt: HostRuntime) -> Result<(), Fail> {
    let alloc = rt.alloc();
    let mut cluster = full_leader(alloc)?;
    check_kept(&rt, alloc, &cluster, 1)?;
    assert_eq!(rt;
        cluster.call(alloc, 1, Call::Idle(1)),
        Err(Stop::Node(FULL))
    );
    check_full(&rt, alloc, &mut cluster);
    check_kept(&rt, alloc, &cluster, 1)?;
    cluster.group.crash(1);
    cluster.group.back(alloc, 1)?;
    cluster.call(alloc, 1, Call::Elect)?;
    cluster.deliver_all(alloc)?;
    assert_eq!(rt; cluster.deliver_all(alloc), Err(Stop::Node(FULL)));
    check_full(&rt, alloc, &mut cluster);
    check_kept(&rt, alloc, &cluster, 2)
}

//! Scripts whose events happen at nodes, with what is known of them.

use crate::cluster::{Cluster, played};
use crate::group::Group;
use rl_node::answer::Opened;
use rl_node::{NodeView, Role, State};
use rl_paxos::refused::Refused;
use rl_value::map::Map;
use std::alloc::Global;
use std::process::Abort;
use std::test::Fail;

/// A node as it is to be: its state, the promised epoch, its role, the watermark, whether its replica is at that, and of
/// each stream the ballot, the length and how much is known.
type Due = (
    State,
    u32,
    Role,
    (u32, u64),
    bool,
    &'static [(u32, u32, u32)],
);

/// A script, and what its nodes come to: the openings, the refusals, the epoch, seq, worker and request of each released
/// item, the nodes, and the values of the first keys of its table at the last node.
#[derive(Drop)]
struct Case {
    text: &'static str,
    opened: &'static [(u32, u32)],
    denied: &'static [Refused],
    released: &'static [(u32, u64, u32, u32)],
    nodes: &'static [Due],
    rows: &'static [u64],
}

/// An epoch that reached one stream further than the other: the item behind is cut, and its request runs again.
const CUT: Case = Case {
    text: "rolis 1\nnodes 3\nworkers 2\ntable a 2 1\ntxn 1\nput a 0 5\nend\ntxn 1\nput a 1 7\nend\ntxn 2\nput a 0 6\nend\nevents\nelect 1\nall\nall\nall\nall\nstep 1 1 5\nstep 1 2 5\nstep 1 1 5\nall\nall\ncrash 1\nelect 2\nall\nall\nall\nall\nstep 2 1 5\nidle 2 2\nall\nall\nall\nplayall 2\nplayall 3\n",
    opened: &[(1, 0), (2, 2)],
    denied: &[],
    released: &[(1, 2, 1, 1), (1, 3, 2, 1), (2, 2, 1, 2)],
    nodes: &[
        (
            State::Down,
            1,
            Role::Follower,
            (0, 0),
            false,
            &[(1, 3, 0), (1, 2, 0)],
        ),
        (
            State::Up,
            2,
            Role::Leading { epoch: 2 },
            (2, 2),
            true,
            &[(2, 5, 5), (2, 4, 4)],
        ),
        (
            State::Up,
            2,
            Role::Follower,
            (2, 2),
            true,
            &[(2, 5, 5), (2, 4, 4)],
        ),
    ],
    rows: &[6, 7],
};

/// A deposed leader opens late, and what it proposes is refused.
const LATE: Case = Case {
    text: "rolis 1\nnodes 3\ntable a 1 1\ntxn 1\nput a 0 5\nend\nevents\nelect 1\nall\nall\nall\nelect 2\ndlv 14\ndlv 15\ndlv 16\ndlv 17\ndlv 19\ndlv 20\ndlv 21\ndlv 22\nstep 2 1 5\ndlv 27\ndlv 28\ndlv 29\ndlv 30\ndlv 10\ndlv 11\nstep 1 1 5\ndlv 38\ndlv 39\ndlv 37\ndlv 40\ndlv 32\nplayall 2\n",
    opened: &[(2, 0), (1, 0)],
    denied: &[
        Refused::Promised { promised: 2 },
        Refused::Promised { promised: 2 },
    ],
    released: &[(2, 2, 1, 1)],
    nodes: &[
        (
            State::Up,
            1,
            Role::Leading { epoch: 1 },
            (0, 0),
            true,
            &[(1, 2, 0)],
        ),
        (
            State::Up,
            2,
            Role::Leading { epoch: 2 },
            (2, 2),
            true,
            &[(2, 3, 3)],
        ),
        (State::Up, 2, Role::Follower, (0, 0), true, &[(2, 3, 0)]),
    ],
    rows: &[],
};

/// A leader without its quorum, which stands again and again.
const ALONE: Case = Case {
    text: "rolis 1\nnodes 3\ntable a 1 1\nevents\nlose 2\nlose 3\nelect 1\ntick 1\nall\nall\nelect 1\nall\nall\n",
    opened: &[],
    denied: &[],
    released: &[],
    nodes: &[
        (
            State::Up,
            4,
            Role::Candidate {
                epoch: 4,
                have: 1,
                need: 2,
            },
            (0, 0),
            true,
            &[(0, 0, 0)],
        ),
        (State::Lost, 0, Role::Follower, (0, 0), false, &[]),
        (State::Lost, 0, Role::Follower, (0, 0), false, &[]),
    ],
    rows: &[],
};

/// An accept that comes before the one below it is refused, and taken when it comes again.
const ORDER: Case = Case {
    text: "rolis 1\ntable a 1 1\ntxn 1\nput a 0 5\nend\ntxn 1\nput a 0 6\nend\nevents\nelect 1\nall\nall\nall\nall\nstep 1 1 10\ndlv 7\ndlv 6\ndlv 7\nall\nall\nplayall 1\n",
    opened: &[(1, 0)],
    denied: &[Refused::OutOfOrder { len: 1 }],
    released: &[(1, 2, 1, 1), (1, 3, 1, 2)],
    nodes: &[(
        State::Up,
        1,
        Role::Leading { epoch: 1 },
        (1, 3),
        true,
        &[(1, 3, 3)],
    )],
    rows: &[6],
};

/// Checks that a node is as it is to be.
fn check_node(rt: &impl Abort, view: &NodeView, due: &Due) {
    let (state, promised, role, watermark, at, streams) = *due;
    assert_eq!(rt; view.state, state);
    assert_eq!(rt; view.promised, promised);
    assert_eq!(rt; view.role, role);
    assert_eq!(rt; view.watermark, watermark);
    assert_eq!(rt; view.at, at);
    assert_eq!(rt; view.streams.len(), streams.len());
    for (stream, (ballot, len, known)) in view.streams.as_slice().iter().zip(streams) {
        assert_eq!(rt;
            (stream.ballot, stream.len, stream.known),
            (*ballot, *len, *known)
        );
    }
}

/// The value in the first column of a key of the first table, where it has a row.
fn value_at(map: &Map, key: u32) -> Option<u64> {
    let row = map.get(0, key)?;
    if row.columns() == 0 {
        return None;
    }
    Some(row.column(0))
}

/// Checks that the first table has these values in the first column of its first keys.
fn check_rows(rt: &impl Abort, map: &Map, values: &[u64]) {
    let mut key = 0u32;
    for value in values {
        assert_eq!(rt; value_at(map, key), Some(*value));
        key = key.saturating_add(1);
    }
}

/// Checks what was told.
fn check_told(rt: &impl Abort, cluster: &Cluster, case: &Case) {
    assert_eq!(rt; cluster.opened.len(), case.opened.len());
    for (opened, (epoch, count)) in cluster.opened.as_slice().iter().zip(case.opened) {
        assert_eq!(rt;
            *opened,
            Opened {
                epoch: *epoch,
                count: *count
            }
        );
    }
    assert_eq!(rt; cluster.denied.as_slice(), case.denied);
    assert_eq!(rt; cluster.released.len(), case.released.len());
    for (item, due) in cluster.released.as_slice().iter().zip(case.released) {
        assert_eq!(rt;
            (item.stamp.epoch, item.stamp.seq, item.worker, item.index),
            *due
        );
    }
}

/// Checks the nodes.
fn check_nodes(
    rt: &impl Abort,
    alloc: Global,
    cluster: &Cluster,
    dues: &[Due],
) -> Result<(), Fail> {
    assert_eq!(rt; cluster.group.len(), dues.len());
    let mut a = 0u32;
    for due in dues {
        a = a.saturating_add(1);
        check_node(rt, &cluster.group.view(alloc, a)?, due);
    }
    Ok(())
}

/// Plays the events of a script, and checks what they come to.
fn check_case(rt: &impl Abort, alloc: Global, case: &Case) -> Result<(), Fail> {
    let cluster = played(alloc, case.text.as_bytes())?;
    check_told(rt, &cluster, case);
    check_nodes(rt, alloc, &cluster, case.nodes)?;
    if let Some(map) = cluster.group.rows(u32::MAX) {
        check_rows(rt, map, case.rows);
    }
    Ok(())
}

#[test]
fn events_at_nodes(rt: HostRuntime) -> Result<(), Fail> {
    let alloc = rt.alloc();
    check_case(&rt, alloc, &CUT)?;
    check_case(&rt, alloc, &LATE)?;
    check_case(&rt, alloc, &ALONE)?;
    check_case(&rt, alloc, &ORDER)
}

/// Checks how a node that is down is, that comes back, and that it is lost then.
fn check_return(rt: &impl Abort, alloc: Global, group: &mut Group) -> Result<(), Fail> {
    assert_eq!(rt; group.is_up_down_lost(1), (false, true, false));
    assert!(rt; group.rows(1).is_none());
    group.back(alloc, 1)?;
    assert_eq!(rt; group.is_up_down_lost(1), (true, false, false));
    assert_eq!(rt; group.promised_and_next(1), (1, 2));
    assert!(rt; group.rows(1).is_some());
    group.lose(1);
    assert_eq!(rt; group.is_up_down_lost(1), (false, false, true));
    Ok(())
}

#[test]
fn up_down_and_lost(rt: HostRuntime) -> Result<(), Fail> {
    let alloc = rt.alloc();
    let mut cluster = played(alloc, CUT.text.as_bytes())?;
    assert_eq!(rt; cluster.group.promised_and_next(2), (2, 3));
    check_return(&rt, alloc, &mut cluster.group)
}

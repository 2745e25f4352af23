//! Gates that hold two workers of which each waits to see something of the other. Both see it only where they run at the
//! same time, with no lock round an attempt.

use crate::runs::{run, verdict};
use rl_live::gate::{Gate, Point};
use std::sync::Wait;
use std::sync::atomic::{AtomicU64, Ordering};
use std::test::Fail;
use std::thread;

/// How often a worker that is held looks at most.
const TURNS: u32 = 1_000_000;

/// Two workers, each with a key of its own.
const TWO_KEYS: &str =
    "rolis 1\nworkers 2\ntable a 2 1\ntxn 1\nput a 0 1\nend\ntxn 2\nput a 1 1\nend\n";

/// Two workers that each add 1 to the same key.
const ONE_KEY: &str =
    "rolis 1\nworkers 2\ntable a 1 1\ntxn 1\nget a 0 0 r0\nadd r0 r0 1\nput a 0 r0\nend\ntxn 2\nget a 0 0 r0\nadd r0 r0 1\nput a 0 r0\nend\n";

/// Looks at a number until it is as great as it should be, or too often. Whether it was.
fn reaches(number: &AtomicU64, least: u64) -> bool {
    for _turn in 0..TURNS {
        if number.load(Ordering::SeqCst) >= least {
            return true;
        }
        thread::yield_now();
    }
    false
}

/// Each of two workers that has its locks tells that, and waits until the other has its own.
#[derive(Drop)]
struct Meeting {
    first: AtomicU64,
    second: AtomicU64,
    met: AtomicU64,
}

impl Gate for Meeting {
    fn at<R: Wait>(&self, _rt: &R, worker: u32, point: Point) {
        if point != Point::Locked {
            return;
        }
        let (own, other) = if worker == 1 {
            (&self.first, &self.second)
        } else {
            (&self.second, &self.first)
        };
        own.store(1, Ordering::SeqCst);
        if reaches(other, 1) {
            self.met.fetch_add(1, Ordering::SeqCst);
        }
    }
}

/// Worker 2 waits before its first attempt until worker 1 has its locks, and worker 1 then waits until worker 2 has begun
/// three attempts.
#[derive(Drop)]
struct Crossing {
    locked: AtomicU64,
    begun: AtomicU64,
    seen: AtomicU64,
}

impl Crossing {
    /// Counts a call, and at the first one waits for a number to be reached.
    fn hold_first(&self, calls: &AtomicU64, number: &AtomicU64, least: u64) {
        if calls.fetch_add(1, Ordering::SeqCst) == 0 && reaches(number, least) {
            self.seen.fetch_add(1, Ordering::SeqCst);
        }
    }
}

impl Gate for Crossing {
    fn at<R: Wait>(&self, _rt: &R, worker: u32, point: Point) {
        match (worker, point) {
            (1, Point::Locked) => self.hold_first(&self.locked, &self.begun, 3),
            (2, Point::Begin) => self.hold_first(&self.begun, &self.locked, 1),
            _ => {}
        }
    }
}

#[test]
fn two_workers_have_locks_at_the_same_time(rt: HostRuntime) -> Result<(), Fail> {
    let gate = Meeting {
        first: AtomicU64::new(0),
        second: AtomicU64::new(0),
        met: AtomicU64::new(0),
    };
    let answered = run(&rt, rt.alloc(), TWO_KEYS, &gate)?;
    assert_eq!(rt; answered.code, 0);
    assert_eq!(rt; gate.met.load(Ordering::SeqCst), 2);
    Ok(())
}

#[test]
fn a_worker_goes_on_trying_beside_one_that_has_locks(rt: HostRuntime) -> Result<(), Fail> {
    let gate = Crossing {
        locked: AtomicU64::new(0),
        begun: AtomicU64::new(0),
        seen: AtomicU64::new(0),
    };
    let answered = run(&rt, rt.alloc(), ONE_KEY, &gate)?;
    assert_eq!(rt; gate.seen.load(Ordering::SeqCst), 2);
    assert!(rt; answered.text.as_slice().ends_with(b"node 1\nrow a 0 2\n"));
    let said = verdict(rt.alloc(), ONE_KEY, &answered.text)?;
    assert_eq!(rt; said.as_slice(), b"yes 2\n".as_slice());
    Ok(())
}

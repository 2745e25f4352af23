//! Where a caller can hold a worker.

use std::sync::Wait;

/// A point of a worker's turn.
#[derive(Clone, Copy, Debug, PartialEq, Eq, Drop)]
pub enum Point {
    /// Before an attempt.
    Begin,
    /// All locks of an attempt are held, and nothing is drawn yet.
    Locked,
    /// An attempt was decided.
    Decided,
    /// A batch was acked by every node.
    Durable,
    /// A reply was released.
    Released,
}

/// It is told of each point that a worker comes to, and may hold the worker there.
pub trait Gate: Sync {
    /// Worker `worker`, counted from 1, is at a point. It goes on when the call returns.
    fn at<R: Wait>(&self, rt: &R, worker: u32, point: Point);
}

/// It holds nobody.
#[derive(Debug, Drop)]
pub struct OpenGate;

impl Gate for OpenGate {
    fn at<R: Wait>(&self, _rt: &R, _worker: u32, _point: Point) {}
}

//! Points that a worker passes with no lock held.

/// A point that a worker passes with a chunk that was answered.
#[derive(Clone, Copy, PartialEq, Eq)]
pub enum Point {
    /// The desk has answered, and no byte of the reply is written yet.
    Answered,
    /// As much of the reply is written as the link takes now.
    Sent,
}

/// A hook that each worker passes twice for every chunk that the desk has answered: at `Answered` and then at `Sent`. A
/// test can hold one worker there while others continue.
pub trait Gate {
    /// Returns once the worker may continue.
    fn pass(&self, worker: u32, point: Point);
}

/// A gate that never waits.
#[derive(Clone, Copy, Drop)]
pub struct Open;

impl Gate for Open {
    fn pass(&self, _worker: u32, _point: Point) {}
}

//! Gates: where the two threads pass just before an action, so that a test can hold one of them there.

use std::marker::Sync;

/// A kind of action of the two threads.
#[derive(Clone, Copy, PartialEq, Eq, Debug)]
pub enum Point {
    Post,
    Take,
    Deliver,
    Collect,
    Step,
}

/// What is passed before each action. It answers nothing and can't refuse.
pub trait Gate: Sync {
    /// Called just before the action number `nth` of its kind, counted from 1, is tried; perhaps more than once for one action.
    fn pass(&self, point: Point, nth: u64);
}

/// A gate that everyone passes at once.
#[derive(Clone, Copy, PartialEq, Eq, Debug)]
pub struct OpenGate;

impl Gate for OpenGate {
    fn pass(&self, _point: Point, _nth: u64) {}
}

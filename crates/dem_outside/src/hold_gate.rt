//! A gate that lets two actions of two threads meet.

ghost use Rattle.std.specs.Prelude.{◌≡◌};
ghost use Rattle.dem_outside.specs.Meeting.{places_of};

use crate::gate::{Gate, Point};
use std::marker::Model;
use std::sync::atomic::AtomicBool;
use std::sync::atomic::Ordering::SeqCst;

/// How often the gate looks whether both actions have arrived, before it gives up.
const PATIENCE: u32 = 500_000_000;

/// A place at which one of the two actions arrives.
#[derive(Drop)]
pub(crate) struct Place {
    point: Point,
    nth: u64,
    arrived: AtomicBool,
}

impl Place {
    /// A place at which nobody has arrived.
    pub(crate) fn new(point: Point, nth: u64) -> Place
        ensures point { result.point ≡ point }
        ensures nth { result.nth ≡ nth }
    {
        Place {
            point,
            nth,
            arrived: AtomicBool::new(false),
        }
    }

    /// Whether the action number `nth` of that kind arrives here; if so, that is noted.
    fn receives(&self, point: Point, nth: u64) -> bool {
        let is_here = self.point == point && self.nth == nth;
        if is_here {
            self.arrived.store(true, SeqCst);
        }
        is_here
    }
}

/// Holds the first of two actions until the other one has arrived too. What it answers is no promise: tests show it.
#[derive(Drop)]
pub struct HoldGate {
    first: Place,
    second: Place,
    patience: u32,
    gave_up: AtomicBool,
}

impl Model for HoldGate {
    ghost use Rattle.dem_outside.specs.Meeting.{Places, places_of};

    ghost Value = { Places };

    ghost view = { λ a. places_of a.first.point a.first.nth a.second.point a.second.nth };
}

impl HoldGate {
    /// The gate at which the action number `i` of kind `p` and the action number `j` of kind `q` meet.
    pub fn meet(p: Point, i: u64, q: Point, j: u64) -> HoldGate
        ensures places { result ≡ places_of p i q j }
    {
        HoldGate::with_patience(Place::new(p, i), Place::new(q, j), PATIENCE)
    }

    /// The gate that looks so often whether both have arrived.
    pub(crate) fn with_patience(first: Place, second: Place, patience: u32) -> HoldGate
        ensures { result ≡ places_of first.point first.nth second.point second.nth }
    {
        HoldGate {
            first,
            second,
            patience,
            gave_up: AtomicBool::new(false),
        }
    }

    /// Whether one action waited in vain.
    pub fn gave_up(&self) -> bool {
        self.gave_up.load(SeqCst)
    }

    /// Whether both actions have arrived.
    pub fn arrived(&self) -> bool {
        self.first.arrived.load(SeqCst) && self.second.arrived.load(SeqCst)
    }

    /// Waits until both have arrived; whether they have.
    fn holds_until_both(&self) -> bool {
        for _ in 0..self.patience {
            if self.arrived() {
                return true;
            }
        }
        false
    }
}

impl Gate for HoldGate {
    fn pass(&self, point: Point, nth: u64) {
        let is_first = self.first.receives(point, nth);
        let is_second = self.second.receives(point, nth);
        if (is_first || is_second) && !self.gave_up() && !self.holds_until_both() {
            self.gave_up.store(true, SeqCst);
        }
    }
}

//! What a side does that has nothing to do: it looks again at once for a while, then lets other threads run, then sleeps.

use std::hint::spin_loop;
use std::sync::Wait;
use std::sync::atomic::AtomicU64;
use std::thread::yield_now;
use std::time::Duration;

/// How many pauses in a row only slow the processor down.
const SPINS: u32 = 200;

/// How many pauses in a row don't sleep; those that let other threads run take some 10 ms where none wants to. To wake up may take
/// longer than a step.
const WAKES: u32 = 40_000;

/// How long a sleep takes at least, in microseconds.
const NAP: u64 = 20;

/// The pauses of one side since it last had something to do, how many of them it slept, and how many it doesn't.
#[derive(Drop)]
pub struct Rest {
    pauses: u32,
    naps: u32,
    wakes: u32,
    bed: AtomicU64,
}

impl Rest {
    /// No pause yet. A side that sleeps soon lets the other one have the processor, where both are halves of one.
    pub fn new(sleeps_soon: bool) -> Rest {
        Rest {
            pauses: 0,
            naps: 0,
            wakes: if sleeps_soon { SPINS } else { WAKES },
            bed: AtomicU64::new(0),
        }
    }

    /// How often it slept since it last had something to do.
    pub fn naps(&self) -> u32 {
        self.naps
    }

    /// Begins anew where there was something to do. Else it sleeps, where more sleeps are ordered than it made, and pauses once more
    /// where not.
    pub fn after<R: Wait>(&mut self, rt: &R, was_busy: bool, order: u32) {
        if was_busy {
            self.pauses = 0;
            self.naps = 0;
        } else if self.naps < order {
            self.nap(rt);
        } else {
            self.pause(rt);
        }
    }

    /// One more pause, by how many there were.
    fn pause<R: Wait>(&mut self, rt: &R) {
        if self.pauses < SPINS {
            spin_loop();
        } else if self.pauses < self.wakes {
            yield_now();
        } else {
            self.nap(rt);
        }
        self.pauses = self.pauses.saturating_add(1);
    }

    /// Sleeps once.
    fn nap<R: Wait>(&mut self, rt: &R) {
        self.bed.park_timeout(rt, 0, Duration::from_micros(NAP));
        self.naps = self.naps.saturating_add(1);
    }
}

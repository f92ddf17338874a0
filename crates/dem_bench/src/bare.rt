//! Bare work, which reads and writes nothing but its own number: what threads give on this machine at most.

ghost use Rattle.std.specs.Prelude.{◌<◌};
ghost use Rattle.std.specs.Thread.{IsSync};

use rayon::join_mut;
use std::fmt;
use std::thread::Threads;

/// Parts of a round: as many as a split step has.
const PARTS: usize = 4;

/// What came of some rounds, by part.
#[derive(Drop)]
pub struct Rounds {
    rounds: u32,
    parts: [u64; PARTS],
}

impl fmt::Display for Rounds {
    fn fmt<W: fmt::Write>(&self, f: &mut fmt::Formatter<W>) -> fmt::Result {
        let [a, b, c, d] = self.parts;
        write!(f, "{} rounds of bare work, {a} {b} {c} {d}", self.rounds)
    }
}

/// Makes so many rounds, each of four parts of so many thousand turns: where threads are given the parts are shared among them.
pub fn make_rounds<R: Threads + Sync>(threads: Option<&R>, rounds: u32, thousands: u32) -> Rounds {
    let mut parts = [0u64, 1, 2, 3];
    for _ in 0..rounds {
        match threads {
            Some(rt) => turn_parts(rt, PARTS, thousands, parts.as_mut_slice()),
            None => turn_all(parts.as_mut_slice(), thousands),
        }
    }
    Rounds { rounds, parts }
}

/// The parts of a round side by side, so many of them: this thread starts the others, as in a split step.
#[cycle(parts)]
fn turn_parts<R: Threads + Sync>(rt: &R, left: usize, thousands: u32, parts: &mut [u64]) {
    if left <= 1 || parts.len() <= 1 {
        turn_all(parts, thousands);
        return;
    }
    let (first, rest) = parts.split_at_mut(1);
    turn_both(rt, left, thousands, first, rest);
}

/// The first part and those behind it.
#[cycle(parts)]
fn turn_both<R: Threads + Sync>(
    rt: &R,
    left: usize,
    thousands: u32,
    first: &mut [u64],
    rest: &mut [u64],
)
    requires { 1 < left }
{
    let mut turn_first = ||
        requires { IsSync R.row × (1 < left) }
    { turn_parts(rt, left - 1, thousands, first) };
    let mut turn_rest = ||
        requires { IsSync R.row × (1 < left) }
    { turn_parts(rt, left - 1, thousands, rest) };
    join_mut(rt, &mut turn_first, &mut turn_rest);
}

/// The parts of a round, one after the other.
fn turn_all(parts: &mut [u64], thousands: u32) {
    for part in parts {
        *part = turned(*part, thousands);
    }
}

/// A number after so many thousand turns, each of which needs the one before.
fn turned(start: u64, thousands: u32) -> u64 {
    let mut number = start;
    for _ in 0..thousands {
        for _ in 0..1000 {
            number = number.wrapping_mul(number).wrapping_add(11);
        }
    }
    number
}

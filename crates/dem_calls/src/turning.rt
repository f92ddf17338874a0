//! The first turns of a world, and how it then ends.

ghost use Rattle.std.specs.Prelude.{◌≤◌};

use dem_bins::Grid;
use dem_core::{Did, World, WorldStop};
use dem_model::{Last, Steps, Turn};
use dem_outside::BlankSink;
use dem_shape::Shapes;
use std::alloc::Global;
use std::fmt::{self, Display, Formatter};
use std::sync::ledger::Ledger;

/// What is tried on a new world: a step before there is a list, the exchange that brings one, and a step on it.
const TURNS: [Turn; 6] = [
    Turn::Step,
    Turn::Post,
    Turn::Take,
    Turn::Deliver,
    Turn::Collect,
    Turn::Step,
];

/// A turn, and what it came to.
#[derive(Clone, Copy)]
struct Made {
    turn: Turn,
    did: Did,
}

/// What the first turns of a world came to, how it then ended by itself, and how many pairs its steps tested.
#[derive(Drop)]
pub struct Turned {
    made: Vec<Made>,
    last: Option<Last>,
    tests: u64,
}

/// Tries the turns on a new world of a scene, and lets it go on to its end.
pub fn try_turns<L: Ledger>(
    alloc: Global,
    shapes: &Shapes,
    drift: u32,
    tests: &mut Steps<L>,
) -> Result<Turned, WorldStop>
    requires { drift ≤ 1024 }
{
    let Ok(grid) = Grid::check(shapes, drift, 0) else {
        return Ok(Turned {
            made: Vec::new(alloc),
            last: None,
            tests: 0,
        });
    };
    let mut world = World::new(alloc, shapes, &grid, &mut BlankSink)?;
    tried_on(alloc, &mut world, tests)
}

/// Tries the turns on a world, and lets it go on to its end.
fn tried_on<L: Ledger>(
    alloc: Global,
    world: &mut World,
    tests: &mut Steps<L>,
) -> Result<Turned, WorldStop> {
    let mut made = Vec::new(alloc);
    for turn in TURNS {
        let did = one(world, turn, tests)?;
        if made.push(Made { turn, did }).is_err() {
            return Err(WorldStop::OutOfMemory);
        }
    }
    let last = rest(world, tests)?;
    Ok(Turned {
        made,
        last: Some(last),
        tests: world.tests_made(),
    })
}

/// Makes one turn, if the world isn't stopped.
fn one<L: Ledger>(world: &mut World, turn: Turn, tests: &mut Steps<L>) -> Result<Did, WorldStop> {
    if world.stopped() {
        return Err(WorldStop::WriteFault);
    }
    world.turn(turn, &mut BlankSink, &mut BlankSink, tests)
}

/// Makes the turns that are left, if the world isn't stopped.
fn rest<L: Ledger>(world: &mut World, tests: &mut Steps<L>) -> Result<Last, WorldStop> {
    if world.stopped() {
        return Err(WorldStop::WriteFault);
    }
    world.finish(&mut BlankSink, &mut BlankSink, tests)
}

/// The word of a turn.
fn name(turn: Turn) -> &'static str {
    match turn {
        Turn::Post => "post",
        Turn::Take => "take",
        Turn::Deliver => "deliver",
        Turn::Collect => "collect",
        Turn::Step => "step",
    }
}

/// The word of what a turn came to.
fn word(did: Did) -> &'static str {
    match did {
        Did::Moved => "moved",
        Did::Idle => "idle",
        Did::Closed(_) => "closed",
    }
}

impl Display for Turned {
    fn fmt<W: fmt::Write>(&self, f: &mut Formatter<W>) -> fmt::Result {
        f.write_str("turns: ")?;
        for made in self.made.as_slice() {
            write!(f, "{} {}, ", name(made.turn), word(made.did))?;
        }
        match self.last {
            Some(Last::Done { step }) => write!(f, "then done at step {step}")?,
            Some(Last::Passed(end)) => write!(f, "then a limit at step {}", end.step)?,
            None => f.write_str("no world")?,
        }
        write!(f, ", {} tests", self.tests)
    }
}

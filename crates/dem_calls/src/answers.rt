//! What the calls answer on one scene.

ghost use Rattle.std.specs.Prelude.{◌≡◌, ◌<◌};

use crate::finding::{Found, find};
use crate::stepping::{Stand, go_on_one_list};
use crate::turning::{Turned, try_turns};
use dem_core::WorldStop;
use dem_model::{OutOfMemory, Scene, Steps};
use dem_shape::Shapes;
use dem_step::Dyn;
use std::alloc::Global;
use std::fmt::{self, Display, Formatter};
use std::marker::Brand;
use std::sync::ledger::{Blank, Ledger};
use std::thread::Threads;

/// The drift limit of all lists, in steps.
const DRIFT: u32 = 4;

/// The sides of the bins, in u; 0 stands for the greatest reach of a sphere.
const SIDES: [u32; 4] = [0, 1437, 1438, 5032];

/// What the calls answer.
#[derive(Drop)]
pub struct Answers {
    /// What bins of each side find.
    finds: Vec<Found>,
    /// Where steps on one list lead.
    stand: Stand,
    /// Where split steps on one list lead.
    split: Stand,
    /// What the turns of a world come to.
    turns: Turned,
}

impl Display for Answers {
    fn fmt<W: fmt::Write>(&self, f: &mut Formatter<W>) -> fmt::Result {
        for found in self.finds.as_slice() {
            writeln!(f, "{found}")?;
        }
        writeln!(f, "{}", self.stand)?;
        writeln!(f, "by split steps, {}", self.split)?;
        write!(f, "{}", self.turns)
    }
}

/// Makes the calls on a scene.
pub fn ask<R: Threads + Sync>(rt: &R, alloc: Global, scene: &Scene) -> Result<Answers, WorldStop> {
    let shapes = Shapes::new(alloc, scene)?;
    all::<R, Brand>(rt, alloc, &shapes, Blank::new(1))
}

/// Makes the calls, with their tests counted on a counter that nobody reads.
fn all<R: Threads + Sync, L: Ledger>(
    rt: &R,
    alloc: Global,
    shapes: &Shapes,
    blank: Blank,
) -> Result<Answers, WorldStop>
    requires name { blank.name ≡ L.name }
    requires parts { blank.parts ≡ L.parts }
    requires some { 0 < L.parts }
{
    let mut tests = Steps::<L>::new(blank);
    let finds = first_finds(alloc, shapes, &mut tests)?;
    let stand = steps_lead::<R, L>(alloc, None, shapes, &mut tests)?;
    let split = steps_lead(alloc, Some(rt), shapes, &mut tests)?;
    let turns = try_turns(alloc, shapes, DRIFT, &mut tests)?;
    Ok(Answers {
        finds,
        stand,
        split,
        turns,
    })
}

/// Where steps on one list lead, split ones where threads are given.
fn steps_lead<R: Threads + Sync, L: Ledger>(
    alloc: Global,
    threads: Option<&R>,
    shapes: &Shapes,
    tests: &mut Steps<L>,
) -> Result<Stand, OutOfMemory> {
    let mut run = Dyn::new(alloc, shapes, DRIFT)?;
    stand_after(alloc, threads, &mut run, tests)
}

/// Where steps of a run on one list lead.
fn stand_after<R: Threads + Sync, L: Ledger>(
    alloc: Global,
    threads: Option<&R>,
    run: &mut Dyn,
    tests: &mut Steps<L>,
) -> Result<Stand, OutOfMemory> {
    go_on_one_list(alloc, threads, run, tests)?;
    Stand::of(alloc, run)
}

/// What bins of each side find for the first state.
fn first_finds<L: Ledger>(
    alloc: Global,
    shapes: &Shapes,
    tests: &mut Steps<L>,
) -> Result<Vec<Found>, OutOfMemory> {
    let run = Dyn::new(alloc, shapes, DRIFT)?;
    all_finds(alloc, &run, tests)
}

/// What bins of each side find for the state of a run.
fn all_finds<L: Ledger>(
    alloc: Global,
    run: &Dyn,
    tests: &mut Steps<L>,
) -> Result<Vec<Found>, OutOfMemory> {
    let mut finds = Vec::new(alloc);
    for side in SIDES {
        if finds.push(find(alloc, run, side, tests)?).is_err() {
            return Err(OutOfMemory);
        }
    }
    Ok(finds)
}

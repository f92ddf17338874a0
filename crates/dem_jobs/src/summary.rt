//! What a run comes to: its last state's sum of positions and pairs that touch, and how it ends. Nothing of it is written.
ghost use Rattle.std.specs.Prelude.{◌≡◌, ◌<◌, false, length, filter, All, IfOk};
ghost use Rattle.dem_num.specs.Vectors.{widened};
ghost use Rattle.dem_model.specs.Motion.{AreInside, AreSound, IsPair};
ghost use Rattle.dem_bins.specs.Bins.{IsGridOf};
ghost use Rattle.dem_jobs.specs.Summaries.{position_sum as position_sum_of, touches, touch_count, IsLastState, IsSummaryOf};

use dem_bins::Grid;
use dem_core::World;
use dem_force::touch;
use dem_list::PairList;
use dem_model::{Body, Last, OutOfMemory, Steps};
use dem_num::{Vec3, ZERO, add3_short};
use dem_outside::BlankSink;
use dem_shape::{Centers, Shapes, Snapshot};
use std::alloc::Global;
use std::marker::Brand;
use std::sync::ledger::{Blank, Ledger};

/// How a run ended, and what the last state that it reached comes to.
#[derive(Clone, Copy, PartialEq, Debug)]
pub(crate) struct Summary {
    pub last: Last,
    /// The sum of the clumps' positions, in u.
    pub sum: Vec3,
    /// The number of pairs that touch.
    pub touching: u64,
}

/// Makes the run of a scene to its end, with lists by this grid, and sums it up.
pub(crate) fn sum_up(alloc: Global, shapes: &Shapes, grid: &Grid) -> Result<Summary, OutOfMemory>
    requires { IsGridOf shapes.now grid.now }
    ensures { IfOk result (IsSummaryOf shapes.now) }
{
    counted::<Brand>(alloc, shapes, grid, Blank::new(1))
}

// The same with a counter of tests that nobody reads.
fn counted<L: Ledger>(
    alloc: Global,
    shapes: &Shapes,
    grid: &Grid,
    blank: Blank,
) -> Result<Summary, OutOfMemory>
    requires name { blank.name ≡ L.name }
    requires parts { blank.parts ≡ L.parts }
    requires some { 0 < L.parts }
    requires grid { IsGridOf shapes.now grid.now }
    ensures { IfOk result (IsSummaryOf shapes.now) }
{
    let mut tests = Steps::<L>::new(blank);
    let (last, snap) = last_state(alloc, shapes, grid, &mut tests)?;
    let touching = count_touching(alloc, shapes, grid, &snap, &mut tests)?;
    let sum = position_sum(shapes, snap.bodies.as_slice());
    Ok(Summary {
        last,
        sum,
        touching,
    })
}

// Makes a run to its end: how it ends, and its last state. A blank sink takes each piece, so the world stops for want of memory alone.
fn last_state<L: Ledger>(
    alloc: Global,
    shapes: &Shapes,
    grid: &Grid,
    tests: &mut Steps<L>,
) -> Result<(Last, Snapshot), OutOfMemory>
    requires { IsGridOf shapes.now grid.now }
    ensures { IfOk result (λ r. IsLastState shapes.now r.0 r.1) }
{
    let snap = Snapshot::new(alloc, shapes.scene().clumps.len() as u32)?;
    match World::new(alloc, shapes, grid, &mut BlankSink) {
        Ok(mut world) => {
            let answer = state_at_end(&mut world, snap, tests);
            drop(world);
            answer
        }
        Err(_) => Err(OutOfMemory),
    }
}

// The same with a world that is lent.
fn state_at_end<L: Ledger>(
    world: &mut World,
    mut snap: Snapshot,
    tests: &mut Steps<L>,
) -> Result<(Last, Snapshot), OutOfMemory>
    requires goes_on { world.old.stopped ≡ false }
    requires room { length snap.bodies ≡ length world.old.scene.clumps }
    ensures { IfOk result (λ r. IsLastState world.old.scene r.0 r.1) }
{
    let Ok(last) = world.finish(&mut BlankSink, &mut BlankSink, tests) else {
        return Err(OutOfMemory);
    };
    let _now = world.now();
    world.snapshot_into(&mut snap);
    Ok((last, snap))
}

// How many pairs touch in a state. Its list of near pairs has all that do.
fn count_touching<L: Ledger>(
    alloc: Global,
    shapes: &Shapes,
    grid: &Grid,
    snap: &Snapshot,
    tests: &mut Steps<L>,
) -> Result<u64, OutOfMemory>
    requires grid { IsGridOf shapes.now grid.now }
    requires sound { AreSound shapes.now snap.now.bodies }
    ensures { IfOk result (λ n. n ≡ touch_count shapes.now snap.now.bodies) }
{
    let _scene = shapes.scene();
    let mut centers = Centers::new(alloc, shapes)?;
    centers.fill(shapes, snap.bodies.as_slice());
    match grid.build(alloc, shapes, snap, PairList::empty(alloc), tests) {
        Ok(list) => Ok(count_in(shapes, &centers, &list, tests)),
        Err((_, OutOfMemory)) => Err(OutOfMemory),
    }
}

// How many pairs of a list touch.
fn count_in<L: Ledger>(
    shapes: &Shapes,
    centers: &Centers,
    list: &PairList,
    tests: &mut Steps<L>,
) -> u64
    requires pairs { All (IsPair shapes.now) list.now.pairs }
    requires centers { AreInside shapes.now centers.now }
    ensures { result ≡ length (filter (touches shapes.now centers.now) list.now.pairs) }
{
    let mut count = 0;
    for i in 0..list.len() {
        if touch(shapes, centers, list.get(i), tests).is_some() {
            count += 1;
        }
    }
    count
}

// The sum of the positions of the clumps, each component below 2^50.
fn position_sum(shapes: &Shapes, bodies: &[Body]) -> Vec3
    requires { AreSound shapes.now bodies.now }
    ensures { widened result ≡ position_sum_of bodies.now }
{
    let _scene = shapes.scene();
    let mut sum = ZERO;
    for body in bodies {
        sum = add3_short(sum, body.p);
    }
    sum
}

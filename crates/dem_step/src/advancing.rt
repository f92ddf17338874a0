//! The bodies of all clumps after a step, put into room that was made before, by one thread or shared among several.

ghost use Rattle.std.specs.Prelude.{◌≡◌, ◌+◌, ◌<◌, ◌≤◌, ◌^◌, length, map, Result, Ok, Err, OnOk, IfOk, IfErr, IsTrue};
ghost use Rattle.std.specs.Thread.{IsSync};
ghost use Rattle.dem_num.specs.Vectors.{widened, sum_of, shifted_each, Within};
ghost use Rattle.dem_model.specs.Motion.{AreSound};
ghost use Rattle.dem_model.specs.Position.{in_box};
ghost use Rattle.dem_model.specs.Sound.{IsBody};
ghost use Rattle.dem_model.specs.Step.{no_load, advanced_from};
ghost use Rattle.dem_shape.specs.Matrices.{AreMatrices};
ghost use Rattle.dem_force.specs.Loads.{AreLoads};
ghost use Rattle.dem_voxel.specs.Voxel.{unpacked};
ghost use Rattle.dem_step.specs.Advancing.{CanAdvance, advanced_at, IsAdvanced, AdvancesBetween, first_end};
ghost use Rattle.dem_step.specs.Stored.{body_of};

use crate::stored::{Stored, StoredBodies, store};
use dem_force::advance_by;
use dem_model::{Body, End, EndKind, Load};
use dem_num::{Vec3, sh_short};
use dem_shape::{Matrices, Shapes};
use dem_voxel::{VoxelPos, moved};
use rayon::join_mut;
use std::thread::Threads;

/// Fewer clumps than these are advanced by one thread: to start threads takes longer.
const LEAST_SPLIT: u32 = 4096;

/// How many parts the clumps of a split step have, where they are as many.
const PARTS: u32 = 4;

/// Puts the bodies after the step of this number under these loads into `next`, or tells the first limit that a clump passes.
/// The bodies before it are given as they are stored, and unpacked, and their matrices.
pub fn advance_all(
    next: &mut StoredBodies,
    shapes: &Shapes,
    stored: &StoredBodies,
    bodies: &[Body],
    matrices: &Matrices,
    loads: &[Load],
    step: u32,
) -> Result<(), End>
    requires room { length next.old ≡ length shapes.now.clumps }
    requires sound { AreSound shapes.now bodies.now }
    requires same { stored.now ≡ bodies.now }
    requires matrices { AreMatrices shapes.now bodies.now matrices.now }
    requires loads { AreLoads shapes.now loads.now }
    ensures advanced { OnOk result (advanced_from shapes.now step 0 shapes.now.clumps bodies.now loads.now ≡ Ok next.new) }
    ensures sound { OnOk result (AreSound shapes.now next.new) }
    ensures ended { IfErr result (λ end. advanced_from shapes.now step 0 shapes.now.clumps bodies.now loads.now ≡ Err end) }
    ensures room { length next.new ≡ length shapes.now.clumps }
{
    let count = shapes.scene().clumps.len() as u32;
    let room = next.items.as_mut_slice();
    advance_range(
        0, count, shapes, stored, bodies, matrices, loads, step, room,
    )
}

/// The same as `advance_all`, its clumps shared among threads by parts where they are many.
pub fn advance_split<R: Threads + Sync>(
    rt: &R,
    next: &mut StoredBodies,
    shapes: &Shapes,
    stored: &StoredBodies,
    bodies: &[Body],
    matrices: &Matrices,
    loads: &[Load],
    step: u32,
) -> Result<(), End>
    requires room { length next.old ≡ length shapes.now.clumps }
    requires sound { AreSound shapes.now bodies.now }
    requires same { stored.now ≡ bodies.now }
    requires matrices { AreMatrices shapes.now bodies.now matrices.now }
    requires loads { AreLoads shapes.now loads.now }
    ensures advanced { OnOk result (advanced_from shapes.now step 0 shapes.now.clumps bodies.now loads.now ≡ Ok next.new) }
    ensures sound { OnOk result (AreSound shapes.now next.new) }
    ensures ended { IfErr result (λ end. advanced_from shapes.now step 0 shapes.now.clumps bodies.now loads.now ≡ Err end) }
    ensures room { length next.new ≡ length shapes.now.clumps }
{
    let count = shapes.scene().clumps.len() as u32;
    let room = next.items.as_mut_slice();
    let parts = if count < LEAST_SPLIT { 1 } else { PARTS };
    let size = count / PARTS;
    advance_part(
        rt, parts, size, 0, count, shapes, stored, bodies, matrices, loads, step, room,
    )
}

/// Advances the clumps from number `from` to before number `to`, in so many parts of this size, the last of which has all that is left.
#[cycle(parts)]
fn advance_part<R: Threads + Sync>(
    rt: &R,
    parts: u32,
    size: u32,
    from: u32,
    to: u32,
    shapes: &Shapes,
    stored: &StoredBodies,
    bodies: &[Body],
    matrices: &Matrices,
    loads: &[Load],
    step: u32,
    next: &mut [Stored],
) -> Result<(), End>
    requires can { CanAdvance shapes.now stored.now bodies.now matrices.now loads.now }
    requires order { from ≤ to }
    requires there { to ≤ length shapes.now.clumps }
    requires room { length next.old + from ≡ to }
    ensures part { AdvancesBetween shapes.now step bodies.now loads.now from to (map body_of next.new) result }
    ensures room { length next.new ≡ length next.old }
{
    if parts <= 1 {
        return advance_range(
            from, to, shapes, stored, bodies, matrices, loads, step, next,
        );
    }
    let low = size.min(to - from);
    let (front, back) = next.split_at_mut(low as usize);
    let (here, there) = advance_both(
        rt,
        parts,
        size,
        from,
        from + low,
        to,
        shapes,
        stored,
        bodies,
        matrices,
        loads,
        step,
        front,
        back,
    );
    earlier(here, there)
}

/// Advances the clumps of a part and of those behind it side by side: the part in another thread, where one can be made. So this thread starts
/// them all.
#[cycle(parts)]
fn advance_both<R: Threads + Sync>(
    rt: &R,
    parts: u32,
    size: u32,
    from: u32,
    middle: u32,
    to: u32,
    shapes: &Shapes,
    stored: &StoredBodies,
    bodies: &[Body],
    matrices: &Matrices,
    loads: &[Load],
    step: u32,
    front: &mut [Stored],
    back: &mut [Stored],
) -> (Result<(), End>, Result<(), End>)
    requires parts { 1 < parts }
    requires can { CanAdvance shapes.now stored.now bodies.now matrices.now loads.now }
    requires first { from ≤ middle }
    requires second { middle ≤ to }
    requires there { to ≤ length shapes.now.clumps }
    requires front { length front.old + from ≡ middle }
    requires back { length back.old + middle ≡ to }
    ensures front { AdvancesBetween shapes.now step bodies.now loads.now from middle (map body_of front.new) result.0 }
    ensures back { AdvancesBetween shapes.now step bodies.now loads.now middle to (map body_of back.new) result.1 }
    ensures front_room { length front.new ≡ length front.old }
    ensures back_room { length back.new ≡ length back.old }
{
    let mut first = || -> Result<(), End>
        requires { CanAdvance shapes.now stored.now bodies.now matrices.now loads.now × (from ≤ middle) × (middle ≤ length shapes.now.clumps) × (length front.now + from ≡ middle) }
        ensures { AdvancesBetween shapes.entry.now step bodies.entry.now loads.entry.now from middle (map body_of front.exit.now) result × (length front.exit.now ≡ length front.entry.now) }
    {
        advance_range(
            from, middle, shapes, stored, bodies, matrices, loads, step, front,
        )
    };
    let mut second = || -> Result<(), End>
        requires { IsSync R.row × (1 < parts) × CanAdvance shapes.now stored.now bodies.now matrices.now loads.now × (middle ≤ to) × (to ≤ length shapes.now.clumps) × (length back.now + middle ≡ to) }
        ensures { AdvancesBetween shapes.entry.now step bodies.entry.now loads.entry.now middle to (map body_of back.exit.now) result × (length back.exit.now ≡ length back.entry.now) }
    {
        advance_part(
            rt,
            parts - 1,
            size,
            middle,
            to,
            shapes,
            stored,
            bodies,
            matrices,
            loads,
            step,
            back,
        )
    };
    join_mut(rt, &mut first, &mut second)
}

/// The first end of two parts, the first of which has the clumps before those of the second.
fn earlier(here: Result<(), End>, there: Result<(), End>) -> Result<(), End>
    ensures { result ≡ first_end here there }
{
    match here {
        Ok(()) => there,
        Err(end) => Err(end),
    }
}

/// Advances the clumps from number `from` to before number `to` on this thread.
fn advance_range(
    from: u32,
    to: u32,
    shapes: &Shapes,
    stored: &StoredBodies,
    bodies: &[Body],
    matrices: &Matrices,
    loads: &[Load],
    step: u32,
    next: &mut [Stored],
) -> Result<(), End>
    requires can { CanAdvance shapes.now stored.now bodies.now matrices.now loads.now }
    requires order { from ≤ to }
    requires there { to ≤ length shapes.now.clumps }
    requires room { length next.old + from ≡ to }
    ensures part { AdvancesBetween shapes.now step bodies.now loads.now from to (map body_of next.new) result }
    ensures room { length next.new ≡ length next.old }
{
    for clump in from..to {
        match advance_one(clump, shapes, stored, bodies, matrices, loads) {
            Ok(body) => next[(clump - from) as usize] = body,
            Err(kind) => {
                return Err(End { step, kind, clump });
            }
        }
    }
    Ok(())
}

/// The body of a clump after the step, in its stored form, or the limit that it passes.
fn advance_one(
    clump: u32,
    shapes: &Shapes,
    stored: &StoredBodies,
    bodies: &[Body],
    matrices: &Matrices,
    loads: &[Load],
) -> Result<Stored, EndKind>
    requires can { CanAdvance shapes.now stored.now bodies.now matrices.now loads.now }
    requires there { clump < length shapes.now.clumps }
    ensures advanced { IfOk result (λ x. IsAdvanced shapes.now bodies.now loads.now clump (body_of x)) }
    ensures ended { IfErr result (λ kind. advanced_at shapes.now bodies.now loads.now clump ≡ Err kind) }
{
    let k = clump as usize;
    let load = loads[k];
    let rows = matrices.get(clump);
    match advance_by(shapes, clump, rows, &bodies[k], load.force, load.torque) {
        Ok(body) => Ok(store(moved_with(shapes, stored.voxel(k), &body), &body)),
        Err(kind) => Err(kind),
    }
}

/// The stored position of a clump after a step: the one before it, moved by the velocity that the step gave.
fn moved_with(shapes: &Shapes, at: VoxelPos, body: &Body) -> VoxelPos
    requires sound { IsBody shapes.now body.now }
    requires leads { widened body.now.p ≡ sum_of (unpacked at) (shifted_each (widened body.now.v) 16) }
    ensures { unpacked result ≡ widened body.now.p }
{
    let scene = shapes.scene();
    moved(at, per_step(body.v), scene.nx, scene.ny, scene.nz).unwrap()
}

/// How far a velocity moves a clump in one step, in u.
fn per_step(v: Vec3) -> Vec3
    requires { Within (widened v) (2 ^ 40) }
    ensures value { widened result ≡ shifted_each (widened v) 16 }
    ensures size { Within (widened result) (2 ^ 25) }
{
    Vec3 {
        x: sh_short(v.x, 16),
        y: sh_short(v.y, 16),
        z: sh_short(v.z, 16),
    }
}

//! Which clumps are below the middle height of the box, and how many passed it from one state to the next.
ghost use Rattle.std.specs.Prelude.{◌≡◌, ◌<◌, ◌≤◌, ◌*◌, ◌/◌, length, pos, if◌then◌else◌};
ghost use Rattle.dem_model.specs.Look.{is_low as is_low_of};
ghost use Rattle.dem_model.specs.Motion.{AreSound};
ghost use Rattle.dem_model.specs.declared.limits.TheConstants.{VOXEL};
ghost use Rattle.dem_look.specs.Looker.{lows_of};
ghost use Rattle.dem_look.specs.Inside.{left_count};

use dem_model::{State, VOXEL};
use dem_shape::Shapes;

/// How many clumps went up past the middle height, and how many down.
#[derive(Clone, Copy)]
pub(crate) struct Crossing {
    pub up: u32,
    pub down: u32,
}

/// How many clumps passed the middle height, from these flags of who was low to those of who is; none where nothing was seen before.
pub(crate) fn crossings(seen: bool, low: &[bool], next: &[bool]) -> Crossing
    requires few { length low.now ≤ 16384 }
    requires same { length next.now ≡ length low.now }
    ensures up { result.up ≡ (if seen then left_count low.now next.now else 0) }
    ensures down { result.down ≡ (if seen then left_count next.now low.now else 0) }
{
    if seen {
        Crossing {
            up: count_left(low, next),
            down: count_left(next, low),
        }
    } else {
        Crossing { up: 0, down: 0 }
    }
}

/// How many clumps are low by the first flags and not by the second.
#[tactic(auto, unfolding(crate::specs::Inside::left_count))]
fn count_left(low: &[bool], high: &[bool]) -> u32
    requires few { length low.now ≤ 16384 }
    requires same { length high.now ≡ length low.now }
    ensures { result ≡ left_count low.now high.now }
{
    let mut count = 0;
    for k in 0..low.len() {
        if low[k] && !high[k] {
            count += 1;
        }
    }
    count
}

/// Flags each clump that is low in a state.
pub(crate) fn flag_lows(flags: &mut [bool], shapes: &Shapes, state: &State)
    requires made { length flags.old ≡ length shapes.now.clumps }
    requires sound { AreSound shapes.now state.now.bodies }
    ensures { flags.new ≡ lows_of shapes.now state.now }
{
    let _scene = shapes.scene();
    for k in 0..flags.len() {
        flags[k] = is_low(shapes, state, k as u32);
    }
}

/// Whether a clump is below the middle height of the box.
#[tactic(auto, unfolding(dem_model::specs::Look::is_low))]
fn is_low(shapes: &Shapes, state: &State, clump: u32) -> bool
    requires there { clump < length state.now.bodies }
    ensures { result ≡ is_low_of shapes.now state.now clump }
{
    state.bodies.get(clump as usize).p.z < middle(shapes)
}

/// The middle height of the box, in u.
fn middle(shapes: &Shapes) -> i64
    ensures { result ≡ pos (shapes.now.nz * (VOXEL / 2)) }
{
    let nz = shapes.scene().nz as u64;
    (nz * (VOXEL / 2)) as i64
}

//! The box of each sphere, from its center less its reach to its center and its reach on each axis, and the cells that it meets.

ghost use Rattle.std.specs.Prelude.{◌≡◌, pos, ◌*◌, ◌^◌, ◌<◌, ◌≤◌, IfOk, unsigned_abs};
ghost use Rattle.dem_model.specs.Motion.{AreInside};
ghost use Rattle.dem_model.specs.Near.{reach_of};
ghost use Rattle.dem_model.specs.Pairs.{sphere_count};
ghost use Rattle.dem_model.specs.Sound.{IsBetween};
ghost use Rattle.dem_bins.specs.Bins.{IsGridOf};
ghost use Rattle.dem_bins.specs.Blocks.{
  interval_of,
  cells_of,
  block_of,
  blocks_of,
  meet_on as do_meet,
  beside,
  IsSpan,
  IsBlock,
};

use crate::grid::Grid;
use dem_force::center;
use dem_margin::reach;
use dem_model::{MAX_POINT, OutOfMemory};
use dem_shape::{Centers, Shapes};
use std::alloc::Global;

/// How many bins a column is wide on each of the first two axes.
pub const WIDE: u64 = 3;

/// The lowest and the highest place of a box on one axis, in u, or those of its cells; counted from the fourth bin below the origin,
/// so that none is negative.
#[derive(Clone, Copy)]
pub struct Span {
    pub low: u64,
    pub high: u64,
}

/// The columns that the box of a sphere meets on the first two axes, the bins that it meets on the third, and the box.
#[derive(Clone, Copy)]
pub struct Block {
    pub x: Span,
    pub y: Span,
    pub z: Span,
    pub across: Span,
    pub along: Span,
    pub upright: Span,
}

/// The blocks of all spheres, in the order of their numbers.
pub fn all_blocks(
    alloc: Global,
    shapes: &Shapes,
    centers: &Centers,
    grid: &Grid,
) -> Result<Vec<Block>, OutOfMemory>
    requires grid { IsGridOf shapes.now grid.now }
    requires centers { AreInside shapes.now centers.now }
    ensures { IfOk result (λ bs. bs.items ≡ blocks_of shapes.now grid.now centers.now) }
{
    let mut blocks = Vec::new(alloc);
    for i in 0..shapes.spheres() {
        if blocks.push(block_around(shapes, centers, grid, i)).is_err() {
            return Err(OutOfMemory);
        }
    }
    Ok(blocks)
}

/// The block of a sphere.
#[tactic(auto, unfolding(crate::specs::Blocks::block_of))]
fn block_around(shapes: &Shapes, centers: &Centers, grid: &Grid, i: u32) -> Block
    requires grid { IsGridOf shapes.now grid.now }
    requires centers { AreInside shapes.now centers.now }
    requires sphere { i < sphere_count shapes.now }
    ensures { result ≡ block_of shapes.now grid.now centers.now i }
{
    let reach = reach_within(shapes, grid, i);
    let c = center(shapes, centers, i);
    let across = interval(grid.bin(), reach, c.x);
    let along = interval(grid.bin(), reach, c.y);
    let upright = interval(grid.bin(), reach, c.z);
    Block {
        x: cells(grid.bin() * WIDE, across),
        y: cells(grid.bin() * WIDE, along),
        z: cells(grid.bin(), upright),
        across,
        along,
        upright,
    }
}

/// How far a sphere may reach, in u per axis: no farther than four bins.
fn reach_within(shapes: &Shapes, grid: &Grid, i: u32) -> u64
    requires grid { IsGridOf shapes.now grid.now }
    requires sphere { i < sphere_count shapes.now }
    ensures value { result ≡ reach_of shapes.now grid.now.drift i }
    ensures size { result ≤ 4 * grid.now.bin }
{
    reach(shapes, grid.drift(), i)
}

/// The interval in u about a middle, with a reach.
#[tactic(auto, unfolding(crate::specs::Blocks::interval_of))]
fn interval(bin: u64, reach: u64, c: i64) -> Span
    requires most { bin ≤ 2 ^ 38 }
    requires reach { reach ≤ 4 * bin }
    requires inside { IsBetween (pos 0) (pos MAX_POINT) c }
    ensures { result ≡ interval_of bin reach (unsigned_abs c) }
{
    let middle = c as u64 + 4 * bin;
    Span {
        low: middle - reach,
        high: middle + reach,
    }
}

/// The cells of a side that an interval meets.
#[tactic(auto, unfolding(crate::specs::Blocks::cells_of))]
fn cells(side: u64, interval: Span) -> Span
    requires { 0 < side }
    ensures { result ≡ cells_of side interval }
{
    Span {
        low: interval.low / side,
        high: interval.high / side,
    }
}

/// Whether two boxes meet as they are seen along the third axis.
#[tactic(auto, unfolding(crate::specs::Blocks::beside))]
pub fn are_beside(a: &Block, b: &Block) -> bool
    ensures { result ≡ beside a.now b.now }
{
    meet_on(a.across, b.across) && meet_on(a.along, b.along)
}

/// Whether each of two intervals begins no later than the other ends.
#[tactic(auto, unfolding(crate::specs::Blocks::meet_on))]
pub fn meet_on(a: Span, b: Span) -> bool
    ensures { result ≡ do_meet a b }
{
    !(b.high < a.low) && !(a.high < b.low)
}

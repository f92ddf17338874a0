//! The walk over sorted keys: from each key forward to the last that its sphere may meet in that column.

ghost use Rattle.std.specs.Prelude.{All, [], ◌∷◌, ◌&&◌, ◌≡◌, ◌+◌, ◌^◌, ◌<◌, ◌≤◌, ◌++◌, OnOk, length, slice_index, if◌then◌else◌};
ghost use Rattle.dem_model.specs.Motion.{AreInside};
ghost use Rattle.dem_bins.specs.Keys.{IsKey};
ghost use Rattle.dem_bins.specs.Walk.{
  AreBoxes,
  AreKeys,
  end_of,
  first_column as first_column_of,
  meets,
  met,
  row_of,
  row_visits,
  rows_of,
  rows_visits,
};
ghost use Rattle.dem_model.specs.Pairs.{sphere_count, apart};
ghost use Rattle.dem_bins.specs.Blocks.{IsBlock};

use crate::blocks::{Block, are_beside, meet_on};
use crate::keys::{column, column_of_key, key, sphere_of};
use dem_list::RawPairs;
use dem_model::{OutOfMemory, Pair, Steps};
use dem_shape::{Centers, Shapes, is_apart};
use std::sync::ledger::Ledger;

/// Adds the near pairs of spheres; it counts each visit of two keys.
pub fn walk<L: Ledger>(
    raw: &mut RawPairs,
    shapes: &Shapes,
    centers: &Centers,
    drift: u32,
    blocks: &[Block],
    keys: &[u128],
    tests: &mut Steps<L>,
) -> Result<(), OutOfMemory>
    requires centers { AreInside shapes.now centers.now }
    requires drift { drift ≤ 1024 }
    requires keys { AreKeys shapes.now blocks.now keys.now }
    requires boxes { AreBoxes shapes.now drift centers.now blocks.now }
    requires room { length raw.old.pairs + length (rows_of shapes.now drift centers.now blocks.now keys.now) + 1 < 2 ^ 32 }
    ensures found { OnOk result (raw.new.pairs ≡ raw.old.pairs ++ rows_of shapes.now drift centers.now blocks.now keys.now) }
    ensures from { raw.new.from ≡ raw.old.from }
    ensures counted { tests.new ≤ tests.old + rows_visits blocks.now keys.now }
{
    for i in 0..keys.len() {
        add_row(raw, shapes, centers, drift, blocks, keys, i, tests)?;
    }
    Ok(())
}

/// Adds the near pairs of a key with those that follow it and that its sphere may meet in that column.
fn add_row<L: Ledger>(
    raw: &mut RawPairs,
    shapes: &Shapes,
    centers: &Centers,
    drift: u32,
    blocks: &[Block],
    keys: &[u128],
    i: usize,
    tests: &mut Steps<L>,
) -> Result<(), OutOfMemory>
    requires centers { AreInside shapes.now centers.now }
    requires drift { drift ≤ 1024 }
    requires keys { AreKeys shapes.now blocks.now keys.now }
    requires boxes { AreBoxes shapes.now drift centers.now blocks.now }
    requires there { i < length keys.now }
    requires room { length raw.old.pairs + length (row_of shapes.now drift centers.now blocks.now keys.now (slice_index keys.now i)) + 1 < 2 ^ 32 }
    ensures found { OnOk result (raw.new.pairs ≡ raw.old.pairs ++ row_of shapes.now drift centers.now blocks.now keys.now (slice_index keys.now i)) }
    ensures from { raw.new.from ≡ raw.old.from }
    ensures counted { tests.new ≤ tests.old + row_visits blocks.now keys.now (slice_index keys.now i) }
{
    let first = keys[i];
    let end = end_after(blocks, first);
    for j in i + 1..keys.len() {
        let second = keys[j];
        if end <= second {
            return Ok(());
        }
        visit(raw, shapes, centers, drift, blocks, first, second, tests)?;
    }
    Ok(())
}

/// The least key of the same column that lies above the highest cell of a key's sphere.
#[tactic(auto, unfolding(crate::specs::Walk::end_of))]
fn end_after(blocks: &[Block], first: u128) -> u128
    requires blocks { All IsBlock blocks.now }
    requires key { IsKey blocks.now first }
    ensures { result ≡ end_of blocks.now first }
{
    let high = blocks[sphere_of(first) as usize].z.high;
    key(column_of_key(first), high + 1, 0)
}

/// Adds the pair of two keys in the first column that both spheres meet, if it is apart and near, which is where the boxes meet on all
/// axes; spheres whose boxes aren't beside each other are passed over untested. A sphere has one key a column, so that two keys here
/// are never of one sphere.
#[tactic(auto, unfolding(crate::specs::Walk::met, crate::specs::Walk::meets, crate::specs::Walk::visited, crate::specs::Walk::pair_in))]
fn visit<L: Ledger>(
    raw: &mut RawPairs,
    shapes: &Shapes,
    centers: &Centers,
    drift: u32,
    blocks: &[Block],
    first: u128,
    second: u128,
    tests: &mut Steps<L>,
) -> Result<(), OutOfMemory>
    requires centers { AreInside shapes.now centers.now }
    requires drift { drift ≤ 1024 }
    requires count { length blocks.now ≡ sphere_count shapes.now }
    requires blocks { All IsBlock blocks.now }
    requires boxes { AreBoxes shapes.now drift centers.now blocks.now }
    requires first { IsKey blocks.now first }
    requires second { IsKey blocks.now second }
    requires order { first ≤ second }
    requires below { second < end_of blocks.now first }
    requires room { length raw.old.pairs + 1 < 2 ^ 32 }
    ensures found { OnOk result (raw.new.pairs ≡ raw.old.pairs ++ met shapes.now drift centers.now blocks.now first second) }
    ensures from { raw.new.from ≡ raw.old.from }
    ensures counted { tests.new ≤ tests.old + (if meets blocks.now first second then 1 else 0) }
{
    let a = sphere_of(first);
    let b = sphere_of(second);
    if a == b {
        return Ok(());
    }
    if !are_beside(&blocks[a as usize], &blocks[b as usize]) {
        return Ok(());
    }
    tests.tick();
    if first_column(&blocks[a as usize], &blocks[b as usize]) == column_of_key(first) {
        let pair = Pair {
            a: a.min(b),
            b: a.max(b),
        };
        let near = meet_on(blocks[a as usize].upright, blocks[b as usize].upright);
        add_apart(raw, shapes, pair, near)
    } else {
        Ok(())
    }
}

/// Adds a pair of spheres that is known to be near or not, if it is near and apart.
fn add_apart(raw: &mut RawPairs, shapes: &Shapes, pair: Pair, near: bool) -> Result<(), OutOfMemory>
    requires first { pair.a < sphere_count shapes.now }
    requires later { pair.a < pair.b }
    requires room { length raw.old.pairs + 1 < 2 ^ 32 }
    ensures found { OnOk result (raw.new.pairs ≡ raw.old.pairs ++ (if apart shapes.now pair && near then pair ∷ [] else [])) }
    ensures from { raw.new.from ≡ raw.old.from }
{
    if is_apart(shapes, pair) && near {
        return raw.add(pair);
    }
    Ok(())
}

/// The first of the columns that two blocks both meet.
#[tactic(auto, unfolding(crate::specs::Walk::first_column))]
fn first_column(a: &Block, b: &Block) -> u128
    requires first { IsBlock a.now }
    requires second { IsBlock b.now }
    ensures { result ≡ first_column_of a.now b.now }
{
    column(a.x.low.max(b.x.low), a.y.low.max(b.y.low))
}

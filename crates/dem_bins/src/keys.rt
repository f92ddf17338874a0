//! The keys of all spheres: one for each column of bins that a sphere's block meets, packed into one number each.

ghost use Rattle.std.specs.Prelude.{◌≡◌, ◌+◌, ◌*◌, ◌<◌, ◌≤◌, ◌++◌, All, IfOk, OnOk, length};
ghost use Rattle.std.specs.List.Sorted.{IsPermutation, IsNonDecreasing};
ghost use Rattle.dem_bins.specs.Blocks.{IsBlock};
ghost use Rattle.dem_bins.specs.Keys.{column_of, key_of, sphere_in, column_in, row_keys, own_keys, keys_of, IsKey};
ghost use Rattle.dem_bins.specs.Walk.{end_of};

use crate::blocks::Block;
use dem_model::OutOfMemory;
use std::alloc::Global;

/// What the number of a cell is less than: 2^37.
pub const CELLS: u128 = 137_438_953_472;
/// What the number of a sphere is less than.
pub const SPHERES: u128 = 32_768;

/// The keys of all spheres, in ascending order.
pub fn sorted_keys(alloc: Global, blocks: &[Block]) -> Result<Vec<u128>, OutOfMemory>
    requires count { length blocks.now ≤ SPHERES }
    requires blocks { All IsBlock blocks.now }
    ensures moved { IfOk result (λ keys. IsPermutation (keys_of blocks.now) keys.items) }
    ensures sorted { IfOk result (λ keys. IsNonDecreasing keys.items) }
{
    let mut keys = all_keys(alloc, blocks)?;
    keys.sort_unstable();
    Ok(keys)
}

/// The keys of all spheres, sphere by sphere.
#[tactic(auto, unfolding(crate::specs::Keys::keys_of))]
fn all_keys(alloc: Global, blocks: &[Block]) -> Result<Vec<u128>, OutOfMemory>
    requires count { length blocks.now ≤ SPHERES }
    requires blocks { All IsBlock blocks.now }
    ensures { IfOk result (λ keys. keys.items ≡ keys_of blocks.now) }
{
    let mut keys = Vec::new(alloc);
    for i in 0..blocks.len() {
        add_own(&mut keys, &blocks[i], i as u32)?;
    }
    Ok(keys)
}

/// Adds the keys of a sphere.
#[tactic(auto, unfolding(crate::specs::Keys::own_keys))]
fn add_own(keys: &mut Vec<u128>, block: &Block, i: u32) -> Result<(), OutOfMemory>
    requires block { IsBlock block.now }
    requires sphere { i < SPHERES }
    ensures { OnOk result (keys.new.items ≡ keys.old.items ++ own_keys block.now i) }
{
    for x in block.x.low..block.x.high + 1 {
        add_row(keys, block, i, x)?;
    }
    Ok(())
}

/// Adds the keys of a sphere in the columns of one row of its block.
#[tactic(auto, unfolding(crate::specs::Keys::row_keys))]
fn add_row(keys: &mut Vec<u128>, block: &Block, i: u32, x: u64) -> Result<(), OutOfMemory>
    requires block { IsBlock block.now }
    requires sphere { i < SPHERES }
    requires cell { x < CELLS }
    ensures { OnOk result (keys.new.items ≡ keys.old.items ++ row_keys block.now i x) }
{
    for y in block.y.low..block.y.high + 1 {
        let key = key(column(x, y), block.z.low, i);
        if keys.push(key).is_err() {
            return Err(OutOfMemory);
        }
    }
    Ok(())
}

/// The number of a column.
#[tactic(auto, unfolding(crate::specs::Keys::column_of))]
pub fn column(x: u64, y: u64) -> u128
    requires x { x < CELLS }
    requires y { y < CELLS }
    ensures value { result ≡ column_of x y }
    ensures size { result < CELLS * CELLS }
{
    x as u128 * CELLS + y as u128
}

/// The key of a sphere in a column, from its lowest cell there and its number.
#[tactic(auto, unfolding(crate::specs::Keys::key_of))]
pub fn key(column: u128, low: u64, i: u32) -> u128
    requires column { column < CELLS * CELLS }
    requires cell { low < CELLS }
    requires sphere { i < SPHERES }
    ensures { result ≡ key_of column low i }
{
    (column * CELLS + low as u128) * SPHERES + i as u128
}

/// The sphere of a key.
#[tactic(auto, unfolding(crate::specs::Keys::sphere_in))]
pub fn sphere_of(key: u128) -> u32
    ensures { result ≡ sphere_in key }
{
    (key % SPHERES) as u32
}

/// The column of a key.
#[tactic(auto, unfolding(crate::specs::Keys::column_in))]
pub fn column_of_key(key: u128) -> u128
    ensures { result ≡ column_in key }
{
    key / SPHERES / CELLS
}

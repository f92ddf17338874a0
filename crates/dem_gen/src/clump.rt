//! The clumps of a made scene.
ghost use Rattle.std.specs.Prelude.{◌≡◌, ◌<◌, ◌≤◌, IfOk};
ghost use Rattle.dem_model.specs.Made.{made_clump, made_clumps, made_place, made_velocity, place_in, speed_from, state_after};

use crate::words::draw;
use dem_model::{Body, Clump, List, OutOfMemory, UNIT};
use dem_num::{Quat, Vec3};
use rand_xoshiro::SplitMix64;
use std::alloc::Global;

const CELL: u64 = 2_097_152;

const MIDDLE: u64 = 1_048_576;

const PLACES: u64 = 16_384;

const SPEEDS: u64 = 16_777_216;

const SLOWEST: i64 = 8_388_608;

/// The clumps of the first `count` cells of a cube.
pub(crate) fn clumps(
    alloc: Global,
    words: &mut SplitMix64,
    edge: u64,
    count: u32,
) -> Result<List<Clump>, OutOfMemory>
    requires some { 1 ≤ edge }
    requires few { edge ≤ 26 }
    requires many { count ≤ 16384 }
    ensures { IfOk result (λ cs. cs ≡ made_clumps words.old edge count) }
{
    let mut clumps = List::new(alloc);
    for i in 0..count {
        clumps.push(clump(words, edge, u64::from(i)))?;
    }
    Ok(clumps)
}

// Clump i, by seven words.
#[tactic(auto, unfolding(dem_model::specs::Made::made_clump), using(crate::proofs::WordFacts::words))]
fn clump(words: &mut SplitMix64, edge: u64, i: u64) -> Clump
    requires some { 1 ≤ edge }
    requires few { edge ≤ 26 }
    requires many { i < 16384 }
    ensures value { result ≡ made_clump words.old edge i }
    ensures after { words.new ≡ state_after words.old 7 }
{
    let t = (draw(words) % 4) as u32;
    let p = place(words, edge, i);
    let v = velocity(words);
    let q = Quat {
        a: UNIT as i64,
        b: 0,
        c: 0,
        d: 0,
    };
    let w = Vec3 { x: 0, y: 0, z: 0 };
    Clump {
        t,
        family: 0,
        body: Body { p, q, v, w },
    }
}

// The place of clump i.
#[tactic(auto, unfolding(dem_model::specs::Made::made_place), using(crate::proofs::WordFacts::words))]
fn place(words: &mut SplitMix64, edge: u64, i: u64) -> Vec3
    requires some { 1 ≤ edge }
    requires few { edge ≤ 26 }
    requires many { i < 16384 }
    ensures value { result ≡ made_place words.old edge i }
    ensures after { words.new ≡ state_after words.old 3 }
{
    let x = place_in(i % edge, draw(words));
    let y = place_in(i / edge % edge, draw(words));
    let z = place_in(i / (edge * edge), draw(words));
    Vec3 { x, y, z }
}

// A place on one axis: near the middle of the cell of this number.
#[tactic(auto, unfolding(dem_model::specs::Made::place_in))]
fn place_in(cell: u64, word: u64) -> i64
    requires { cell < 16384 }
    ensures { result ≡ place_in cell word }
{
    (CELL * (cell + 1) + MIDDLE + word % PLACES) as i64
}

// A velocity, by three words.
#[tactic(auto, unfolding(dem_model::specs::Made::made_velocity), using(crate::proofs::WordFacts::words))]
fn velocity(words: &mut SplitMix64) -> Vec3
    ensures value { result ≡ made_velocity words.old }
    ensures after { words.new ≡ state_after words.old 3 }
{
    let x = speed_from(draw(words));
    let y = speed_from(draw(words));
    let z = speed_from(draw(words));
    Vec3 { x, y, z }
}

// A velocity on one axis.
#[tactic(auto, unfolding(dem_model::specs::Made::speed_from))]
fn speed_from(word: u64) -> i64
    ensures { result ≡ speed_from word }
{
    (word % SPEEDS) as i64 - SLOWEST
}

//! The head, the clumps and the pairs of a frame, each read from its record.
ghost use Rattle.std.specs.Prelude.{◌≡◌, ◌≤◌, ◌+◌, ◌<◌, length, option_map};
ghost use Rattle.csv.specs.Records.{fields_of};
ghost use Rattle.dem_frame.specs.Records.{
  vector_of,
  quaternion_of,
  whole_of,
  head_of,
  body_of,
  body_of_clump,
  clump_of,
  is_small,
  comes_after,
  continues,
  held_from,
  held_of,
  pair_of,
};

use crate::number::row_numbers;
use csv::ByteRecord;
use dem_model::{Body, Held, MAX_STEPS, Pair};
use dem_num::{Quat, Vec3};

/// The greatest component of a displacement, in size: 2^40 parts of which 2^16 are one u.
const MAX_HELD: u64 = 1 << 40;

// The number, where it is from 0 to `high`.
#[tactic(auto, unfolding(crate::specs::Records::whole_of))]
fn whole(n: i64, high: u32) -> Option<u32>
    ensures { result ≡ whole_of high n }
{
    if 0 <= n && n <= high as i64 {
        Some(n as u32)
    } else {
        None
    }
}

// Three numbers from a place on.
fn vector_at(numbers: &[i64], i: usize) -> Vec3
    requires { i + 3 ≤ length numbers.now }
    ensures { result ≡ vector_of numbers.now i }
{
    Vec3 {
        x: numbers[i],
        y: numbers[i + 1],
        z: numbers[i + 2],
    }
}

// Four numbers from a place on.
fn quaternion_at(numbers: &[i64], i: usize) -> Quat
    requires { i + 4 ≤ length numbers.now }
    ensures { result ≡ quaternion_of numbers.now i }
{
    Quat {
        a: numbers[i],
        b: numbers[i + 1],
        c: numbers[i + 2],
        d: numbers[i + 3],
    }
}

/// The number of the state, from the head of a frame.
#[tactic(auto, unfolding(crate::specs::Records::head_of))]
pub(crate) fn read_head(row: &ByteRecord) -> Option<u32>
    ensures { result ≡ head_of (fields_of row.now) }
{
    let numbers = row_numbers(row, b"frame", 1)?;
    whole(numbers.as_slice()[0], MAX_STEPS)
}

// The body of a clump's numbers.
#[tactic(auto, unfolding(crate::specs::Records::body_of))]
fn body(numbers: &[i64]) -> Body
    requires { length numbers.now ≡ 14 }
    ensures { result ≡ body_of numbers.now }
{
    Body {
        p: vector_at(numbers, 1),
        q: quaternion_at(numbers, 7),
        v: vector_at(numbers, 4),
        w: vector_at(numbers, 11),
    }
}

// The body, where the numbers are of clump `i`.
#[tactic(auto, unfolding(crate::specs::Records::body_of_clump))]
fn numbered_body(numbers: &[i64], i: u32) -> Option<Body>
    requires { length numbers.now ≡ 14 }
    ensures { result ≡ body_of_clump i numbers.now }
{
    let k = whole(numbers[0], u32::MAX)?;
    if k == i { Some(body(numbers)) } else { None }
}

/// The body of clump `i`, from its row.
#[tactic(auto, unfolding(crate::specs::Records::clump_of))]
pub(crate) fn read_clump(row: &ByteRecord, i: u32) -> Option<Body>
    ensures { result ≡ clump_of i (fields_of row.now) }
{
    let numbers = row_numbers(row, b"clump", 14)?;
    numbered_body(numbers.as_slice(), i)
}

// Each component is at most 2^40 in size.
#[tactic(auto, unfolding(crate::specs::Records::is_small))]
fn is_small_enough(h: Vec3) -> bool
    ensures { result ≡ is_small h }
{
    h.x.unsigned_abs() <= MAX_HELD
        && h.y.unsigned_abs() <= MAX_HELD
        && h.z.unsigned_abs() <= MAX_HELD
}

// Whether the pair comes after the last one, if there is one.
#[tactic(auto, unfolding(crate::specs::Records::continues, crate::specs::Records::comes_after))]
fn is_next(last: Option<Held>, pair: Pair) -> bool
    ensures { result ≡ continues last pair }
{
    match last {
        None => true,
        Some(e) => e.pair.a < pair.a || e.pair.a == pair.a && e.pair.b < pair.b,
    }
}

// The pair with its displacement, where both are in range and the pair comes after the last one.
#[tactic(auto, unfolding(crate::specs::Records::held_from))]
fn held(last: Option<Held>, pair: Pair, h: Vec3) -> Option<Held>
    ensures { result ≡ held_from last pair h }
{
    if pair.a < pair.b && is_small_enough(h) && is_next(last, pair) {
        Some(Held { pair, h })
    } else {
        None
    }
}

// The same from the numbers of a row.
#[tactic(auto, unfolding(crate::specs::Records::held_of))]
fn held_of_numbers(last: Option<Held>, numbers: &[i64]) -> Option<Held>
    requires { length numbers.now ≡ 5 }
    ensures { result ≡ held_of last numbers.now }
{
    let a = whole(numbers[0], u32::MAX)?;
    let b = whole(numbers[1], u32::MAX)?;
    held(last, Pair { a, b }, vector_at(numbers, 2))
}

/// A pair after the last one, from its row.
#[tactic(auto, unfolding(crate::specs::Records::pair_of))]
pub(crate) fn read_pair(row: &ByteRecord, last: Option<Held>) -> Option<Held>
    ensures { result ≡ pair_of last (fields_of row.now) }
{
    let numbers = row_numbers(row, b"pair", 5)?;
    held_of_numbers(last, numbers.as_slice())
}

//! The unit normal of a facet.

ghost use Rattle.std.specs.Prelude.{◌≡◌, true, pos, ◌+◌, ◌*◌, ◌^◌, ◌<◌, ◌≤◌, ◌*ℤ◌, unsigned_abs};
ghost use Rattle.dem_num.specs.Numbers.{AtMost, quotient, root_of};
ghost use Rattle.dem_num.specs.Vectors.{widened, Within, norm2_of};
ghost use Rattle.dem_model.specs.Facet.{facet_normal, facet_good, facet_unit};

use crate::sides::normal;
use dem_num::{Vec3, mul, narrow, norm2, root, tdiv, widen};

/// What a normal is multiplied by before it is divided by its length: 2^40.
const FINE: i128 = 1_099_511_627_776;
/// What the square of a normal's length is multiplied by before its root is taken: 2^20.
const FINE_SQUARE: u128 = 1_048_576;

/// The unit normal of a facet, times 2^30.
#[tactic(auto, unfolding(dem_model::specs::Facet::facet_unit))]
pub fn facet_unit(a: Vec3, b: Vec3, c: Vec3) -> Vec3
    requires good { facet_good a b c ≡ true }
    ensures value { result ≡ facet_unit a b c }
    ensures size { Within (widened result) (2 ^ 30) }
{
    let n = good_normal(a, b, c);
    let length = fine_length(n);
    Vec3 {
        x: unit_component(n.x, length),
        y: unit_component(n.y, length),
        z: unit_component(n.z, length),
    }
}

/// The normal of a facet, which isn't short.
#[tactic(auto, using(crate::proofs::CloseFacts::good_close, crate::proofs::CloseFacts::good_long))]
fn good_normal(a: Vec3, b: Vec3, c: Vec3) -> Vec3
    requires good { facet_good a b c ≡ true }
    ensures value { widened result ≡ facet_normal a b c }
    ensures size { Within (widened result) (2 ^ 53) }
    ensures long { 2 ^ 40 ≤ norm2_of (widened result) }
{
    normal(a, b, c)
}

/// The length of a normal, times 2^10.
fn fine_length(n: Vec3) -> u64
    requires long { 2 ^ 40 ≤ norm2_of (widened n) }
    requires small { Within (widened n) (2 ^ 53) }
    ensures value { result ≡ root_of (2 ^ 20 * norm2_of (widened n)) }
    ensures positive { 0 < result }
    ensures x { 2 ^ 10 * unsigned_abs n.x ≤ result }
    ensures y { 2 ^ 10 * unsigned_abs n.y ≤ result }
    ensures z { 2 ^ 10 * unsigned_abs n.z ≤ result }
{
    root(FINE_SQUARE * normal_square(n))
}

/// The square of a normal's length.
fn normal_square(n: Vec3) -> u128
    requires small { Within (widened n) (2 ^ 53) }
    ensures value { result ≡ norm2_of (widened n) }
    ensures size { result ≤ 3 * 2 ^ 106 }
{
    norm2(widen(n))
}

/// A component of the unit normal, from that of the normal and the normal's length times 2^10.
fn unit_component(x: i64, length: u64) -> i64
    requires some { 0 < length }
    requires small { AtMost x (2 ^ 53) }
    requires part { 2 ^ 10 * unsigned_abs x ≤ length }
    ensures value { result ≡ quotient (pos (2 ^ 40) *ℤ x) (pos length) }
    ensures size { AtMost result (2 ^ 30) }
{
    narrow(wide_component(x, length))
}

/// A component of the unit normal, at 128 bits.
fn wide_component(x: i64, length: u64) -> i128
    requires some { 0 < length }
    requires small { AtMost x (2 ^ 53) }
    requires part { 2 ^ 10 * unsigned_abs x ≤ length }
    ensures value { result ≡ quotient (pos (2 ^ 40) *ℤ x) (pos length) }
    ensures size { AtMost result (2 ^ 30) }
{
    tdiv(mul(FINE, x as i128), length as i128)
}

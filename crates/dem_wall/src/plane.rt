//! Planes: the unit normal, the gap in front of a plane, and whether a sphere touches it or is near it.

ghost use Rattle.std.specs.Prelude.{◌≡◌, pos, ◌+◌, ◌*◌, ◌^◌, ◌<◌, ◌≤◌, ◌-ℤ◌, ◌*ℤ◌, ◌≤ℤ◌, int_lt, false, IfSome, unsigned_abs};
ghost use Rattle.std.specs.Int.{int_min};
ghost use Rattle.dem_num.specs.Numbers.{AtMost, quotient, shifted, root_of};
ghost use Rattle.dem_num.specs.Vectors.{widened, Within, is_zero, norm2_of, dot_of, difference_of};
ghost use Rattle.dem_model.specs.Sound.{IsBetween, EachBetween};
ghost use Rattle.dem_model.specs.Touch.{unit_of, gap_of, plane_touch};
ghost use Rattle.dem_model.specs.Near.{plane_near};
ghost use Rattle.dem_model.specs.Ranges.{IsTouch};

use dem_model::{MAX_OVERLAP, Touch};
use dem_num::{Vec3, dot, mul, narrow, norm2, place_difference, root, sh, sub, tdiv, widen};

/// What a direction is multiplied by before it is divided by its length: 2^70.
const FINE: i128 = 1_180_591_620_717_411_303_424;
/// What the square of a direction's length is multiplied by before its root is taken: 2^80.
const FINE_SQUARE: u128 = 1_208_925_819_614_629_174_706_176;

/// The unit normal of a plane, times 2^30, from its direction.
#[tactic(auto, unfolding(dem_model::specs::Touch::unit_of))]
pub fn unit(dir: Vec3) -> Vec3
    requires some { is_zero (widened dir) ≡ false }
    requires small { Within (widened dir) (2 ^ 20) }
    ensures value { result ≡ unit_of dir }
    ensures size { Within (widened result) (2 ^ 30) }
{
    let length = fine_length(dir);
    Vec3 {
        x: unit_component(dir.x, length),
        y: unit_component(dir.y, length),
        z: unit_component(dir.z, length),
    }
}

/// The length of a direction, times 2^40.
fn fine_length(dir: Vec3) -> u64
    requires some { is_zero (widened dir) ≡ false }
    requires small { Within (widened dir) (2 ^ 20) }
    ensures value { result ≡ root_of (2 ^ 80 * norm2_of (widened dir)) }
    ensures positive { 0 < result }
    ensures size { result ≤ 2 ^ 62 }
    ensures x { 2 ^ 40 * unsigned_abs dir.x ≤ result }
    ensures y { 2 ^ 40 * unsigned_abs dir.y ≤ result }
    ensures z { 2 ^ 40 * unsigned_abs dir.z ≤ result }
{
    root(FINE_SQUARE * direction_square(dir))
}

/// The square of a direction's length.
fn direction_square(dir: Vec3) -> u128
    requires small { Within (widened dir) (2 ^ 20) }
    ensures value { result ≡ norm2_of (widened dir) }
    ensures size { result ≤ 2 ^ 42 }
{
    norm2(widen(dir))
}

/// A component of the unit normal, from that of the direction and the direction's length times 2^40.
fn unit_component(x: i64, length: u64) -> i64
    requires some { 0 < length }
    requires length_small { length ≤ 2 ^ 62 }
    requires small { AtMost x (2 ^ 20) }
    requires part { 2 ^ 40 * unsigned_abs x ≤ length }
    ensures value { result ≡ quotient (pos (2 ^ 70) *ℤ x) (pos length) }
    ensures size { AtMost result (2 ^ 30) }
{
    narrow(wide_component(x, length))
}

/// A component of the unit normal, at 128 bits.
fn wide_component(x: i64, length: u64) -> i128
    requires some { 0 < length }
    requires length_small { length ≤ 2 ^ 62 }
    requires small { AtMost x (2 ^ 20) }
    requires part { 2 ^ 40 * unsigned_abs x ≤ length }
    ensures value { result ≡ quotient (pos (2 ^ 70) *ℤ x) (pos length) }
    ensures size { AtMost result (2 ^ 30) }
{
    tdiv(mul(FINE, x as i128), length as i128)
}

/// How far a place is in front of a plane, in u.
#[tactic(auto, unfolding(dem_model::specs::Touch::gap_of))]
pub fn gap(at: Vec3, normal: Vec3, c: Vec3) -> i128
    requires normal_small { Within (widened normal) (2 ^ 30) }
    requires point_small { Within (widened at) (2 ^ 36) }
    requires center_small { Within (widened c) (2 ^ 36) }
    ensures value { result ≡ shifted (dot_of (widened normal) (difference_of (widened c) (widened at))) 30 }
    ensures size { AtMost result (2 ^ 39) }
{
    sh(dot(normal, place_difference(c, at)), 30)
}

/// How a sphere touches a plane, from the plane's unit normal, the sphere's center and its radius.
#[tactic(auto, unfolding(dem_model::specs::Touch::plane_touch, dem_model::specs::Touch::gap_of))]
pub fn plane_touch(at: Vec3, dir: Vec3, n: Vec3, c: Vec3, r: u32) -> Option<Touch>
    requires normal { n ≡ unit_of dir }
    requires normal_small { Within (widened n) (2 ^ 30) }
    requires point_small { Within (widened at) (2 ^ 36) }
    requires center_small { Within (widened c) (2 ^ 36) }
    ensures value { result ≡ plane_touch at dir c r }
    ensures size { IfSome result IsTouch }
{
    let _normal_of = dir;
    let gap = gap(at, n, c);
    if is_closer(gap, r as u64) {
        Some(Touch {
            n,
            delta: overlap(sub(r as i128, gap)),
        })
    } else {
        None
    }
}

/// Whether a sphere is near a plane, where it may move at most `extra` u per axis.
/// Each component of the normal is at most 1, so that the gap changes by at most three times that.
#[tactic(auto, unfolding(dem_model::specs::Near::plane_near, dem_model::specs::Touch::gap_of))]
pub fn plane_near(at: Vec3, dir: Vec3, n: Vec3, c: Vec3, r: u32, extra: u64) -> bool
    requires normal { n ≡ unit_of dir }
    requires normal_small { Within (widened n) (2 ^ 30) }
    requires point_small { Within (widened at) (2 ^ 36) }
    requires center_small { Within (widened c) (2 ^ 36) }
    requires extra_small { extra ≤ 2 ^ 37 }
    ensures { result ≡ plane_near at dir c r extra }
{
    let _normal_of = dir;
    is_closer(gap(at, n, c), r as u64 + 3 * extra)
}

/// Whether a gap is less than a distance.
fn is_closer(gap: i128, distance: u64) -> bool
    ensures { result ≡ int_lt gap (pos distance) }
{
    gap < distance as i128
}

/// An overlap, no greater than the greatest one.
fn overlap(depth: i128) -> i64
    requires { pos 1 ≤ℤ depth }
    ensures value { result ≡ int_min depth (pos MAX_OVERLAP) }
    ensures range { IsBetween (pos 1) (pos MAX_OVERLAP) result }
{
    narrow(depth.min(MAX_OVERLAP as i128))
}

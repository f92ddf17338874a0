//! Triangles: their sides, their normal, and whether one is a good facet.

ghost use Rattle.std.specs.Prelude.{◌≡◌, true, pos, ◌+◌, ◌*◌, ◌^◌, ◌<◌, ◌≤◌, ◌-ℤ◌, ◌*ℤ◌, nat_le, unsigned_abs};
ghost use Rattle.dem_num.specs.Numbers.{AtMost};
ghost use Rattle.dem_num.specs.Vectors.{widened, Within, turn_product, norm2_of};
ghost use Rattle.dem_model.specs.Facet.{
  way,
  least_of,
  greatest_of,
  are_close,
  corners_close,
  facet_normal,
  facet_good,
};

use dem_num::{Vec3, mul_short, narrow3, norm2, sub, sub_short, sub3, widen};

/// How far apart the corners of a facet may be on an axis: 2^26.
const MAX_SIDE: i128 = 67_108_864;
/// The least square of the length of a facet's normal: 2^40.
const MIN_NORMAL2: u128 = 1_099_511_627_776;

/// Whether a triangle is a good facet: its corners are close, and its area isn't too small.
#[tactic(auto, unfolding(dem_model::specs::Facet::facet_good))]
pub fn facet_good(a: Vec3, b: Vec3, c: Vec3) -> bool
    ensures { result ≡ facet_good a b c }
{
    if corners_close(a, b, c) {
        is_wide(a, b, c)
    } else {
        false
    }
}

/// Whether three corners are close on each axis.
#[tactic(auto, unfolding(dem_model::specs::Facet::corners_close))]
fn corners_close(a: Vec3, b: Vec3, c: Vec3) -> bool
    ensures { result ≡ corners_close a b c }
{
    if !are_close(a.x, b.x, c.x) {
        return false;
    }
    if !are_close(a.y, b.y, c.y) {
        return false;
    }
    are_close(a.z, b.z, c.z)
}

/// Whether three numbers are close.
#[tactic(auto, unfolding(dem_model::specs::Facet::are_close))]
fn are_close(x: i64, y: i64, z: i64) -> bool
    ensures { result ≡ are_close x y z }
{
    sub(greatest(x, y, z) as i128, least(x, y, z) as i128) <= MAX_SIDE
}

/// The least of three numbers.
#[tactic(auto, unfolding(dem_model::specs::Facet::least_of))]
pub fn least(x: i64, y: i64, z: i64) -> i64
    ensures { result ≡ least_of x y z }
{
    x.min(y).min(z)
}

/// The greatest of three numbers.
#[tactic(auto, unfolding(dem_model::specs::Facet::greatest_of))]
pub fn greatest(x: i64, y: i64, z: i64) -> i64
    ensures { result ≡ greatest_of x y z }
{
    x.max(y).max(z)
}

/// Whether the area of a triangle isn't too small.
fn is_wide(a: Vec3, b: Vec3, c: Vec3) -> bool
    requires close { corners_close a b c ≡ true }
    ensures { result ≡ nat_le (2 ^ 40) (norm2_of (facet_normal a b c)) }
{
    MIN_NORMAL2 <= norm2(widen(normal(a, b, c)))
}

/// The normal of a triangle, twice as long as its area is large.
#[tactic(auto, using(crate::proofs::CloseFacts::ab_close, crate::proofs::CloseFacts::ac_close))]
pub fn normal(a: Vec3, b: Vec3, c: Vec3) -> Vec3
    requires close { corners_close a b c ≡ true }
    ensures value { widened result ≡ facet_normal a b c }
    ensures size { Within (widened result) (2 ^ 53) }
{
    let ab = short_side(a, b);
    let ac = short_side(a, c);
    Vec3 {
        x: turned(ab.y, ac.z, ab.z, ac.y),
        y: turned(ab.z, ac.x, ab.x, ac.z),
        z: turned(ab.x, ac.y, ab.y, ac.x),
    }
}

/// One component of the normal: the difference of two products.
#[tactic(auto, unfolding(dem_num::specs::Vectors::turn_product))]
fn turned(a: i64, b: i64, c: i64, d: i64) -> i64
    requires a_small { AtMost a (2 ^ 26) }
    requires b_small { AtMost b (2 ^ 26) }
    requires c_small { AtMost c (2 ^ 26) }
    requires d_small { AtMost d (2 ^ 26) }
    ensures value { result ≡ turn_product a b c d }
    ensures size { AtMost result (2 ^ 53) }
{
    sub_short(product(a, b), product(c, d))
}

/// The product of two components of sides.
fn product(a: i64, b: i64) -> i64
    requires first { AtMost a (2 ^ 26) }
    requires second { AtMost b (2 ^ 26) }
    ensures value { result ≡ a *ℤ b }
    ensures size { AtMost result (2 ^ 52) }
{
    mul_short(a, b)
}

/// The way from one corner of a facet to another.
pub fn short_side(from: Vec3, to: Vec3) -> Vec3
    requires close { Within (way from to) (2 ^ 26) }
    ensures value { widened result ≡ way from to }
    ensures size { Within (widened result) (2 ^ 26) }
{
    narrow3(sub3(widen(to), widen(from)))
}

/// The way from a corner of a facet to a place that is by it.
pub fn side(from: Vec3, to: Vec3) -> Vec3
    requires close { Within (way from to) (2 ^ 27) }
    ensures value { widened result ≡ way from to }
    ensures size { Within (widened result) (2 ^ 27) }
{
    narrow3(sub3(widen(to), widen(from)))
}

//! When a sphere touches a facet: within its box, by the face, or by the nearest point on a corner or a side.

ghost use Rattle.std.specs.Prelude.{◌≡◌, true, pos, ◌+◌, ◌*◌, ◌^◌, ◌<◌, ◌≤◌, ◌-ℤ◌, ◌*ℤ◌, ◌≤ℤ◌, IfSome, unsigned_abs};
ghost use Rattle.dem_num.specs.Numbers.{AtMost, quotient, root_of, shifted};
ghost use Rattle.dem_num.specs.Vectors.{widened, narrowed, scaled, quotients, Within, dot_of, norm2_of, difference_of};
ghost use Rattle.dem_model.specs.Sound.{IsBetween};
ghost use Rattle.dem_model.specs.Ranges.{IsTouch};
ghost use Rattle.dem_model.specs.Facet.{
  way,
  facet_good,
  facet_unit,
  facet_reaches,
  facing,
  face_touch,
  away_from,
  point_touch,
  nearest_of,
  part_touch,
  facet_touch,
};
ghost use Rattle.dem_facet.specs.Beside.{IsBeside, IsPoint};

use crate::nearest::nearest_point;
use crate::reach::reaches;
use crate::sides::side;
use crate::unit::facet_unit;
use dem_model::{MAX_OVERLAP, Touch, UNIT};
use dem_num::{
    Vec3, Wide3, dot, mul, narrow, narrow3, negated3, norm2, root, sh, sub_short, sub3, tdiv, widen,
};

/// How a sphere with center `s` and radius `r`, in u, touches a facet; None where it doesn't.
#[tactic(auto, unfolding(dem_model::specs::Facet::facet_touch), using(crate::proofs::CloseFacts::reach_close))]
pub fn facet_touch(a: Vec3, b: Vec3, c: Vec3, s: Vec3, r: u32) -> Option<Touch>
    requires good { facet_good a b c ≡ true }
    requires a_small { Within (widened a) (2 ^ 36) }
    requires b_small { Within (widened b) (2 ^ 36) }
    requires c_small { Within (widened c) (2 ^ 36) }
    requires center_small { Within (widened s) (2 ^ 36) }
    requires radius_small { r ≤ 2 ^ 26 }
    ensures value { result ≡ facet_touch a b c s r }
    ensures size { IfSome result IsTouch }
{
    if reaches(a, b, c, s, r as u64) {
        touch_in_reach(a, b, c, s, r)
    } else {
        None
    }
}

/// How a sphere touches a facet in whose box it is.
fn touch_in_reach(a: Vec3, b: Vec3, c: Vec3, s: Vec3, r: u32) -> Option<Touch>
    requires good { facet_good a b c ≡ true }
    requires a_small { Within (widened a) (2 ^ 36) }
    requires b_small { Within (widened b) (2 ^ 36) }
    requires c_small { Within (widened c) (2 ^ 36) }
    requires center_small { Within (widened s) (2 ^ 36) }
    requires radius_small { r ≤ 2 ^ 26 }
    requires beside { IsBeside a b c s }
    ensures value { result ≡ part_touch (facet_unit a b c) a s r (nearest_of a b c s) }
    ensures size { IfSome result IsTouch }
{
    match nearest_point(a, b, c, s) {
        Some(p) => point_touch(a, b, c, offset(s, p), r),
        None => face_touch(facet_unit(a, b, c), side(a, s), r),
    }
}

/// The way from a point of a facet to a sphere's center.
fn offset(s: Vec3, p: Wide3) -> Wide3
    requires center_small { Within (widened s) (2 ^ 36) }
    requires point_small { IsPoint p }
    ensures value { result ≡ difference_of (widened s) p }
    ensures size { Within result (2 ^ 38) }
{
    sub3(widen(s), p)
}

/// How a sphere touches the face, from the unit normal and the way from a corner to its center.
#[tactic(auto, unfolding(dem_model::specs::Facet::face_touch))]
fn face_touch(u: Vec3, d: Vec3, r: u32) -> Option<Touch>
    requires normal_small { Within (widened u) (2 ^ 30) }
    requires close { Within (widened d) (2 ^ 27) }
    requires radius_small { r ≤ 2 ^ 26 }
    ensures value { result ≡ face_touch u (widened d) r }
    ensures size { IfSome result IsTouch }
{
    let gap = gap(u, d);
    if gap.unsigned_abs() < r as u64 {
        Some(Touch {
            n: facing(u, gap),
            delta: overlap(r, gap.unsigned_abs()),
        })
    } else {
        None
    }
}

/// How far a center is in front of a face, in u.
fn gap(u: Vec3, d: Vec3) -> i64
    requires normal_small { Within (widened u) (2 ^ 30) }
    requires close { Within (widened d) (2 ^ 27) }
    ensures value { result ≡ shifted (dot_of (widened u) (widened d)) 30 }
    ensures size { AtMost result (2 ^ 29) }
{
    narrow(sh(dot(u, widen(d)), 30))
}

/// The unit normal on the side on which the sphere is.
#[tactic(auto, unfolding(dem_model::specs::Facet::facing))]
fn facing(u: Vec3, gap: i64) -> Vec3
    requires normal_small { Within (widened u) (2 ^ 30) }
    ensures value { result ≡ facing u gap }
    ensures size { Within (widened result) (2 ^ 30) }
{
    if 0 <= gap {
        u
    } else {
        narrow3(negated3(widen(u)))
    }
}

/// How a sphere touches a corner or a side, from the way from the nearest point to its center.
#[tactic(auto, unfolding(dem_model::specs::Facet::point_touch), using(crate::proofs::PointFacts::root_below))]
fn point_touch(a: Vec3, b: Vec3, c: Vec3, d: Wide3, r: u32) -> Option<Touch>
    requires good { facet_good a b c ≡ true }
    requires way_small { Within d (2 ^ 38) }
    requires radius_small { r ≤ 2 ^ 26 }
    ensures value { result ≡ point_touch (facet_unit a b c) d r }
    ensures size { IfSome result IsTouch }
{
    let distance2 = norm2(d);
    if distance2 < r as u128 * r as u128 {
        let distance = root(distance2);
        Some(Touch {
            n: away_from(a, b, c, d, distance),
            delta: overlap(r, distance),
        })
    } else {
        None
    }
}

/// The direction away from a point; the unit normal where the center is the point.
#[tactic(auto, unfolding(dem_model::specs::Facet::away_from))]
fn away_from(a: Vec3, b: Vec3, c: Vec3, d: Wide3, distance: u64) -> Vec3
    requires good { facet_good a b c ≡ true }
    requires length { distance ≡ root_of (norm2_of d) }
    requires close { distance ≤ 2 ^ 26 }
    ensures value { result ≡ away_from (facet_unit a b c) d distance }
    ensures size { Within (widened result) (2 ^ 30) }
{
    if distance == 0 {
        facet_unit(a, b, c)
    } else {
        direction(d, distance)
    }
}

/// The direction of a way, times 2^30.
#[tactic(auto, using(crate::proofs::PointFacts::part_x, crate::proofs::PointFacts::part_y, crate::proofs::PointFacts::part_z))]
fn direction(d: Wide3, distance: u64) -> Vec3
    requires length { distance ≡ root_of (norm2_of d) }
    requires some { 0 < distance }
    requires close { distance ≤ 2 ^ 26 }
    ensures value { result ≡ narrowed (quotients (scaled (pos UNIT) d) (pos distance)) }
    ensures size { Within (widened result) (2 ^ 30) }
{
    Vec3 {
        x: direction_part(d.x, distance),
        y: direction_part(d.y, distance),
        z: direction_part(d.z, distance),
    }
}

/// A component of a direction.
fn direction_part(x: i128, distance: u64) -> i64
    requires some { 0 < distance }
    requires part { unsigned_abs x ≤ distance }
    requires close { distance ≤ 2 ^ 26 }
    ensures value { result ≡ quotient (pos UNIT *ℤ x) (pos distance) }
    ensures size { AtMost result (2 ^ 30) }
{
    narrow(wide_part(x, distance))
}

/// A component of a direction, at 128 bits.
fn wide_part(x: i128, distance: u64) -> i128
    requires some { 0 < distance }
    requires part { unsigned_abs x ≤ distance }
    requires close { distance ≤ 2 ^ 26 }
    ensures value { result ≡ quotient (pos UNIT *ℤ x) (pos distance) }
    ensures size { AtMost result (2 ^ 30) }
{
    tdiv(mul(UNIT as i128, x), distance as i128)
}

/// How deep a sphere is in a facet, from its distance.
fn overlap(r: u32, distance: u64) -> i64
    requires less { distance < r }
    requires radius_small { r ≤ 2 ^ 26 }
    ensures value { result ≡ pos r -ℤ pos distance }
    ensures range { IsBetween (pos 1) (pos MAX_OVERLAP) result }
{
    sub_short(r as i64, distance as i64)
}

//! Cylinders along an axis, with the sphere inside: the distance from the axis, and whether it touches or is near.

ghost use Rattle.std.specs.Prelude.{◌≡◌, pos, ◌+◌, ◌*◌, ◌^◌, ◌<◌, ◌≤◌, ◌+ℤ◌, ◌-ℤ◌, ◌*ℤ◌, ◌≤ℤ◌, IfSome, unsigned_abs};
ghost use Rattle.std.specs.Int.{int_min, int_max};
ghost use Rattle.dem_num.specs.Numbers.{AtMost, opposite, root_of};
ghost use Rattle.dem_num.specs.Vectors.{widened, Within, difference_of};
ghost use Rattle.dem_model.specs.Sound.{IsBetween};
ghost use Rattle.dem_model.specs.Touch.{
  first_across,
  second_across,
  across,
  distance2_of,
  inward,
  cylinder_touch,
};
ghost use Rattle.dem_model.specs.Near.{cylinder_near};
ghost use Rattle.dem_model.specs.Ranges.{IsTouch};
ghost use Rattle.dem_wall.specs.Inside.{axis_distance_of, inward_normal};

use dem_model::{Axis, MAX_OVERLAP, Touch, UNIT};
use dem_num::{Vec3, Wide3, add, mul, narrow, negated, place_difference, root, sub, tdiv};

/// How a sphere inside a cylinder touches it, from its center and its radius.
#[tactic(auto, unfolding(dem_model::specs::Touch::cylinder_touch))]
pub fn cylinder_touch(axis: Axis, at: Vec3, radius: u64, c: Vec3, r: u32) -> Option<Touch>
    requires room { r < radius }
    requires radius_small { radius ≤ 2 ^ 35 }
    requires point_small { Within (widened at) (2 ^ 36) }
    requires center_small { Within (widened c) (2 ^ 36) }
    ensures value { result ≡ cylinder_touch axis at radius c r }
    ensures size { IfSome result IsTouch }
{
    let offset = place_difference(c, at);
    let free = radius as u128 - r as u128;
    if free * free < square_distance(axis, offset) {
        Some(inside_touch(axis, offset, radius, r))
    } else {
        None
    }
}

/// Whether a sphere inside a cylinder is near it, where it may move at most `extra` u per axis.
#[tactic(auto, unfolding(dem_model::specs::Near::cylinder_near))]
pub fn cylinder_near(axis: Axis, at: Vec3, radius: u64, c: Vec3, r: u32, extra: u64) -> bool
    requires room { r < radius }
    requires radius_small { radius ≤ 2 ^ 35 }
    requires point_small { Within (widened at) (2 ^ 36) }
    requires center_small { Within (widened c) (2 ^ 36) }
    requires extra_small { extra ≤ 2 ^ 37 }
    ensures { result ≡ cylinder_near axis at radius c r extra }
{
    let offset = place_difference(c, at);
    let free = radius as u128 - r as u128;
    let e = moved_out(first_part(axis, offset), extra);
    let f = moved_out(second_part(axis, offset), extra);
    free * free < e * e + f * f
}

/// The size of a component, moved outward.
fn moved_out(component: i128, extra: u64) -> u128
    requires component_small { AtMost component (2 ^ 37) }
    requires extra_small { extra ≤ 2 ^ 37 }
    ensures value { result ≡ unsigned_abs component + extra }
    ensures size { result ≤ 2 ^ 38 }
{
    component.unsigned_abs() + extra as u128
}

/// How a sphere touches a cylinder, from its offset from the cylinder's point, where it does.
fn inside_touch(axis: Axis, offset: Wide3, radius: u64, r: u32) -> Touch
    requires close { Within offset (2 ^ 37) }
    requires radius_small { radius ≤ 2 ^ 35 }
    requires apart { 0 < distance2_of (first_across axis offset) (second_across axis offset) }
    ensures normal { result.n ≡ inward_normal axis offset }
    ensures overlap { result.delta ≡ int_min (int_max (pos 1) (pos (axis_distance_of axis offset) +ℤ pos r -ℤ pos radius)) (pos MAX_OVERLAP) }
    ensures size { IsTouch result }
{
    let distance = axis_distance(axis, offset);
    Touch {
        n: placed_across(
            axis,
            inward_part(first_part(axis, offset), distance),
            inward_part(second_part(axis, offset), distance),
        ),
        delta: inside_overlap(distance, r, radius),
    }
}

/// The distance from a cylinder's axis, rounded down.
fn axis_distance(axis: Axis, offset: Wide3) -> u64
    requires close { Within offset (2 ^ 37) }
    requires apart { 0 < distance2_of (first_across axis offset) (second_across axis offset) }
    ensures value { result ≡ axis_distance_of axis offset }
    ensures positive { 0 < result }
    ensures size { result ≤ 2 ^ 38 }
    ensures first { unsigned_abs (first_across axis offset) ≤ result }
    ensures second { unsigned_abs (second_across axis offset) ≤ result }
{
    root(square_distance(axis, offset))
}

/// The first of the two components across an axis.
fn first_part(axis: Axis, offset: Wide3) -> i128
    requires { Within offset (2 ^ 37) }
    ensures value { result ≡ first_across axis offset }
    ensures size { AtMost result (2 ^ 37) }
{
    match axis {
        Axis::X => offset.y,
        Axis::Y | Axis::Z => offset.x,
    }
}

/// The second of the two components across an axis.
fn second_part(axis: Axis, offset: Wide3) -> i128
    requires { Within offset (2 ^ 37) }
    ensures value { result ≡ second_across axis offset }
    ensures size { AtMost result (2 ^ 37) }
{
    match axis {
        Axis::X | Axis::Y => offset.z,
        Axis::Z => offset.y,
    }
}

/// The vector with these components across an axis, and none along it.
fn placed_across(axis: Axis, e: i64, f: i64) -> Vec3
    requires first { AtMost e (2 ^ 30) }
    requires second { AtMost f (2 ^ 30) }
    ensures value { result ≡ across axis e f }
    ensures size { Within (widened result) (2 ^ 30) }
{
    match axis {
        Axis::X => Vec3 { x: 0, y: e, z: f },
        Axis::Y => Vec3 { x: e, y: 0, z: f },
        Axis::Z => Vec3 { x: e, y: f, z: 0 },
    }
}

/// The square of the distance from a cylinder's axis.
fn square_distance(axis: Axis, offset: Wide3) -> u128
    requires { Within offset (2 ^ 37) }
    ensures value { result ≡ distance2_of (first_across axis offset) (second_across axis offset) }
    ensures size { result ≤ 2 ^ 75 }
{
    squares(first_part(axis, offset), second_part(axis, offset))
}

/// The sum of two squares.
#[tactic(auto, unfolding(dem_model::specs::Touch::distance2_of))]
fn squares(e: i128, f: i128) -> u128
    requires first { AtMost e (2 ^ 37) }
    requires second { AtMost f (2 ^ 37) }
    ensures value { result ≡ distance2_of e f }
    ensures size { result ≤ 2 ^ 75 }
{
    let e = e.unsigned_abs();
    let f = f.unsigned_abs();
    e * e + f * f
}

/// A component of the normal, which points to the axis.
fn inward_part(e: i128, distance: u64) -> i64
    requires some { 0 < distance }
    requires part { unsigned_abs e ≤ distance }
    requires close { distance ≤ 2 ^ 38 }
    ensures value { result ≡ inward e distance }
    ensures size { AtMost result (2 ^ 30) }
{
    narrow(wide_inward(e, distance))
}

/// A component of the normal, at 128 bits.
#[tactic(auto, unfolding(dem_model::specs::Touch::inward))]
fn wide_inward(e: i128, distance: u64) -> i128
    requires some { 0 < distance }
    requires part { unsigned_abs e ≤ distance }
    requires close { distance ≤ 2 ^ 38 }
    ensures value { result ≡ inward e distance }
    ensures size { AtMost result (2 ^ 30) }
{
    tdiv(toward_axis(e), distance as i128)
}

/// A component of the way to the axis, times 2^30.
fn toward_axis(e: i128) -> i128
    requires { AtMost e (2 ^ 38) }
    ensures value { result ≡ opposite (pos UNIT *ℤ e) }
    ensures size { unsigned_abs result ≡ 2 ^ 30 * unsigned_abs e }
{
    negated(mul(UNIT as i128, e))
}

/// The overlap of a sphere inside a cylinder, at least 1.
fn inside_overlap(distance: u64, r: u32, radius: u64) -> i64
    requires distance_small { distance ≤ 2 ^ 38 }
    requires radius_small { radius ≤ 2 ^ 35 }
    ensures value { result ≡ int_min (int_max (pos 1) (pos distance +ℤ pos r -ℤ pos radius)) (pos MAX_OVERLAP) }
    ensures range { IsBetween (pos 1) (pos MAX_OVERLAP) result }
{
    some_overlap(sub(add(distance as i128, r as i128), radius as i128))
}

/// The number brought between 1 and the greatest overlap.
fn some_overlap(depth: i128) -> i64
    ensures value { result ≡ int_min (int_max (pos 1) depth) (pos MAX_OVERLAP) }
    ensures range { IsBetween (pos 1) (pos MAX_OVERLAP) result }
{
    1.max(depth).min(MAX_OVERLAP as i128) as i64
}

//! How the two sides of a contact move against each other: branches, surface velocities, parts along and across the normal.

ghost use Rattle.std.specs.Prelude.{◌≡◌, pos, ◌^◌, ◌≤◌, ◌*ℤ◌, unsigned_abs};
ghost use Rattle.dem_num.specs.Numbers.{AtMost, shifted};
ghost use Rattle.dem_num.specs.Vectors.{widened, Within, difference_of, shifted_each, cross_of, turn_product};
ghost use Rattle.dem_model.specs.Law.{
  contact_radius_of,
  depth_of,
  along,
  branch_a_of,
  branch_b_of,
  surface_velocity_of,
  relative_velocity_of,
  along_normal,
  across_normal,
};
ghost use Rattle.dem_model.specs.Ranges.{IsBounded};

use dem_model::Side;
use dem_num::{
    Vec3, ZERO, add3_short, dot, mul, mul_short, narrow, root, sh, sh_short, sub_short, sub3_short,
    widen,
};
use dem_turn::is_zero;

/// The radius of the contact's circle, in u, from the effective radius and the overlap.
#[tactic(auto, unfolding(dem_model::specs::Law::contact_radius_of))]
pub fn contact_radius(radius: u64, delta: u64) -> u64
    requires radius_small { radius ≤ 2 ^ 26 }
    requires delta_small { delta ≤ 2 ^ 27 }
    ensures value { result ≡ contact_radius_of radius delta }
    ensures size { result ≤ 2 ^ 27 }
{
    root(radius as u128 * delta as u128)
}

/// The length from a sphere's center to the contact, in u.
#[tactic(auto, unfolding(dem_model::specs::Law::depth_of))]
pub fn depth(r: u32, delta: u64) -> u64
    ensures value { result ≡ depth_of r delta }
    ensures size { result ≤ r }
{
    (r as u64).saturating_sub(delta / 2)
}

/// A component of a vector along the normal.
fn component_along(length: i64, n: i64) -> i64
    requires length_small { AtMost length (2 ^ 62) }
    requires normal { AtMost n (2 ^ 30) }
    ensures value { result ≡ shifted (length *ℤ n) 30 }
    ensures size { AtMost result (unsigned_abs length) }
{
    narrow(wide_component(length, n))
}

/// A component of a vector along the normal, not yet at 64 bits.
fn wide_component(length: i64, n: i64) -> i128
    requires length_small { AtMost length (2 ^ 62) }
    requires normal { AtMost n (2 ^ 30) }
    ensures value { result ≡ shifted (length *ℤ n) 30 }
    ensures size { AtMost result (unsigned_abs length) }
{
    sh(mul(length as i128, n as i128), 30)
}

/// A vector along the normal, of the given length.
pub fn vector_along(length: i64, n: Vec3) -> Vec3
    requires length_small { AtMost length (2 ^ 62) }
    requires normal { Within (widened n) (2 ^ 30) }
    ensures value { widened result ≡ along length n }
    ensures size { Within (widened result) (unsigned_abs length) }
{
    Vec3 {
        x: component_along(length, n.x),
        y: component_along(length, n.y),
        z: component_along(length, n.z),
    }
}

/// A component of a length along the normal, in u.
fn offset_component(length: u64, n: i64) -> i64
    requires length_small { length ≤ 2 ^ 26 }
    requires normal { AtMost n (2 ^ 30) }
    ensures value { result ≡ shifted (pos length *ℤ n) 30 }
    ensures size { AtMost result (2 ^ 26) }
{
    sh_short(mul_short(length as i64, n), 30)
}

/// A vector along the normal, of a length in u.
fn offset_along(length: u64, n: Vec3) -> Vec3
    requires length_small { length ≤ 2 ^ 26 }
    requires normal { Within (widened n) (2 ^ 30) }
    ensures value { widened result ≡ along (pos length) n }
    ensures size { Within (widened result) (2 ^ 26) }
{
    Vec3 {
        x: offset_component(length, n.x),
        y: offset_component(length, n.y),
        z: offset_component(length, n.z),
    }
}

/// From the first clump's position to the contact.
#[tactic(auto, unfolding(dem_model::specs::Law::branch_a_of))]
pub fn branch_a(a: &Side, n: Vec3, delta: u64) -> Vec3
    requires side { IsBounded a.now }
    requires normal { Within (widened n) (2 ^ 30) }
    ensures value { widened result ≡ branch_a_of a.now n delta }
    ensures size { Within (widened result) (2 ^ 29) }
{
    sub3_short(a.lever, offset_along(depth(a.r, delta), n))
}

/// From the second clump's position to the contact.
#[tactic(auto, unfolding(dem_model::specs::Law::branch_b_of))]
pub fn branch_b(b: &Side, n: Vec3, delta: u64) -> Vec3
    requires side { IsBounded b.now }
    requires normal { Within (widened n) (2 ^ 30) }
    ensures value { widened result ≡ branch_b_of b.now n delta }
    ensures size { Within (widened result) (2 ^ 29) }
{
    add3_short(b.lever, offset_along(depth(b.r, delta), n))
}

/// The velocity that a spin gives to the end of a branch: none without a spin.
fn swept(spin: Vec3, branch: Vec3) -> Vec3
    requires spin_small { Within (widened spin) (2 ^ 30) }
    requires branch_small { Within (widened branch) (2 ^ 29) }
    ensures value { widened result ≡ shifted_each (cross_of (widened spin) (widened branch)) 14 }
    ensures size { Within (widened result) (2 ^ 46) }
{
    if is_zero(spin) {
        ZERO
    } else {
        swept_by(spin, branch)
    }
}

/// The velocity that a spin gives to the end of a branch, component by component.
fn swept_by(spin: Vec3, branch: Vec3) -> Vec3
    requires spin_small { Within (widened spin) (2 ^ 30) }
    requires branch_small { Within (widened branch) (2 ^ 29) }
    ensures value { widened result ≡ shifted_each (cross_of (widened spin) (widened branch)) 14 }
    ensures size { Within (widened result) (2 ^ 46) }
{
    Vec3 {
        x: swept_part(spin.y, branch.z, spin.z, branch.y),
        y: swept_part(spin.z, branch.x, spin.x, branch.z),
        z: swept_part(spin.x, branch.y, spin.y, branch.x),
    }
}

/// A component of the velocity that a spin gives to the end of a branch.
fn swept_part(u: i64, x: i64, v: i64, y: i64) -> i64
    requires u_small { AtMost u (2 ^ 30) }
    requires x_small { AtMost x (2 ^ 29) }
    requires v_small { AtMost v (2 ^ 30) }
    requires y_small { AtMost y (2 ^ 29) }
    ensures value { result ≡ shifted (turn_product u x v y) 14 }
    ensures size { AtMost result (2 ^ 46) }
{
    sh_short(crossed(u, x, v, y), 14)
}

/// The product of a spin's and a branch's component, less that of two others.
#[tactic(auto, unfolding(dem_num::specs::Vectors::turn_product))]
fn crossed(u: i64, x: i64, v: i64, y: i64) -> i64
    requires u_small { AtMost u (2 ^ 30) }
    requires x_small { AtMost x (2 ^ 29) }
    requires v_small { AtMost v (2 ^ 30) }
    requires y_small { AtMost y (2 ^ 29) }
    ensures value { result ≡ turn_product u x v y }
    ensures size { AtMost result (2 ^ 60) }
{
    sub_short(speed_of(u, x), speed_of(v, y))
}

/// The product of a component of a spin and one of a branch.
fn speed_of(u: i64, x: i64) -> i64
    requires u_small { AtMost u (2 ^ 30) }
    requires x_small { AtMost x (2 ^ 29) }
    ensures value { result ≡ u *ℤ x }
    ensures size { AtMost result (2 ^ 59) }
{
    mul_short(u, x)
}

/// The velocity of a side at the contact, in u per step times 2^16.
#[tactic(auto, unfolding(dem_model::specs::Law::surface_velocity_of))]
pub fn surface_velocity(side: &Side, branch: Vec3) -> Vec3
    requires side { IsBounded side.now }
    requires branch_small { Within (widened branch) (2 ^ 29) }
    ensures value { widened result ≡ surface_velocity_of side.now (widened branch) }
    ensures size { Within (widened result) (2 ^ 47) }
{
    add3_short(side.v, swept(side.spin, branch))
}

/// The velocity of the first side against the second, at the contact.
#[tactic(auto, unfolding(dem_model::specs::Law::relative_velocity_of))]
pub fn relative_velocity(a: &Side, b: &Side, n: Vec3, delta: u64) -> Vec3
    requires first { IsBounded a.now }
    requires second { IsBounded b.now }
    requires normal { Within (widened n) (2 ^ 30) }
    ensures value { widened result ≡ relative_velocity_of a.now b.now n delta }
    ensures size { Within (widened result) (2 ^ 48) }
{
    sub3_short(
        surface_velocity(a, branch_a(a, n, delta)),
        surface_velocity(b, branch_b(b, n, delta)),
    )
}

/// The part of a vector along the normal, positive where it points along it.
pub fn part_along(n: Vec3, u: Vec3) -> i64
    requires normal { Within (widened n) (2 ^ 30) }
    requires small { Within (widened u) (2 ^ 48) }
    ensures value { result ≡ along_normal n (widened u) }
    ensures size { AtMost result (2 ^ 50) }
{
    narrow(wide_part(n, u))
}

/// The part of a vector along the normal, not yet at 64 bits.
#[tactic(auto, unfolding(dem_model::specs::Law::along_normal))]
fn wide_part(n: Vec3, u: Vec3) -> i128
    requires normal { Within (widened n) (2 ^ 30) }
    requires small { Within (widened u) (2 ^ 48) }
    ensures value { result ≡ along_normal n (widened u) }
    ensures size { AtMost result (2 ^ 50) }
{
    sh(dot(n, widen(u)), 30)
}

/// The vector less its part along the normal: none where it is none.
pub fn part_across(n: Vec3, u: Vec3) -> Vec3
    requires normal { Within (widened n) (2 ^ 30) }
    requires small { Within (widened u) (2 ^ 48) }
    ensures value { widened result ≡ across_normal n (widened u) }
    ensures size { Within (widened result) (2 ^ 51) }
{
    if is_zero(u) {
        ZERO
    } else {
        without_normal_part(n, u)
    }
}

/// The vector less its part along the normal, which is computed.
#[tactic(auto, unfolding(dem_model::specs::Law::across_normal))]
fn without_normal_part(n: Vec3, u: Vec3) -> Vec3
    requires normal { Within (widened n) (2 ^ 30) }
    requires small { Within (widened u) (2 ^ 48) }
    ensures value { widened result ≡ across_normal n (widened u) }
    ensures size { Within (widened result) (2 ^ 51) }
{
    without(n, part_along(n, u), u)
}

/// The vector less one along the normal, of the given length.
fn without(n: Vec3, length: i64, u: Vec3) -> Vec3
    requires normal { Within (widened n) (2 ^ 30) }
    requires length_small { AtMost length (2 ^ 50) }
    requires small { Within (widened u) (2 ^ 48) }
    ensures value { widened result ≡ difference_of (widened u) (along length n) }
    ensures size { Within (widened result) (2 ^ 51) }
{
    sub3_short(u, vector_along(length, n))
}

/// How the first side moves against the second: the speed along the normal, positive when parting, and the slip across it.
#[derive(Clone, Copy, PartialEq, Debug)]
pub struct Motion {
    pub speed: i64,
    pub slip: Vec3,
}

/// How the first side moves against the second at the contact.
#[tactic(auto, unfolding(dem_model::specs::Law::across_normal))]
pub fn motion_between(a: &Side, b: &Side, n: Vec3, delta: u64) -> Motion
    requires first { IsBounded a.now }
    requires second { IsBounded b.now }
    requires normal { Within (widened n) (2 ^ 30) }
    ensures speed { result.speed ≡ along_normal n (relative_velocity_of a.now b.now n delta) }
    ensures slip { widened result.slip ≡ across_normal n (relative_velocity_of a.now b.now n delta) }
    ensures speed_size { AtMost result.speed (2 ^ 50) }
    ensures slip_size { Within (widened result.slip) (2 ^ 51) }
{
    let u = relative_velocity(a, b, n, delta);
    let speed = part_along(n, u);
    Motion {
        speed,
        slip: without(n, speed, u),
    }
}

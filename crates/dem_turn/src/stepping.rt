//! One step of spin: where the quaternion points after it, brought back to length one.

ghost use Rattle.std.specs.Prelude.{◌≡◌, ℕ, pos, ◌+◌, ◌*◌, ◌^◌, ◌<◌, ◌≤◌, ◌+ℤ◌, ◌-ℤ◌, ◌*ℤ◌, true, unsigned_abs};
ghost use Rattle.dem_num.specs.declared.vector.Wide3.{Wide3};
ghost use Rattle.dem_num.specs.Numbers.{AtMost, IsRoot, root_of, quotient, opposite};
ghost use Rattle.dem_num.specs.Vectors.{widened, is_zero, difference_of, Within};
ghost use Rattle.dem_num.specs.Rotations.{
  quat_norm2_of,
  QuatWithin,
  IsOrientation,
  spun_a,
  spun_b,
  spun_c,
  spun_d,
  stepped_of,
  unit_quat_of,
  turn_step_of,
  turned_of,
  arm_of,
  swing_limit_of,
};

use crate::still::is_zero;
use dem_num::{Quat, Vec3, add, mul, narrow, negated, quat_norm2, reciprocal, root, sub};

/// The quaternion after one step with a spin in body axes, in radians times 2^30. A spin of zero keeps it.
#[tactic(auto, unfolding(dem_num::specs::Rotations::turn_step_of))]
pub fn turn_step(q: Quat, w: Vec3) -> Quat
    requires orientation { IsOrientation q }
    requires spin { Within (widened w) (2 ^ 28) }
    ensures value { result ≡ turn_step_of q (widened w) }
    ensures without_spin { is_zero (widened w) ≡ true → result ≡ q }
    ensures orientation { IsOrientation result }
    ensures swing { (o : Wide3) (spin : ℕ) → Within (widened w) spin → Within (difference_of (turned_of result o) (turned_of q o)) (swing_limit_of spin (arm_of o)) }
{
    if is_zero(w) { q } else { unit(stepped(q, w)) }
}

/// Where the quaternion points after the step, at another length.
#[tactic(auto, unfolding(dem_num::specs::Rotations::stepped_of, dem_num::specs::Rotations::spun_a, dem_num::specs::Rotations::spun_b, dem_num::specs::Rotations::spun_c, dem_num::specs::Rotations::spun_d))]
fn stepped(q: Quat, w: Vec3) -> Quat
    requires length { 2 ^ 58 ≤ quat_norm2_of q }
    requires components { QuatWithin q (2 ^ 31) }
    requires spin { Within (widened w) (2 ^ 28) }
    ensures value { result ≡ stepped_of q (widened w) }
    ensures some { 0 < quat_norm2_of result }
    ensures fits { quat_norm2_of result < 2 ^ 127 }
{
    Quat {
        a: moved(q.a, real_part(q.b, w.x, q.c, w.y, q.d, w.z)),
        b: moved(q.b, axis_part(q.a, w.x, q.c, w.z, q.d, w.y)),
        c: moved(q.c, axis_part(q.a, w.y, q.d, w.x, q.b, w.z)),
        d: moved(q.d, axis_part(q.a, w.z, q.b, w.y, q.c, w.x)),
    }
}

/// A component moved by its part of the product: it cannot be moved by as much as it is long.
fn moved(own: i64, part: i128) -> i64
    requires component { AtMost own (2 ^ 31) }
    requires part { AtMost part (3 * 2 ^ 59) }
    ensures value { result ≡ pos (2 ^ 31) *ℤ own +ℤ part }
    ensures at_least { 2 ^ 31 * unsigned_abs own ≤ unsigned_abs result + unsigned_abs part }
    ensures at_most { AtMost result (11 * 2 ^ 59) }
{
    narrow(add(mul(1 << 31, own as i128), part))
}

/// The real part of the product of a quaternion and a spin.
fn real_part(u: i64, x: i64, v: i64, y: i64, s: i64, z: i64) -> i128
    requires u_small { AtMost u (2 ^ 31) }
    requires v_small { AtMost v (2 ^ 31) }
    requires s_small { AtMost s (2 ^ 31) }
    requires x_small { AtMost x (2 ^ 28) }
    requires y_small { AtMost y (2 ^ 28) }
    requires z_small { AtMost z (2 ^ 28) }
    ensures value { result ≡ opposite (u *ℤ x) -ℤ v *ℤ y -ℤ s *ℤ z }
    ensures size { AtMost result ((unsigned_abs u + unsigned_abs v + unsigned_abs s) * 2 ^ 28) }
{
    sub(sub(negated(product(u, x)), product(v, y)), product(s, z))
}

/// The part along an axis of the product of a quaternion and a spin.
fn axis_part(u: i64, x: i64, v: i64, y: i64, s: i64, z: i64) -> i128
    requires u_small { AtMost u (2 ^ 31) }
    requires v_small { AtMost v (2 ^ 31) }
    requires s_small { AtMost s (2 ^ 31) }
    requires x_small { AtMost x (2 ^ 28) }
    requires y_small { AtMost y (2 ^ 28) }
    requires z_small { AtMost z (2 ^ 28) }
    ensures value { result ≡ u *ℤ x +ℤ v *ℤ y -ℤ s *ℤ z }
    ensures size { AtMost result ((unsigned_abs u + unsigned_abs v + unsigned_abs s) * 2 ^ 28) }
{
    sub(add(product(u, x), product(v, y)), product(s, z))
}

/// The product of a quaternion's component and a spin's.
fn product(u: i64, x: i64) -> i128
    requires component { AtMost u (2 ^ 31) }
    requires spin { AtMost x (2 ^ 28) }
    ensures value { result ≡ u *ℤ x }
    ensures size { AtMost result (unsigned_abs u * 2 ^ 28) }
{
    mul(u as i128, x as i128)
}

/// The quaternion brought to length one, that is 2^30.
#[tactic(auto, unfolding(dem_num::specs::Rotations::unit_quat_of))]
fn unit(t: Quat) -> Quat
    requires some { 0 < quat_norm2_of t }
    requires fits { quat_norm2_of t < 2 ^ 127 }
    ensures value { result ≡ unit_quat_of t }
    ensures orientation { IsOrientation result }
{
    let length = length(t);
    let inverse = reciprocal(length);
    Quat {
        a: share(t.a, length, inverse),
        b: share(t.b, length, inverse),
        c: share(t.c, length, inverse),
        d: share(t.d, length, inverse),
    }
}

/// The length of a quaternion, rounded down: no component is longer.
fn length(t: Quat) -> u64
    requires some { 0 < quat_norm2_of t }
    requires fits { quat_norm2_of t < 2 ^ 127 }
    ensures value { result ≡ root_of (quat_norm2_of t) }
    ensures is_root { IsRoot (quat_norm2_of t) result }
    ensures some { 0 < result }
    ensures longest { QuatWithin t result }
{
    root(quat_norm2(t))
}

/// A component's share of the length, times 2^30; the reciprocal of the length is about `inverse`.
fn share(component: i64, length: u64, inverse: u64) -> i64
    requires some { 0 < length }
    requires part { AtMost component length }
    ensures value { result ≡ quotient (pos (2 ^ 30) *ℤ component) (pos length) }
    ensures below { unsigned_abs result * length ≤ 2 ^ 30 * unsigned_abs component }
    ensures above { 2 ^ 30 * unsigned_abs component < (unsigned_abs result + 1) * length }
{
    dem_num::share(component as i128, length, inverse)
}

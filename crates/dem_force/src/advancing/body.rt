//! One clump's step: the new velocity and spin, and the body that they lead to.

ghost use Rattle.std.specs.Prelude.{◌≡◌, true, pos, ◌*◌, ◌^◌, ◌≤◌, ◌+ℤ◌, ◌-ℤ◌, ◌*ℤ◌, unsigned_abs};
ghost use Rattle.dem_num.specs.Numbers.{AtMost, quotient, shifted};
ghost use Rattle.dem_num.specs.Vectors.{widened, narrowed, is_zero, clamped_each, Within};
ghost use Rattle.dem_num.specs.Rotations.{IsOrientation, EntriesWithin, matrix_of};
ghost use Rattle.dem_model.specs.Sound.{EachBetween, IsBetween};
ghost use Rattle.dem_model.specs.Advance.{
  velocity_after,
  body_torque_of,
  spin_component,
  spin_after,
  position_after,
  body_with,
};

use dem_model::{Body, MAX_MOMENT, MAX_TORQUE};
use dem_num::{Rows, Vec3, WIDE_ZERO, Wide3, add, cl3, mul, narrow, reciprocal, sh, sub, tdiv_by};
use dem_turn::{is_zero, turn_step, turned_back};

/// The new velocity: the old one, gravity, and force over mass.
#[tactic(auto, unfolding(dem_model::specs::Advance::velocity_after))]
pub fn velocity(gravity: Vec3, mass: u64, v: Vec3, force: Wide3) -> Wide3
    requires gravity_small { Within (widened gravity) (2 ^ 20) }
    requires has_mass { 1 ≤ mass }
    requires old_small { Within (widened v) (2 ^ 40) }
    requires force_small { Within force (2 ^ 84) }
    ensures value { result ≡ velocity_after gravity mass v force }
    ensures size { Within result (2 ^ 85) }
{
    let inverse = reciprocal(mass);
    Wide3 {
        x: faster(v.x, gravity.x, force.x, mass, inverse),
        y: faster(v.y, gravity.y, force.y, mass, inverse),
        z: faster(v.z, gravity.z, force.z, mass, inverse),
    }
}

/// A component of the new velocity; the reciprocal of the mass is about `inverse`.
fn faster(v: i64, gravity: i64, force: i128, mass: u64, inverse: u64) -> i128
    requires gravity_small { AtMost gravity (2 ^ 20) }
    requires has_mass { 1 ≤ mass }
    requires old_small { AtMost v (2 ^ 40) }
    requires force_small { AtMost force (2 ^ 84) }
    ensures value { result ≡ v +ℤ gravity +ℤ quotient force (pos mass) }
    ensures size { AtMost result (2 ^ 85) }
{
    add(
        add(v as i128, gravity as i128),
        acceleration(force, mass, inverse),
    )
}

/// A component of force over mass; the reciprocal of the mass is about `inverse`.
fn acceleration(force: i128, mass: u64, inverse: u64) -> i128
    requires has_mass { 1 ≤ mass }
    requires force_small { AtMost force (2 ^ 84) }
    ensures value { result ≡ quotient force (pos mass) }
    ensures size { AtMost result (2 ^ 84) }
{
    tdiv_by(force, mass, inverse)
}

/// The torque in the axes of a body, of which these are the rows of the matrix.
#[tactic(auto, unfolding(dem_model::specs::Advance::body_torque_of))]
fn body_torque(body: &Body, rows: &Rows, torque: Wide3) -> Wide3
    requires rows { rows.now ≡ matrix_of body.now.q }
    requires entries { EntriesWithin rows.now (2 ^ 30) }
    ensures value { result ≡ body_torque_of body.now torque }
    ensures size { Within result (2 ^ 92) }
{
    let _axes_of = body;
    turned_back(rows, kept_torque(torque))
}

/// A torque, each component brought within the greatest.
fn kept_torque(torque: Wide3) -> Wide3
    ensures value { result ≡ clamped_each torque (pos MAX_TORQUE) }
    ensures size { Within result (2 ^ 90) }
{
    cl3(torque, MAX_TORQUE as i128)
}

/// The new spin in body axes, from the moments of inertia, the body, the rows of its matrix and the torque in world axes:
/// none where there is neither spin nor torque.
pub fn next_spin(moments: Vec3, body: &Body, rows: &Rows, torque: Wide3) -> Wide3
    requires moments_within { EachBetween (pos 1) (pos MAX_MOMENT) moments }
    requires old_small { Within (widened body.now.w) (2 ^ 28) }
    requires rows { rows.now ≡ matrix_of body.now.q }
    requires entries { EntriesWithin rows.now (2 ^ 30) }
    ensures value { result ≡ spin_after moments body.now.w (body_torque_of body.now torque) }
    ensures size { Within result (2 ^ 94) }
{
    if are_zero(body.w, torque) {
        WIDE_ZERO
    } else {
        spin(moments, body.w, body_torque(body, rows, torque))
    }
}

/// Whether a spin and a torque are both zero.
fn are_zero(w: Vec3, torque: Wide3) -> bool
    ensures spin { result ≡ true → is_zero (widened w) ≡ true }
    ensures torque { result ≡ true → is_zero torque ≡ true }
{
    is_zero(w) && is_nothing(torque)
}

/// Whether each component of a torque is zero.
fn is_nothing(a: Wide3) -> bool
    ensures { result ≡ is_zero a }
{
    a.x == 0 && a.y == 0 && a.z == 0
}

/// The new spin in body axes, from the moments of inertia, the old spin and the torque.
#[tactic(auto, unfolding(dem_model::specs::Advance::spin_after))]
fn spin(moments: Vec3, w: Vec3, torque: Wide3) -> Wide3
    requires moments_within { EachBetween (pos 1) (pos MAX_MOMENT) moments }
    requires old_small { Within (widened w) (2 ^ 28) }
    requires torque_small { Within torque (2 ^ 92) }
    ensures value { result ≡ spin_after moments w torque }
    ensures size { Within result (2 ^ 94) }
{
    let x = reciprocal(moments.x as u64);
    let y = next_reciprocal(moments.x, x, moments.y);
    let z = next_reciprocal(moments.y, y, moments.z);
    Wide3 {
        x: spin_part(w.x, torque.x, moments.x, moments.y, moments.z, w.y, w.z, x),
        y: spin_part(w.y, torque.y, moments.y, moments.z, moments.x, w.z, w.x, y),
        z: spin_part(w.z, torque.z, moments.z, moments.x, moments.y, w.x, w.y, z),
    }
}

/// About the reciprocal of a moment: that of the one before, where they are equal.
fn next_reciprocal(before: i64, inverse: u64, moment: i64) -> u64
    requires { IsBetween (pos 1) (pos MAX_MOMENT) moment }
{
    if moment == before {
        inverse
    } else {
        reciprocal(moment as u64)
    }
}

/// A component of the new spin, by Euler's equation about a principal axis; the reciprocal of its own moment is about `inverse`.
#[tactic(auto, unfolding(dem_model::specs::Advance::spin_component))]
fn spin_part(
    w: i64,
    torque: i128,
    own: i64,
    first: i64,
    second: i64,
    u: i64,
    v: i64,
    inverse: u64,
) -> i128
    requires own_within { IsBetween (pos 1) (pos MAX_MOMENT) own }
    requires first_within { IsBetween (pos 1) (pos MAX_MOMENT) first }
    requires second_within { IsBetween (pos 1) (pos MAX_MOMENT) second }
    requires old_small { AtMost w (2 ^ 28) }
    requires u_small { AtMost u (2 ^ 28) }
    requires v_small { AtMost v (2 ^ 28) }
    requires torque_small { AtMost torque (2 ^ 92) }
    ensures value { result ≡ spin_component w torque own first second u v }
    ensures size { AtMost result (2 ^ 94) }
{
    let turning = gyrating(torque, first, second, u, v);
    add(w as i128, spun_up(turning, own, inverse))
}

/// A component of the torque, and of what the spin itself does to it.
fn gyrating(torque: i128, first: i64, second: i64, u: i64, v: i64) -> i128
    requires first_within { IsBetween (pos 1) (pos MAX_MOMENT) first }
    requires second_within { IsBetween (pos 1) (pos MAX_MOMENT) second }
    requires u_small { AtMost u (2 ^ 28) }
    requires v_small { AtMost v (2 ^ 28) }
    requires torque_small { AtMost torque (2 ^ 92) }
    ensures value { result ≡ torque +ℤ shifted ((first -ℤ second) *ℤ u *ℤ v) 30 }
    ensures size { AtMost result (2 ^ 93) }
{
    add(torque, gyration(first, second, u, v))
}

/// What the other two components of the spin do to one, as a torque.
fn gyration(first: i64, second: i64, u: i64, v: i64) -> i128
    requires first_within { IsBetween (pos 1) (pos MAX_MOMENT) first }
    requires second_within { IsBetween (pos 1) (pos MAX_MOMENT) second }
    requires u_small { AtMost u (2 ^ 28) }
    requires v_small { AtMost v (2 ^ 28) }
    ensures value { result ≡ shifted ((first -ℤ second) *ℤ u *ℤ v) 30 }
    ensures size { AtMost result (2 ^ 89) }
{
    sh(gyration_product(first, second, u, v), 30)
}

/// The difference of two moments times two components of the spin.
fn gyration_product(first: i64, second: i64, u: i64, v: i64) -> i128
    requires first_within { IsBetween (pos 1) (pos MAX_MOMENT) first }
    requires second_within { IsBetween (pos 1) (pos MAX_MOMENT) second }
    requires u_small { AtMost u (2 ^ 28) }
    requires v_small { AtMost v (2 ^ 28) }
    ensures value { result ≡ (first -ℤ second) *ℤ u *ℤ v }
    ensures size { AtMost result (2 ^ 119) }
{
    times(times(moment_difference(first, second), u), v)
}

/// The first moment less the second.
fn moment_difference(first: i64, second: i64) -> i128
    requires first_within { IsBetween (pos 1) (pos MAX_MOMENT) first }
    requires second_within { IsBetween (pos 1) (pos MAX_MOMENT) second }
    ensures value { result ≡ first -ℤ second }
    ensures size { AtMost result (2 ^ 63) }
{
    sub(first as i128, second as i128)
}

/// The product of a number and a component of a spin.
fn times(a: i128, u: i64) -> i128
    requires small { AtMost a (2 ^ 91) }
    requires u_small { AtMost u (2 ^ 28) }
    ensures value { result ≡ a *ℤ u }
    ensures size { AtMost result (unsigned_abs a * 2 ^ 28) }
{
    mul(a, u as i128)
}

/// A torque over a moment of inertia, of which the reciprocal is about `inverse`.
fn spun_up(torque: i128, moment: i64, inverse: u64) -> i128
    requires moment_within { IsBetween (pos 1) (pos MAX_MOMENT) moment }
    requires torque_small { AtMost torque (2 ^ 93) }
    ensures value { result ≡ quotient torque moment }
    ensures size { AtMost result (2 ^ 93) }
{
    tdiv_by(torque, moment as u64, inverse)
}

/// The new position: the old one, moved by the new velocity.
#[tactic(auto, unfolding(dem_model::specs::Advance::position_after))]
pub fn position(p: Vec3, v: Vec3) -> Vec3
    requires old_small { Within (widened p) (2 ^ 36) }
    requires velocity_small { Within (widened v) (2 ^ 40) }
    ensures value { result ≡ narrowed (position_after p (widened v)) }
    ensures size { Within (widened result) (2 ^ 37) }
{
    Vec3 {
        x: farther(p.x, v.x),
        y: farther(p.y, v.y),
        z: farther(p.z, v.z),
    }
}

/// A component of the new position.
fn farther(p: i64, v: i64) -> i64
    requires old_small { AtMost p (2 ^ 36) }
    requires velocity_small { AtMost v (2 ^ 40) }
    ensures value { result ≡ p +ℤ shifted v 16 }
    ensures size { AtMost result (2 ^ 37) }
{
    narrow(add(p as i128, sh(v as i128, 16)))
}

/// The body after a step with this new velocity and new spin.
#[tactic(auto, unfolding(dem_model::specs::Advance::body_with))]
pub fn moved(body: &Body, v: Vec3, w: Vec3) -> Body
    requires orientation { IsOrientation body.now.q }
    requires place { Within (widened body.now.p) (2 ^ 36) }
    requires velocity_small { Within (widened v) (2 ^ 40) }
    requires spin_small { Within (widened w) (2 ^ 28) }
    ensures value { result ≡ body_with body.now (widened v) (widened w) }
    ensures place_size { Within (widened result.p) (2 ^ 37) }
    ensures velocity { result.v ≡ v }
    ensures spin { result.w ≡ w }
    ensures orientation { IsOrientation result.q }
{
    Body {
        p: position(body.p, v),
        q: turn_step(body.q, w),
        v,
        w,
    }
}

//! The force across the normal: elastic and damped, bounded by friction, and the displacement that is kept.

ghost use Rattle.std.specs.Prelude.{
  ◌≡◌,
  pos,
  ◌^◌,
  ◌<◌,
  ◌≤◌,
  ◌*ℤ◌,
  unsigned_abs,
  true,
  ◌==◌,
  nat_le,
  if◌then◌else◌,
};
ghost use Rattle.dem_num.specs.Numbers.{AtMost, quotient, clamped, shifted, root_of, square_of};
ghost use Rattle.dem_num.specs.Vectors.{widened, narrowed, no_vector, is_zero, Within, norm2_of, quotients, scaled, clamped_each};
ghost use Rattle.dem_model.specs.Law.{
  carried_of,
  trial_of,
  friction_bound_of,
  friction_of,
  held_after,
};
ghost use Rattle.dem_model.specs.Ranges.{IsLaw};
ghost use Rattle.dem_force.specs.Narrow.{pull_of, pulls_of};

use crate::pushing::motion::part_across;
use crate::pushing::narrow::{
    NARROW_ROOT, NARROW_STIFFNESS, are_slow, narrow_factor, narrow_trial,
};
use crate::pushing::normal::{damping, damping_factor, damping_root};
use dem_model::{Law, MAX_DISPLACEMENT, MAX_FORCE};
use dem_num::{Vec3, ZERO, add3_short, cl, mul, narrow, negated, root, sh, sub, tdiv};
use dem_turn::is_zero;

/// The least component of a displacement.
const LEAST_DISPLACEMENT: i64 = -1_099_511_627_776;

/// More than the length of any force across the normal.
pub const MAX_LENGTH: u128 = 9_223_372_036_854_775_808;

/// What friction leaves: the force across the normal, and the displacement that is kept.
#[derive(Clone, Copy, PartialEq, Debug)]
pub struct Grip {
    pub friction: Vec3,
    pub h: Vec3,
}

/// The displacement carried into this step: what is stored, brought across the normal, and what the step adds.
#[tactic(auto, unfolding(dem_model::specs::Law::carried_of))]
pub fn carried(n: Vec3, slip: Vec3, h0: Vec3) -> Vec3
    requires normal { Within (widened n) (2 ^ 30) }
    requires slip_small { Within (widened slip) (2 ^ 51) }
    requires stored_small { Within (widened h0) MAX_DISPLACEMENT }
    ensures value { result ≡ carried_of n (widened slip) h0 }
    ensures size { Within (widened result) (2 ^ 40) }
{
    let turned = part_across(n, h0);
    bounded(add3_short(turned, slip))
}

/// A displacement, each component brought within the greatest.
fn bounded(h: Vec3) -> Vec3
    ensures value { result ≡ narrowed (clamped_each (widened h) (pos MAX_DISPLACEMENT)) }
    ensures size { Within (widened result) (2 ^ 40) }
{
    Vec3 {
        x: bounded_part(h.x),
        y: bounded_part(h.y),
        z: bounded_part(h.z),
    }
}

/// A component of a displacement, brought within the greatest.
#[tactic(auto, unfolding(dem_num::specs::Numbers::clamped))]
fn bounded_part(h: i64) -> i64
    ensures value { result ≡ clamped h (pos MAX_DISPLACEMENT) }
    ensures size { AtMost result (2 ^ 40) }
{
    LEAST_DISPLACEMENT.max(h.min(MAX_DISPLACEMENT as i64))
}

/// The tangential force before friction bounds it: none where nothing has moved across the normal.
pub fn trial(law: &Law, c: u64, mass: u64, h: Vec3, slip: Vec3) -> Vec3
    requires law { IsLaw law.now }
    requires radius { c ≤ 2 ^ 27 }
    requires mass_small { mass ≤ 2 ^ 40 }
    requires held_small { Within (widened h) MAX_DISPLACEMENT }
    requires slip_small { Within (widened slip) (2 ^ 51) }
    ensures value { widened result ≡ trial_of law.now c mass h (widened slip) }
    ensures size { Within (widened result) (2 ^ 62) }
{
    if are_zero(h, slip) {
        ZERO
    } else {
        trial_force(law, c, mass, h, slip)
    }
}

/// Whether a displacement and a slip are both zero.
fn are_zero(h: Vec3, slip: Vec3) -> bool
    ensures displacement { result ≡ true → is_zero (widened h) ≡ true }
    ensures slip { result ≡ true → is_zero (widened slip) ≡ true }
{
    is_zero(h) && is_zero(slip)
}

/// The tangential force before friction bounds it: elastic and damped.
#[tactic(auto, unfolding(dem_model::specs::Law::trial_of, dem_model::specs::Law::trial_component, dem_model::specs::Law::damping_of, crate::specs::Narrow::pull_of))]
fn trial_force(law: &Law, c: u64, mass: u64, h: Vec3, slip: Vec3) -> Vec3
    requires law { IsLaw law.now }
    requires radius { c ≤ 2 ^ 27 }
    requires mass_small { mass ≤ 2 ^ 40 }
    requires held_small { Within (widened h) MAX_DISPLACEMENT }
    requires slip_small { Within (widened slip) (2 ^ 51) }
    ensures value { widened result ≡ trial_of law.now c mass h (widened slip) }
    ensures size { Within (widened result) (2 ^ 62) }
{
    let stiffness = law.kt as u64 * c;
    let root = damping_root(law.bt, stiffness, mass);
    if stiffness <= NARROW_STIFFNESS && root <= NARROW_ROOT && are_slow(slip) {
        narrow_trial(stiffness, narrow_factor(law.bt, root), h, slip)
    } else {
        wide_trial(stiffness, damping_factor(law.bt, root), h, slip)
    }
}

/// The tangential force before friction bounds it, whatever the sizes of its parts.
#[cold]
#[inline(never)]
fn wide_trial(stiffness: u64, factor: u128, h: Vec3, slip: Vec3) -> Vec3
    requires stiffness_small { stiffness ≤ 2 ^ 55 }
    requires factor_small { factor ≤ 2 ^ 66 }
    requires held_small { Within (widened h) MAX_DISPLACEMENT }
    requires slip_small { Within (widened slip) (2 ^ 51) }
    ensures value { widened result ≡ pulls_of stiffness factor h slip }
    ensures size { Within (widened result) (2 ^ 62) }
{
    Vec3 {
        x: narrow(pull(stiffness, factor, h.x, slip.x)),
        y: narrow(pull(stiffness, factor, h.y, slip.y)),
        z: narrow(pull(stiffness, factor, h.z, slip.z)),
    }
}

/// A component of the tangential force before friction bounds it.
#[tactic(auto, unfolding(crate::specs::Narrow::pull_of))]
fn pull(stiffness: u64, factor: u128, h: i64, slip: i64) -> i128
    requires stiffness_small { stiffness ≤ 2 ^ 55 }
    requires factor_small { factor ≤ 2 ^ 66 }
    requires held_small { AtMost h MAX_DISPLACEMENT }
    requires slip_small { AtMost slip (2 ^ 51) }
    ensures value { result ≡ pull_of stiffness factor h slip }
    ensures size { AtMost result (2 ^ 62) }
{
    let elastic = stretched(stiffness, h);
    cl(
        sub(negated(elastic), damping(factor, slip)),
        MAX_FORCE as i128,
    )
}

/// The elastic part of a component of the tangential force, the other way round.
fn stretched(stiffness: u64, h: i64) -> i128
    requires stiffness_small { stiffness ≤ 2 ^ 55 }
    requires held_small { AtMost h MAX_DISPLACEMENT }
    ensures value { result ≡ shifted (pos stiffness *ℤ h) 32 }
    ensures size { AtMost result (2 ^ 63) }
{
    sh(mul(stiffness as i64 as i128, h as i128), 32)
}

/// Coulomb's bound on the tangential force.
#[tactic(auto, unfolding(dem_model::specs::Law::friction_bound_of))]
pub fn friction_bound(mu: u32, force: u64) -> u128
    requires ratio { mu ≤ 2 ^ 18 }
    requires force_small { force ≤ 2 ^ 62 }
    ensures value { result ≡ friction_bound_of mu force }
    ensures size { result ≤ 2 ^ 64 }
{
    mu as u128 * force as u128 / 65_536
}

/// The number in the ratio of a bound to a size that passes it, rounded toward zero.
fn shortened(x: i128, bound: u64, size: u64) -> i128
    requires small { AtMost x (2 ^ 62) }
    requires size_small { size ≤ 2 ^ 63 }
    requires passed { bound < size }
    ensures value { result ≡ quotient (pos bound *ℤ x) (pos size) }
    ensures size { AtMost result (unsigned_abs x) }
{
    tdiv(mul(bound as i128, x), size as i128)
}

/// The same at 64 bits.
fn shortened_part(x: i64, bound: u64, size: u64) -> i64
    requires small { AtMost x (2 ^ 62) }
    requires size_small { size ≤ 2 ^ 63 }
    requires passed { bound < size }
    ensures value { result ≡ quotient (pos bound *ℤ x) (pos size) }
    ensures size { AtMost result (unsigned_abs x) }
{
    narrow(shortened(x as i128, bound, size))
}

/// A force that passes a bound, shortened to it.
fn shortened_force(force: Vec3, bound: u64, size: u64) -> Vec3
    requires force_small { Within (widened force) (2 ^ 62) }
    requires size_small { size ≤ 2 ^ 63 }
    requires passed { bound < size }
    ensures value { widened result ≡ quotients (scaled (pos bound) (widened force)) (pos size) }
    ensures size { Within (widened result) (2 ^ 62) }
{
    Vec3 {
        x: shortened_part(force.x, bound, size),
        y: shortened_part(force.y, bound, size),
        z: shortened_part(force.z, bound, size),
    }
}

/// A displacement, shortened as its force is.
fn shortened_displacement(h: Vec3, bound: u64, size: u64) -> Vec3
    requires held_small { Within (widened h) MAX_DISPLACEMENT }
    requires size_small { size ≤ 2 ^ 63 }
    requires passed { bound < size }
    ensures value { result ≡ narrowed (quotients (scaled (pos bound) (widened h)) (pos size)) }
    ensures size { Within (widened result) (2 ^ 40) }
{
    Vec3 {
        x: shortened_part(h.x, bound, size),
        y: shortened_part(h.y, bound, size),
        z: shortened_part(h.z, bound, size),
    }
}

/// The size of a force, in whole units.
fn force_size(force: Vec3) -> u64
    requires force_small { Within (widened force) (2 ^ 62) }
    ensures value { result ≡ root_of (norm2_of (widened force)) }
    ensures size { result ≤ 2 ^ 63 }
{
    root(length2(force))
}

/// The square of a force's size.
#[tactic(auto, unfolding(dem_num::specs::Vectors::norm2_of))]
fn length2(force: Vec3) -> u128
    requires force_small { Within (widened force) (2 ^ 62) }
    ensures { result ≡ norm2_of (widened force) }
{
    squared(force.x) + squared(force.y) + squared(force.z)
}

/// The square of a component of a force.
fn squared(x: i64) -> u128
    requires { AtMost x (2 ^ 62) }
    ensures value { result ≡ square_of x }
    ensures size { result ≤ 2 ^ 124 }
{
    let size = x.unsigned_abs() as u128;
    size * size
}

/// Whether a force is no longer than a bound, which the square of its length tells.
#[tactic(auto, using(crate::proofs::SlideFacts::root_within, crate::proofs::SlideFacts::root_in_all, dem_num::proofs::VectorSizes::norm2_le))]
fn sticks(force: Vec3, bound: u128) -> bool
    requires force_small { Within (widened force) (2 ^ 62) }
    ensures { result ≡ nat_le (root_of (norm2_of (widened force))) bound }
{
    if bound >= MAX_LENGTH {
        return true;
    }
    let next = bound as u64 + 1;
    length2(force) < next as u128 * next as u128
}

/// What friction leaves of a trial force and of the displacement that made it.
#[tactic(auto, unfolding(dem_model::specs::Law::friction_of, dem_model::specs::Law::held_after))]
pub fn gripped(kt: u32, bound: u128, trial: Vec3, h: Vec3) -> Grip
    requires trial_small { Within (widened trial) (2 ^ 62) }
    requires held_small { Within (widened h) MAX_DISPLACEMENT }
    ensures friction { widened result.friction ≡ friction_of bound (widened trial) }
    ensures held { result.h ≡ held_after kt bound (widened trial) h }
    ensures friction_size { Within (widened result.friction) (2 ^ 62) }
    ensures held_size { Within (widened result.h) MAX_DISPLACEMENT }
{
    if sticks(trial, bound) {
        return Grip {
            friction: trial,
            h: held_where(kt, h),
        };
    }
    slipping(kt, bound as u64, trial, h)
}

/// What friction leaves where the trial force passes its bound.
#[tactic(auto, unfolding(dem_model::specs::Law::friction_of, dem_model::specs::Law::held_after))]
fn slipping(kt: u32, bound: u64, trial: Vec3, h: Vec3) -> Grip
    requires trial_small { Within (widened trial) (2 ^ 62) }
    requires held_small { Within (widened h) MAX_DISPLACEMENT }
    requires passed { bound < root_of (norm2_of (widened trial)) }
    ensures friction { widened result.friction ≡ friction_of bound (widened trial) }
    ensures held { result.h ≡ held_after kt bound (widened trial) h }
    ensures friction_size { Within (widened result.friction) (2 ^ 62) }
    ensures held_size { Within (widened result.h) MAX_DISPLACEMENT }
{
    let size = force_size(trial);
    Grip {
        friction: shortened_force(trial, bound, size),
        h: held_where(kt, shortened_displacement(h, bound, size)),
    }
}

/// The displacement, where there is a tangential stiffness to hold it.
pub fn held_where(kt: u32, h: Vec3) -> Vec3
    requires held_small { Within (widened h) MAX_DISPLACEMENT }
    ensures value { result ≡ (if kt == 0 then narrowed no_vector else h) }
    ensures size { Within (widened result) (2 ^ 40) }
{
    if kt == 0 { ZERO } else { h }
}

//! Rolling resistance: a torque against the rolling of the two sides on each other.
//!
//! This is the field's model of a constant directional torque, as Coulomb's friction is a force of constant size: at most
//! `mr` times the normal force times the effective radius, against the part of the relative spin across the normal. The
//! rounding is ours. Nothing is kept from step to step, so where `mr` is large the torque may turn the rolling round within
//! one step. The relative spin across the normal is at most 2^33, its length 2^34, the torque 2^90.

ghost use Rattle.std.specs.Prelude.{
  ◌≡◌,
  pos,
  ◌+◌,
  ◌^◌,
  ◌<◌,
  ◌≤◌,
  ◌*ℤ◌,
  if◌then◌else◌,
};
ghost use Rattle.dem_num.specs.Numbers.{AtMost, opposite, quotient, root_of};
ghost use Rattle.dem_num.specs.Vectors.{
  widened,
  no_vector,
  Within,
  norm2_of,
  scaled,
  quotients,
  opposed,
  sum_of,
  difference_of,
};
ghost use Rattle.dem_model.specs.Law.{
  rolling_bound_of,
  resistance_of,
  roll_of,
  rolling_of,
};
ghost use Rattle.dem_model.specs.Ranges.{IsBounded, IsFirst, IsLaw};

use crate::pushing::mixing::effective_radius;
use crate::pushing::motion::part_across;
use crate::pushing::push::Torques;
use crate::pushing::sliding::friction_bound;
use dem_model::{Law, Side};
use dem_num::{
    Vec3, WIDE_ZERO, Wide3, add3, mul, negated, norm2, root, sub3, sub3_short, tdiv, widen,
};

/// The torques of both sides, where the law has rolling resistance: the first side feels the torque against the rolling, the
/// second the opposite, a wall none. Most scenes have none of it, so it stands out of the way of the others.
#[cold]
#[inline(never)]
pub fn resisted(law: &Law, a: &Side, b: &Side, n: Vec3, normal: u64, torques: Torques) -> Torques
    requires law { IsLaw law.now }
    requires first { IsFirst a.now }
    requires second { IsBounded b.now }
    requires direction { Within (widened n) (2 ^ 30) }
    requires normal_small { normal ≤ 2 ^ 62 }
    requires first_small { Within torques.first (2 ^ 92 + 2 ^ 89) }
    requires second_small { Within torques.second (2 ^ 92 + 2 ^ 89) }
    ensures first { result.first ≡ sum_of torques.first (rolling_of law.now a.now b.now n normal) }
    ensures second { result.second ≡ (if b.now.wall then no_vector else difference_of torques.second (rolling_of law.now a.now b.now n normal)) }
    ensures first_size { Within result.first (2 ^ 93) }
    ensures second_size { Within result.second (2 ^ 93) }
{
    let rolling = rolling(law, a, b, n, normal);
    Torques {
        first: first_torque(torques.first, rolling),
        second: second_torque(b, torques.second, rolling),
    }
}

/// The torque on the first side, with that against the rolling.
fn first_torque(torque: Wide3, rolling: Wide3) -> Wide3
    requires torque_small { Within torque (2 ^ 92 + 2 ^ 89) }
    requires rolling_small { Within rolling (2 ^ 90) }
    ensures value { result ≡ sum_of torque rolling }
    ensures size { Within result (2 ^ 93) }
{
    add3(torque, rolling)
}

/// The torque on the second side, with the opposite of that against the rolling; none on a wall.
fn second_torque(b: &Side, torque: Wide3, rolling: Wide3) -> Wide3
    requires torque_small { Within torque (2 ^ 92 + 2 ^ 89) }
    requires rolling_small { Within rolling (2 ^ 90) }
    ensures value { result ≡ (if b.now.wall then no_vector else difference_of torque rolling) }
    ensures size { Within result (2 ^ 93) }
{
    if b.wall {
        WIDE_ZERO
    } else {
        sub3(torque, rolling)
    }
}

/// The torque on the first side against the rolling.
#[tactic(auto, unfolding(dem_model::specs::Law::rolling_of))]
fn rolling(law: &Law, a: &Side, b: &Side, n: Vec3, normal: u64) -> Wide3
    requires law { IsLaw law.now }
    requires first { IsFirst a.now }
    requires second { IsBounded b.now }
    requires direction { Within (widened n) (2 ^ 30) }
    requires normal_small { normal ≤ 2 ^ 62 }
    ensures value { result ≡ rolling_of law.now a.now b.now n normal }
    ensures size { Within result (2 ^ 90) }
{
    let bound = rolling_bound(law.mr, normal, effective_radius(a, b));
    resistance(bound, roll(a, b, n))
}

/// The greatest torque against rolling: a part of the normal force, times the effective radius.
#[tactic(auto, unfolding(dem_model::specs::Law::rolling_bound_of, dem_model::specs::Law::friction_bound_of))]
fn rolling_bound(mr: u32, normal: u64, radius: u64) -> u128
    requires ratio { mr ≤ 2 ^ 18 }
    requires normal_small { normal ≤ 2 ^ 62 }
    requires radius_small { radius ≤ 2 ^ 26 }
    ensures value { result ≡ rolling_bound_of mr normal radius }
    ensures size { result ≤ 2 ^ 90 }
{
    friction_bound(mr, normal) * radius as u128
}

/// The rolling of two sides: the spin of the first against the second, less its part along the normal.
#[tactic(auto, unfolding(dem_model::specs::Law::roll_of))]
fn roll(a: &Side, b: &Side, n: Vec3) -> Vec3
    requires first { IsBounded a.now }
    requires second { IsBounded b.now }
    requires direction { Within (widened n) (2 ^ 30) }
    ensures value { widened result ≡ roll_of a.now b.now n }
    ensures size { Within (widened result) (2 ^ 33) }
{
    part_across(n, sub3_short(a.spin, b.spin))
}

/// The size of a rolling.
fn roll_size(roll: Vec3) -> u64
    requires small { Within (widened roll) (2 ^ 33) }
    ensures value { result ≡ root_of (norm2_of (widened roll)) }
    ensures covers { Within (widened roll) result }
    ensures size { result ≤ 2 ^ 34 }
{
    root(norm2(widen(roll)))
}

/// A torque of the bound's size against a rolling; none where nothing rolls.
#[tactic(auto, unfolding(dem_model::specs::Law::resistance_of))]
fn resistance(bound: u128, roll: Vec3) -> Wide3
    requires bound_small { bound ≤ 2 ^ 90 }
    requires roll_small { Within (widened roll) (2 ^ 33) }
    ensures value { result ≡ resistance_of bound (widened roll) }
    ensures size { Within result (2 ^ 90) }
{
    let size = roll_size(roll);
    if size == 0 {
        WIDE_ZERO
    } else {
        against(bound, roll, size)
    }
}

/// A torque of the bound's size against a rolling of this size.
fn against(bound: u128, roll: Vec3, size: u64) -> Wide3
    requires bound_small { bound ≤ 2 ^ 90 }
    requires roll_small { Within (widened roll) (2 ^ 33) }
    requires rolls { 0 < size }
    requires covers { Within (widened roll) size }
    ensures value { result ≡ opposed (quotients (scaled (pos bound) (widened roll)) (pos size)) }
    ensures size { Within result (2 ^ 90) }
{
    Wide3 {
        x: part_against(bound, roll.x, size),
        y: part_against(bound, roll.y, size),
        z: part_against(bound, roll.z, size),
    }
}

/// A component of a torque against a rolling.
fn part_against(bound: u128, part: i64, size: u64) -> i128
    requires bound_small { bound ≤ 2 ^ 90 }
    requires small { AtMost part (2 ^ 33) }
    requires rolls { 0 < size }
    requires covers { AtMost part size }
    ensures value { result ≡ opposite (quotient (pos bound *ℤ part) (pos size)) }
    ensures size { AtMost result (2 ^ 90) }
{
    negated(part_of(bound, part, size))
}

/// The bound in the ratio of a component of the rolling to its size, rounded toward zero.
fn part_of(bound: u128, part: i64, size: u64) -> i128
    requires bound_small { bound ≤ 2 ^ 90 }
    requires small { AtMost part (2 ^ 33) }
    requires rolls { 0 < size }
    requires covers { AtMost part size }
    ensures value { result ≡ quotient (pos bound *ℤ part) (pos size) }
    ensures size { AtMost result bound }
{
    tdiv(mul(bound as i128, part as i128), size as i128)
}

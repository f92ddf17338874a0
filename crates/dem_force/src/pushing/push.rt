//! What a contact does: the force along and across the normal, and the torques of both sides.

ghost use Rattle.std.specs.Prelude.{◌≡◌, pos, ◌+◌, ◌^◌, ◌≤◌, ◌*ℤ◌};
ghost use Rattle.dem_num.specs.Numbers.{AtMost, shifted};
ghost use Rattle.dem_num.specs.Vectors.{widened, Within, cross_of, difference_of, opposed};
ghost use Rattle.dem_model.specs.Law.{force_of, friction_torque_of};
ghost use Rattle.dem_model.specs.Ranges.{IsBounded};

use crate::pushing::motion::vector_along;
use dem_model::Side;
use dem_num::{Vec3, WIDE_ZERO, Wide3, add3, cross, mul, negated3, sh, sub3, widen};
use dem_turn::is_zero;

/// The force on the first side: the normal force along the normal, and friction.
#[tactic(auto, unfolding(dem_model::specs::Law::force_of))]
pub fn force_on_first(n: Vec3, normal_force: u64, friction: Vec3) -> Wide3
    requires normal { Within (widened n) (2 ^ 30) }
    requires force_small { normal_force ≤ 2 ^ 62 }
    requires friction_small { Within (widened friction) (2 ^ 62) }
    ensures value { result ≡ force_of n normal_force (widened friction) }
    ensures size { Within result (2 ^ 63) }
{
    add3(widen(vector_along(normal_force as i64, n)), widen(friction))
}

/// The torque of a force on a clump, at the center of its sphere.
fn lever_torque(lever: Vec3, force: Wide3) -> Wide3
    requires lever_small { Within (widened lever) (2 ^ 28) }
    requires force_small { Within force (2 ^ 63) }
    ensures value { result ≡ cross_of (widened lever) force }
    ensures size { Within result (2 ^ 92) }
{
    if is_zero(lever) {
        WIDE_ZERO
    } else {
        cross(lever, force)
    }
}

/// The torque of the opposite force on a clump, at the center of its sphere.
fn opposed_torque(lever: Vec3, force: Wide3) -> Wide3
    requires lever_small { Within (widened lever) (2 ^ 28) }
    requires force_small { Within force (2 ^ 63) }
    ensures value { result ≡ opposed (cross_of (widened lever) force) }
    ensures size { Within result (2 ^ 92) }
{
    negated3(lever_torque(lever, force))
}

/// Torques on the two sides: those of friction about the centers of their spheres, or those of a whole contact.
#[derive(Clone, Copy, PartialEq, Debug)]
pub struct Torques {
    pub first: Wide3,
    pub second: Wide3,
}

/// The torques of friction on the two sides, which are one where the contact is as deep in both.
pub fn rubbing(first: u64, second: u64, n: Vec3, friction: Vec3) -> Torques
    requires first_small { first ≤ 2 ^ 26 }
    requires second_small { second ≤ 2 ^ 26 }
    requires normal { Within (widened n) (2 ^ 30) }
    requires friction_small { Within (widened friction) (2 ^ 62) }
    ensures first { result.first ≡ friction_torque_of first n (widened friction) }
    ensures second { result.second ≡ friction_torque_of second n (widened friction) }
    ensures first_size { Within result.first (2 ^ 89) }
    ensures second_size { Within result.second (2 ^ 89) }
{
    let own = friction_torque(first, n, friction);
    if first == second {
        Torques {
            first: own,
            second: own,
        }
    } else {
        Torques {
            first: own,
            second: friction_torque(second, n, friction),
        }
    }
}

/// The torque of friction about a sphere's center, which both sides feel the same way.
#[tactic(auto, unfolding(dem_model::specs::Law::friction_torque_of))]
fn friction_torque(depth: u64, n: Vec3, friction: Vec3) -> Wide3
    requires depth_small { depth ≤ 2 ^ 26 }
    requires normal { Within (widened n) (2 ^ 30) }
    requires friction_small { Within (widened friction) (2 ^ 62) }
    ensures value { result ≡ friction_torque_of depth n (widened friction) }
    ensures size { Within result (2 ^ 89) }
{
    let turned = turned_friction(n, friction);
    Wide3 {
        x: at_depth(depth, turned.x),
        y: at_depth(depth, turned.y),
        z: at_depth(depth, turned.z),
    }
}

/// A component of the torque of friction, at a depth in u.
fn at_depth(depth: u64, turned: i128) -> i128
    requires depth_small { depth ≤ 2 ^ 26 }
    requires turned_small { AtMost turned (2 ^ 93) }
    ensures value { result ≡ shifted (pos depth *ℤ turned) 30 }
    ensures size { AtMost result (2 ^ 89) }
{
    sh(mul(depth as i128, turned), 30)
}

/// The normal's cross product with friction.
fn turned_friction(n: Vec3, friction: Vec3) -> Wide3
    requires normal { Within (widened n) (2 ^ 30) }
    requires friction_small { Within (widened friction) (2 ^ 62) }
    ensures value { result ≡ cross_of (widened n) (widened friction) }
    ensures size { Within result (2 ^ 93) }
{
    cross(n, widen(friction))
}

/// The torque on the first clump about its position, from the force and the torque of friction.
pub fn torque_on_first(a: &Side, force: Wide3, rubbed: Wide3) -> Wide3
    requires side { IsBounded a.now }
    requires force_small { Within force (2 ^ 63) }
    requires rubbed_small { Within rubbed (2 ^ 89) }
    ensures value { result ≡ difference_of (cross_of (widened a.now.lever) force) rubbed }
    ensures size { Within result (2 ^ 92 + 2 ^ 89) }
{
    sub3(lever_torque(a.lever, force), rubbed)
}

/// The torque on the second clump about its position, from the force on the first and the torque of friction.
pub fn torque_on_second(b: &Side, force: Wide3, rubbed: Wide3) -> Wide3
    requires side { IsBounded b.now }
    requires force_small { Within force (2 ^ 63) }
    requires rubbed_small { Within rubbed (2 ^ 89) }
    ensures value { result ≡ difference_of (opposed (cross_of (widened b.now.lever) force)) rubbed }
    ensures size { Within result (2 ^ 92 + 2 ^ 89) }
{
    sub3(opposed_torque(b.lever, force), rubbed)
}

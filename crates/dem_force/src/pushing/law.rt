//! One contact: from the two sides and how they touch to the force, the torques and the new displacement.

ghost use Rattle.std.specs.Prelude.{◌≡◌, ◌^◌, ◌≤◌};
ghost use Rattle.dem_num.specs.Vectors.{widened, no_vector, Within};
ghost use Rattle.dem_model.specs.Law.{push_with, pushed_of, contact_of};
ghost use Rattle.dem_model.specs.declared.limits.TheConstants.{MAX_DISPLACEMENT};
ghost use Rattle.dem_model.specs.Ranges.{IsLaw, IsBounded, IsFirst, IsSecond, IsTouch, IsSmall};
ghost use Rattle.dem_force.specs.Unrolled.{IsUnrolled};

use crate::pushing::mixing::{effective_mass, effective_radius};
use crate::pushing::motion::{contact_radius, depth, motion_between};
use crate::pushing::normal::normal_force;
use crate::pushing::push::{Torques, force_on_first, rubbing, torque_on_first, torque_on_second};
use crate::pushing::rolling::resisted;
use crate::pushing::sliding::{carried, friction_bound, gripped, held_where, trial};
use dem_model::{Law, Push, Side, Touch};
use dem_num::{Vec3, WIDE_ZERO, ZERO};
use dem_turn::is_zero;

/// What a contact does: the force on `a` (`b` feels the opposite), the torques on both in world axes, and the new
/// displacement. `a` is the side that the normal pushes along it; `h0` is the stored displacement, zero where none is.
#[tactic(auto, unfolding(dem_model::specs::Law::contact_of))]
pub fn contact(law: &Law, a: &Side, b: &Side, t: Touch, h0: Vec3) -> Push
    requires law { IsLaw law.now }
    requires first { IsFirst a.now }
    requires second { IsSecond b.now }
    requires touch { IsTouch t }
    requires stored { Within (widened h0) MAX_DISPLACEMENT }
    ensures value { result ≡ contact_of law.now a.now b.now t h0 }
    ensures size { IsSmall result }
{
    pushed(law, a, b, t.n, t.delta as u64, h0)
}

/// What a contact does, from the overlap as a number without sign.
#[tactic(auto, unfolding(dem_model::specs::Law::pushed_of))]
fn pushed(law: &Law, a: &Side, b: &Side, n: Vec3, delta: u64, h0: Vec3) -> Push
    requires law { IsLaw law.now }
    requires first { IsFirst a.now }
    requires second { IsBounded b.now }
    requires sphere_or_wall { IsSecond b.now }
    requires normal { Within (widened n) (2 ^ 30) }
    requires overlap { delta ≤ 2 ^ 27 }
    requires stored { Within (widened h0) MAX_DISPLACEMENT }
    ensures value { result ≡ pushed_of law.now a.now b.now n delta h0 }
    ensures size { IsSmall result }
{
    let c = contact_radius(effective_radius(a, b), delta);
    let mass = effective_mass(a, b);
    let motion = motion_between(a, b, n, delta);
    let h = carried(n, motion.slip, h0);
    let normal = normal_force(law, c, delta, mass, motion.speed);
    let trial = trial(law, c, mass, h, motion.slip);
    let mut push = push_at(law, a, b, n, delta, normal, h, trial);
    if law.mr != 0 {
        let own = Torques {
            first: push.torque_a,
            second: push.torque_b,
        };
        let torques = resisted(law, a, b, n, normal, own);
        push.torque_a = torques.first;
        push.torque_b = torques.second;
    }
    push
}

/// What a contact does without rolling resistance, once the normal force, the displacement and the trial of the tangential
/// force are known.
fn push_at(
    law: &Law,
    a: &Side,
    b: &Side,
    n: Vec3,
    delta: u64,
    normal: u64,
    h: Vec3,
    trial: Vec3,
) -> Push
    requires law { IsLaw law.now }
    requires first { IsBounded a.now }
    requires second { IsBounded b.now }
    requires direction { Within (widened n) (2 ^ 30) }
    requires normal_small { normal ≤ 2 ^ 62 }
    requires held { Within (widened h) MAX_DISPLACEMENT }
    requires trial_small { Within (widened trial) (2 ^ 62) }
    ensures value { result ≡ push_with law.now a.now b.now n delta normal h (widened trial) }
    ensures size { IsUnrolled result }
{
    if is_zero(trial) {
        undragged(law, a, b, n, delta, normal, h)
    } else {
        dragged(law, a, b, n, delta, normal, h, trial)
    }
}

/// What a contact does without a tangential force. The overlap stands here for what is promised.
fn undragged(law: &Law, a: &Side, b: &Side, n: Vec3, delta: u64, normal: u64, h: Vec3) -> Push
    requires first { IsBounded a.now }
    requires second { IsBounded b.now }
    requires direction { Within (widened n) (2 ^ 30) }
    requires normal_small { normal ≤ 2 ^ 62 }
    requires held { Within (widened h) MAX_DISPLACEMENT }
    ensures value { result ≡ push_with law.now a.now b.now n delta normal h no_vector }
    ensures size { IsUnrolled result }
{
    let _overlap = delta;
    let force = force_on_first(n, normal, ZERO);
    Push {
        force,
        torque_a: torque_on_first(a, force, WIDE_ZERO),
        torque_b: torque_on_second(b, force, WIDE_ZERO),
        h: held_where(law.kt, h),
    }
}

/// What a contact does, from the trial of the tangential force.
#[tactic(auto, unfolding(dem_model::specs::Law::push_with, dem_model::specs::Law::torque_a_of, dem_model::specs::Law::torque_b_of))]
fn dragged(
    law: &Law,
    a: &Side,
    b: &Side,
    n: Vec3,
    delta: u64,
    normal: u64,
    h: Vec3,
    trial: Vec3,
) -> Push
    requires law { IsLaw law.now }
    requires first { IsBounded a.now }
    requires second { IsBounded b.now }
    requires direction { Within (widened n) (2 ^ 30) }
    requires normal_small { normal ≤ 2 ^ 62 }
    requires held { Within (widened h) MAX_DISPLACEMENT }
    requires trial_small { Within (widened trial) (2 ^ 62) }
    ensures value { result ≡ push_with law.now a.now b.now n delta normal h (widened trial) }
    ensures size { IsUnrolled result }
{
    let grip = gripped(law.kt, friction_bound(law.mu, normal), trial, h);
    let force = force_on_first(n, normal, grip.friction);
    let rubbed = rubbing(depth(a.r, delta), depth(b.r, delta), n, grip.friction);
    Push {
        force,
        torque_a: torque_on_first(a, force, rubbed.first),
        torque_b: torque_on_second(b, force, rubbed.second),
        h: grip.h,
    }
}

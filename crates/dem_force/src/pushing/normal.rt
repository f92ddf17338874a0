//! The force along the normal: elastic, less damping, never pulling.

ghost use Rattle.std.specs.Prelude.{◌≡◌, pos, ◌*◌, ◌^◌, ◌≤◌, ◌*ℤ◌, unsigned_abs};
ghost use Rattle.std.specs.Int.{int_max, int_min};
ghost use Rattle.dem_num.specs.Numbers.{AtMost, shifted, root_of};
ghost use Rattle.dem_model.specs.Law.{elastic_force_of, damping_of, normal_force_of};
ghost use Rattle.dem_model.specs.Ranges.{IsLaw};
ghost use Rattle.dem_force.specs.Narrow.{pressing_of};

use crate::pushing::narrow::{NARROW_ROOT, NARROW_STIFFNESS, is_slow, narrow_factor, narrow_press};
use dem_model::{Law, MAX_FORCE};
use dem_num::{mul, root, sh, sub};

/// The elastic force: stiffness times the contact radius, which is given, times the overlap.
fn elastic_force(stiffness: u64, delta: u64) -> i128
    requires stiffness_small { stiffness ≤ 2 ^ 55 }
    requires overlap { delta ≤ 2 ^ 27 }
    ensures value { result ≡ shifted (pos (stiffness * delta)) 16 }
    ensures size { AtMost result (2 ^ 66) }
{
    sh((stiffness as u128 * delta as u128) as i128, 16)
}

/// The root of stiffness, contact radius and mass, by which damping grows: any number where there is no damping.
pub fn damping_root(ratio: u32, stiffness: u64, mass: u64) -> u64
    requires stiffness_small { stiffness ≤ 2 ^ 55 }
    requires mass_small { mass ≤ 2 ^ 40 }
    ensures value { ratio * result ≡ ratio * root_of (stiffness * mass) }
    ensures size { result ≤ 2 ^ 48 }
{
    if ratio == 0 {
        return 0;
    }
    root_between(stiffness, mass)
}

/// The root of a product of a stiffness, a contact radius and a mass.
fn root_between(stiffness: u64, mass: u64) -> u64
    requires stiffness_small { stiffness ≤ 2 ^ 55 }
    requires mass_small { mass ≤ 2 ^ 40 }
    ensures value { result ≡ root_of (stiffness * mass) }
    ensures size { result ≤ 2 ^ 48 }
{
    root(stiffness as u128 * mass as u128)
}

/// What damping multiplies each speed by, times 2^32: the ratio times the root.
pub fn damping_factor(ratio: u32, root: u64) -> u128
    requires ratio_small { ratio ≤ 2 ^ 18 }
    requires root_small { root ≤ 2 ^ 48 }
    ensures value { result ≡ ratio * root }
    ensures size { result ≤ 2 ^ 66 }
{
    ratio as u128 * root as u128
}

/// The damping force at one speed.
pub fn damping(factor: u128, speed: i64) -> i128
    requires factor_small { factor ≤ 2 ^ 66 }
    requires speed_small { AtMost speed (2 ^ 51) }
    ensures value { result ≡ shifted (pos factor *ℤ speed) 32 }
    ensures size { AtMost result (2 ^ 85) }
{
    sh(mul(factor as i128, speed as i128), 32)
}

/// The force along the normal: elastic less damping, from 0 to its greatest.
#[tactic(auto, unfolding(dem_model::specs::Law::normal_force_of, dem_model::specs::Law::damping_of, dem_model::specs::Law::elastic_force_of, crate::specs::Narrow::pressing_of))]
pub fn normal_force(law: &Law, c: u64, delta: u64, mass: u64, speed: i64) -> u64
    requires law { IsLaw law.now }
    requires radius { c ≤ 2 ^ 27 }
    requires overlap { delta ≤ 2 ^ 27 }
    requires mass_small { mass ≤ 2 ^ 40 }
    requires speed_small { AtMost speed (2 ^ 50) }
    ensures value { result ≡ normal_force_of law.now c delta mass speed }
    ensures size { result ≤ 2 ^ 62 }
{
    let stiffness = law.kn as u64 * c;
    let root = damping_root(law.bn, stiffness, mass);
    if stiffness <= NARROW_STIFFNESS && root <= NARROW_ROOT && is_slow(speed) {
        narrow_press(stiffness, narrow_factor(law.bn, root), delta, speed)
    } else {
        wide_press(stiffness, damping_factor(law.bn, root), delta, speed)
    }
}

/// The force along the normal from the factors of overlap and of speed, whatever their sizes.
#[tactic(auto, unfolding(crate::specs::Narrow::pressing_of))]
fn wide_press(stiffness: u64, factor: u128, delta: u64, speed: i64) -> u64
    requires stiffness_small { stiffness ≤ 2 ^ 55 }
    requires factor_small { factor ≤ 2 ^ 66 }
    requires overlap { delta ≤ 2 ^ 27 }
    requires speed_small { AtMost speed (2 ^ 50) }
    ensures value { result ≡ pressing_of stiffness factor delta speed }
    ensures size { result ≤ 2 ^ 62 }
{
    pressing(sub(elastic_force(stiffness, delta), damping(factor, speed)))
}

/// The number brought between 0 and the greatest force.
fn pressing(x: i128) -> u64
    ensures value { result ≡ unsigned_abs (int_max (pos 0) (int_min x (pos MAX_FORCE))) }
    ensures size { result ≤ 2 ^ 62 }
{
    x.min(MAX_FORCE as i128).max(0) as u64
}

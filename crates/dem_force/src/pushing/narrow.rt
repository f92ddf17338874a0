//! The forces of a contact whose factors and speeds are so small that each force fits 64 bits, before any bound.

ghost use Rattle.std.specs.Prelude.{◌≡◌, pos, ◌*◌, ◌^◌, ◌≤◌, ◌*ℤ◌, unsigned_abs, true};
ghost use Rattle.std.specs.Int.{int_max, int_min};
ghost use Rattle.dem_num.specs.Numbers.{AtMost, shifted, clamped, opposite};
ghost use Rattle.dem_num.specs.Vectors.{widened, Within};
ghost use Rattle.dem_model.specs.declared.limits.TheConstants.{MAX_FORCE, MAX_DISPLACEMENT};
ghost use Rattle.dem_force.specs.Narrow.{pressing_of, pull_of, pulls_of};

use dem_num::{Vec3, mul, narrow, sh, sub_short};

/// The greatest product of a stiffness and a contact radius that is narrow.
pub const NARROW_STIFFNESS: u64 = 1 << 50;

/// The greatest root of stiffness, contact radius and mass that is narrow.
pub const NARROW_ROOT: u64 = 1 << 32;

/// The greatest speed that is narrow.
const NARROW_SPEED: u64 = 1 << 43;

/// Whether a speed is narrow.
pub fn is_slow(speed: i64) -> bool
    ensures { result ≡ true → AtMost speed (2 ^ 43) }
{
    speed.unsigned_abs() <= NARROW_SPEED
}

/// Whether each component of a slip is narrow.
pub fn are_slow(slip: Vec3) -> bool
    ensures { result ≡ true → Within (widened slip) (2 ^ 43) }
{
    is_slow(slip.x) && is_slow(slip.y) && is_slow(slip.z)
}

/// What damping multiplies each speed by, times 2^32: the ratio times the root.
pub fn narrow_factor(ratio: u32, root: u64) -> u64
    requires ratio_small { ratio ≤ 2 ^ 18 }
    requires root_small { root ≤ 2 ^ 32 }
    ensures value { result ≡ ratio * root }
    ensures size { result ≤ 2 ^ 50 }
{
    ratio as u64 * root
}

/// The force along the normal, from the factors of overlap and of speed.
#[tactic(auto, unfolding(crate::specs::Narrow::pressing_of))]
pub fn narrow_press(stiffness: u64, factor: u64, delta: u64, speed: i64) -> u64
    requires stiffness_small { stiffness ≤ 2 ^ 50 }
    requires factor_small { factor ≤ 2 ^ 50 }
    requires overlap { delta ≤ 2 ^ 27 }
    requires speed_small { AtMost speed (2 ^ 43) }
    ensures value { result ≡ pressing_of stiffness factor delta speed }
    ensures size { result ≤ 2 ^ 62 }
{
    not_below(sub_short(narrow(elastic(stiffness, delta)), floor_of(factor, speed)))
}

/// The elastic force along the normal.
fn elastic(stiffness: u64, delta: u64) -> i128
    requires stiffness_small { stiffness ≤ 2 ^ 50 }
    requires overlap { delta ≤ 2 ^ 27 }
    ensures value { result ≡ shifted (pos (stiffness * delta)) 16 }
    ensures size { AtMost result (2 ^ 61) }
{
    sh((stiffness as u128 * delta as u128) as i128, 16)
}

/// The number, or 0 where it is below; it isn't above the greatest force.
fn not_below(x: i64) -> u64
    requires { AtMost x (2 ^ 62) }
    ensures value { result ≡ unsigned_abs (int_max (pos 0) (int_min x (pos MAX_FORCE))) }
    ensures size { result ≤ 2 ^ 62 }
{
    x.max(0) as u64
}

/// The tangential force before friction bounds it, from the factors of displacement and of speed.
pub fn narrow_trial(stiffness: u64, factor: u64, h: Vec3, slip: Vec3) -> Vec3
    requires stiffness_small { stiffness ≤ 2 ^ 50 }
    requires factor_small { factor ≤ 2 ^ 50 }
    requires held_small { Within (widened h) MAX_DISPLACEMENT }
    requires slip_small { Within (widened slip) (2 ^ 43) }
    ensures value { widened result ≡ pulls_of stiffness factor h slip }
    ensures size { Within (widened result) (2 ^ 62) }
{
    Vec3 {
        x: narrow_pull(stiffness, factor, h.x, slip.x),
        y: narrow_pull(stiffness, factor, h.y, slip.y),
        z: narrow_pull(stiffness, factor, h.z, slip.z),
    }
}

/// A component of the tangential force before friction bounds it.
#[tactic(auto, unfolding(crate::specs::Narrow::pull_of))]
fn narrow_pull(stiffness: u64, factor: u64, h: i64, slip: i64) -> i64
    requires stiffness_small { stiffness ≤ 2 ^ 50 }
    requires factor_small { factor ≤ 2 ^ 50 }
    requires held_small { AtMost h MAX_DISPLACEMENT }
    requires slip_small { AtMost slip (2 ^ 43) }
    ensures value { result ≡ pull_of stiffness factor h slip }
    ensures size { AtMost result (2 ^ 62) }
{
    not_beyond(sub_short(opposed(floor_of(stiffness, h)), floor_of(factor, slip)))
}

/// The number, which isn't beyond the greatest force.
#[tactic(auto, unfolding(dem_num::specs::Numbers::clamped))]
fn not_beyond(x: i64) -> i64
    requires { AtMost x (2 ^ 62) }
    ensures value { result ≡ clamped x (pos MAX_FORCE) }
    ensures size { AtMost result (2 ^ 62) }
{
    x
}

/// The opposite number.
#[tactic(auto, unfolding(dem_num::specs::Numbers::opposite))]
fn opposed(x: i64) -> i64
    requires { AtMost x (2 ^ 61) }
    ensures value { result ≡ opposite x }
    ensures size { AtMost result (2 ^ 61) }
{
    -x
}

/// The floor of a product over 2^32.
fn floor_of(factor: u64, x: i64) -> i64
    requires factor_small { factor ≤ 2 ^ 50 }
    requires small { AtMost x (2 ^ 43) }
    ensures value { result ≡ shifted (pos factor *ℤ x) 32 }
    ensures size { AtMost result (2 ^ 61) }
{
    narrow(wide_floor(factor, x))
}

/// The floor of a product over 2^32, not yet at 64 bits.
fn wide_floor(factor: u64, x: i64) -> i128
    requires factor_small { factor ≤ 2 ^ 50 }
    requires small { AtMost x (2 ^ 43) }
    ensures value { result ≡ shifted (pos factor *ℤ x) 32 }
    ensures size { AtMost result (2 ^ 61) }
{
    sh(mul(factor as i64 as i128, x as i128), 32)
}

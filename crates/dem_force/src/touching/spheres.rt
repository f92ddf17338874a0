//! How two spheres touch: along the line of their centers, as deep as their radii reach over it.

ghost use Rattle.std.specs.Prelude.{◌≡◌, pos, ◌*◌, ◌/◌, ◌^◌, ◌<◌, ◌≤◌, ◌-ℤ◌, ◌*ℤ◌, IfSome, unsigned_abs};
ghost use Rattle.dem_num.specs.Numbers.{AtMost, quotient, root_of, square_of};
ghost use Rattle.dem_num.specs.Vectors.{widened, Within, norm2_of};
ghost use Rattle.dem_model.specs.Ranges.{IsTouch};
ghost use Rattle.dem_model.specs.Sound.{IsBetween};
ghost use Rattle.dem_model.specs.Touch.{normal_of, spheres_touch};
ghost use Rattle.dem_model.specs.declared.limits.TheConstants.{UNIT, MAX_OVERLAP};

use dem_model::{Touch, UNIT};
use dem_num::{Vec3, Wide3, narrow, root};

/// How two spheres touch, from the center of the first less that of the second and their radii together, in u.
#[tactic(auto, unfolding(dem_model::specs::Touch::spheres_touch))]
pub fn spheres_touch(d: Wide3, radii: u64) -> Option<Touch>
    requires close { Within d (2 ^ 37) }
    requires radii_small { radii ≤ 2 ^ 27 }
    ensures value { result ≡ spheres_touch d radii }
    ensures ranges { IfSome result IsTouch }
{
    let distance2 = distance2(d);
    if distance2 < radii as u128 * radii as u128 {
        let distance = root(distance2);
        Some(Touch {
            n: normal(d, distance),
            delta: overlap(radii, distance),
        })
    } else {
        None
    }
}

/// How far radii reach over a distance.
fn overlap(radii: u64, distance: u64) -> i64
    requires radii_small { radii ≤ 2 ^ 27 }
    requires close { distance < radii }
    ensures value { result ≡ pos radii -ℤ pos distance }
    ensures range { IsBetween (pos 1) (pos MAX_OVERLAP) result }
{
    radii as i64 - distance as i64
}

/// The direction of a difference of centers, times 2^30; along x where the centers are one.
#[tactic(auto, unfolding(dem_model::specs::Touch::normal_of))]
fn normal(d: Wide3, distance: u64) -> Vec3
    requires length { distance ≡ root_of (norm2_of d) }
    requires close { distance ≤ 2 ^ 27 }
    ensures value { result ≡ normal_of d }
    ensures size { Within (widened result) (2 ^ 30) }
{
    if distance == 0 {
        Vec3 {
            x: UNIT as i64,
            y: 0,
            z: 0,
        }
    } else {
        direction(d, distance)
    }
}

/// Each component over the length, times 2^30.
#[tactic(auto, using(crate::proofs::TouchFacts::part_x, crate::proofs::TouchFacts::part_y, crate::proofs::TouchFacts::part_z))]
fn direction(d: Wide3, distance: u64) -> Vec3
    requires length { distance ≡ root_of (norm2_of d) }
    requires some { 0 < distance }
    requires close { distance ≤ 2 ^ 27 }
    ensures x { result.x ≡ quotient (pos UNIT *ℤ d.x) (pos distance) }
    ensures y { result.y ≡ quotient (pos UNIT *ℤ d.y) (pos distance) }
    ensures z { result.z ≡ quotient (pos UNIT *ℤ d.z) (pos distance) }
    ensures size { Within (widened result) (2 ^ 30) }
{
    let inverse = (1 << 63) / distance;
    Vec3 {
        x: part(d.x, distance, inverse),
        y: part(d.y, distance, inverse),
        z: part(d.z, distance, inverse),
    }
}

/// A component over the length, times 2^30; 2^63 over the length is about `inverse`.
#[tactic(auto, unfolding(dem_num::specs::Numbers::quotient))]
fn part(e: i128, distance: u64, inverse: u64) -> i64
    requires some { 0 < distance }
    requires part { unsigned_abs e ≤ distance }
    requires close { distance ≤ 2 ^ 27 }
    ensures value { result ≡ quotient (pos UNIT *ℤ e) (pos distance) }
    ensures size { AtMost result (2 ^ 30) }
{
    let size = size_part(e.unsigned_abs() as u64, distance, inverse);
    if e < 0 { -(size as i64) } else { size as i64 }
}

/// A component without its sign over the length, times 2^30.
fn size_part(e: u64, distance: u64, inverse: u64) -> u64
    requires some { 0 < distance }
    requires part { e ≤ distance }
    requires close { distance ≤ 2 ^ 27 }
    ensures value { result ≡ 2 ^ 30 * e / distance }
    ensures bound { result ≤ 2 ^ 30 }
{
    tested_part((1 << 30) * e, distance, e.wrapping_mul(inverse) >> 33)
}

/// The quotient: quickly where the guess is the quotient or one less.
#[tactic(auto, using(dem_num::proofs::QuotientFacts::quotient_is, dem_num::proofs::QuotientFacts::quotient_is_next))]
fn tested_part(scaled: u64, distance: u64, guess: u64) -> u64
    requires some { 0 < distance }
    requires close { distance ≤ 2 ^ 27 }
    ensures { result ≡ scaled / distance }
{
    if guess <= UNIT {
        let part = guess * distance;
        if part <= scaled {
            let rest = scaled - part;
            if rest < distance {
                return guess;
            }
            if rest - distance < distance {
                return guess + 1;
            }
        }
    }
    scaled / distance
}

/// The square of the distance between two centers.
#[tactic(auto, unfolding(dem_num::specs::Vectors::norm2_of))]
fn distance2(d: Wide3) -> u128
    requires close { Within d (2 ^ 37) }
    ensures { result ≡ norm2_of d }
{
    squared(d.x) + squared(d.y) + squared(d.z)
}

/// The square of a number of 64 bits.
fn squared(e: i128) -> u128
    requires { AtMost e (2 ^ 37) }
    ensures value { result ≡ square_of e }
    ensures size { result ≤ 2 ^ 74 }
{
    let size = narrow(e).unsigned_abs() as u128;
    size * size
}

//! Vectors and quaternions of a scene text: lists of exactly three and of exactly four whole numbers.

ghost use Rattle.std.specs.Prelude.{◌≡◌, ◌<◌, ◌≤◌, ◌^◌, pos, false, unsigned_abs, IfOk, IsTrue};
ghost use Rattle.serde_json.specs.View.{view};
ghost use Rattle.dem_num.specs.Vectors.{widened, Within, is_zero};
ghost use Rattle.dem_num.specs.Rotations.{quat_norm2_of};
ghost use Rattle.dem_model.specs.Reading.{at_most, from_to};
ghost use Rattle.dem_model.specs.ReadingVectors.{three_at, each_is, vector_of, vector_at, vector_or, direction_of, direction_at};
ghost use Rattle.dem_model.specs.ReadingVectors.{four_at, is_bounded, is_long, quaternion_of, quaternion_or};
ghost use Rattle.dem_model.specs.Sound.{IsFrom, IsBetween, EachBetween};

use crate::number::whole;
use dem_model::{MAX_DIRECTION, MAX_NORM2, MIN_NORM2, SceneFault, Spot};
use dem_num::{Quat, Vec3, quat_norm2};
use serde_json::Value;

/// Exactly three whole numbers.
#[tactic(auto, using(crate::proofs::Trees::three_short, crate::proofs::Trees::three_long), unfolding(dem_model::specs::ReadingVectors::three_at))]
fn three(value: &Value, at: Spot) -> Result<Vec3, SceneFault>
    ensures { result ≡ three_at at (view value.now) }
{
    let fault = SceneFault::Field { which: at };
    let Some(items) = value.as_array() else {
        return Err(fault);
    };
    match items.as_slice() {
        [x, y, z] => {
            let (Some(x), Some(y), Some(z)) = (x.as_i64(), y.as_i64(), z.as_i64()) else {
                return Err(fault);
            };
            Ok(Vec3 { x, y, z })
        }
        _ => Err(fault),
    }
}

/// Exactly four whole numbers.
#[tactic(auto, using(crate::proofs::Trees::four_short, crate::proofs::Trees::four_long), unfolding(dem_model::specs::ReadingVectors::four_at))]
fn four(value: &Value, at: Spot) -> Result<Quat, SceneFault>
    ensures { result ≡ four_at at (view value.now) }
{
    let fault = SceneFault::Field { which: at };
    let Some(items) = value.as_array() else {
        return Err(fault);
    };
    match items.as_slice() {
        [a, b, c, d] => {
            let (Some(a), Some(b), Some(c), Some(d)) = (
                a.as_i64(),
                b.as_i64(),
                c.as_i64(),
                d.as_i64(),
            ) else {
                return Err(fault);
            };
            Ok(Quat { a, b, c, d })
        }
        _ => Err(fault),
    }
}

/// Whether a number is at most `m` in size.
#[tactic(auto, unfolding(dem_model::specs::Reading::at_most))]
pub(crate) fn is_at_most(z: i64, m: u64) -> bool
    ensures value { result ≡ at_most m z }
    ensures small { IsTrue result → unsigned_abs z ≤ m }
{
    z.unsigned_abs() <= m
}

/// Whether each component is at most `m` in size.
pub(crate) fn is_sized(v: Vec3, m: u64) -> bool
    ensures value { result ≡ each_is (at_most m) v }
    ensures sized { IsTrue result → Within (widened v) m }
{
    is_at_most(v.x, m) && is_at_most(v.y, m) && is_at_most(v.z, m)
}

/// Whether a number is from `low` to `high`.
#[tactic(auto, unfolding(dem_model::specs::Reading::from_to))]
pub(crate) fn is_from(z: i64, low: u64, high: u64) -> bool
    ensures value { result ≡ from_to low high z }
    ensures between { IsTrue result → IsBetween (pos low) (pos high) z }
{
    z >= 0 && low <= z.unsigned_abs() && z.unsigned_abs() <= high
}

/// Whether each component is from `low` to `high`.
fn is_between(v: Vec3, low: u64, high: u64) -> bool
    ensures value { result ≡ each_is (from_to low high) v }
    ensures between { IsTrue result → EachBetween (pos low) (pos high) v }
{
    is_from(v.x, low, high) && is_from(v.y, low, high) && is_from(v.z, low, high)
}

/// A vector with components of at most `m` in size.
#[tactic(auto, unfolding(dem_model::specs::ReadingVectors::vector_of))]
fn sized(value: &Value, m: u64, at: Spot) -> Result<Vec3, SceneFault>
    ensures value { result ≡ vector_of (at_most m) at (view value.now) }
    ensures range { IfOk result (λ v. Within (widened v) m) }
{
    let v = three(value, at)?;
    if is_sized(v, m) {
        Ok(v)
    } else {
        Err(SceneFault::Range { which: at })
    }
}

/// A vector with components from `low` to `high`.
#[tactic(auto, unfolding(dem_model::specs::ReadingVectors::vector_of))]
fn between(value: &Value, low: u64, high: u64, at: Spot) -> Result<Vec3, SceneFault>
    ensures value { result ≡ vector_of (from_to low high) at (view value.now) }
    ensures range { IfOk result (EachBetween (pos low) (pos high)) }
{
    let v = three(value, at)?;
    if is_between(v, low, high) {
        Ok(v)
    } else {
        Err(SceneFault::Range { which: at })
    }
}

/// The vector of a name, with components of at most `m` in size.
#[tactic(auto, unfolding(dem_model::specs::ReadingVectors::vector_at))]
pub(crate) fn vector_sized(value: &Value, name: &str, m: u64, at: Spot) -> Result<Vec3, SceneFault>
    ensures value { result ≡ vector_at name.now (at_most m) at (view value.now) }
    ensures range { IfOk result (λ v. Within (widened v) m) }
{
    match value.get(name) {
        Some(v) => sized(v, m, at),
        None => Err(SceneFault::Field { which: at }),
    }
}

/// The vector of a name, with components of at most `m` in size, or zero where the name isn't there.
#[tactic(auto, unfolding(dem_model::specs::ReadingVectors::vector_or))]
pub(crate) fn vector_or_zero(
    value: &Value,
    name: &str,
    m: u64,
    at: Spot,
) -> Result<Vec3, SceneFault>
    ensures value { result ≡ vector_or name.now (at_most m) at (view value.now) }
    ensures range { IfOk result (λ v. Within (widened v) m) }
{
    match value.get(name) {
        Some(v) => sized(v, m, at),
        None => Ok(Vec3 { x: 0, y: 0, z: 0 }),
    }
}

/// The vector of a name, with components from `low` to `high`.
#[tactic(auto, unfolding(dem_model::specs::ReadingVectors::vector_at))]
pub(crate) fn vector_between(
    value: &Value,
    name: &str,
    low: u64,
    high: u64,
    at: Spot,
) -> Result<Vec3, SceneFault>
    ensures value { result ≡ vector_at name.now (from_to low high) at (view value.now) }
    ensures range { IfOk result (EachBetween (pos low) (pos high)) }
{
    match value.get(name) {
        Some(v) => between(v, low, high, at),
        None => Err(SceneFault::Field { which: at }),
    }
}

/// A direction: a vector that isn't zero.
#[tactic(auto, unfolding(dem_model::specs::ReadingVectors::direction_of))]
fn direction_in(value: &Value, at: Spot) -> Result<Vec3, SceneFault>
    ensures value { result ≡ direction_of at (view value.now) }
    ensures range { IfOk result (λ v. Within (widened v) MAX_DIRECTION) }
    ensures points { IfOk result (λ v. is_zero (widened v) ≡ false) }
{
    let v = sized(value, MAX_DIRECTION, at)?;
    if v.x == 0 && v.y == 0 && v.z == 0 {
        Err(SceneFault::Range { which: at })
    } else {
        Ok(v)
    }
}

/// The direction of a name.
#[tactic(auto, unfolding(dem_model::specs::ReadingVectors::direction_at))]
pub(crate) fn direction(value: &Value, name: &str, at: Spot) -> Result<Vec3, SceneFault>
    ensures value { result ≡ direction_at name.now at (view value.now) }
    ensures range { IfOk result (λ v. Within (widened v) MAX_DIRECTION) }
    ensures points { IfOk result (λ v. is_zero (widened v) ≡ false) }
{
    match value.get(name) {
        Some(v) => direction_in(v, at),
        None => Err(SceneFault::Field { which: at }),
    }
}

/// A quaternion within its range.
#[tactic(auto, unfolding(dem_model::specs::ReadingVectors::quaternion_of))]
fn quaternion_in(value: &Value, at: Spot) -> Result<Quat, SceneFault>
    ensures value { result ≡ quaternion_of at (view value.now) }
    ensures length { IfOk result (λ q. IsFrom MIN_NORM2 MAX_NORM2 (quat_norm2_of q)) }
{
    let q = four(value, at)?;
    if is_bounded(q) && is_long(q) {
        Ok(q)
    } else {
        Err(SceneFault::Range { which: at })
    }
}

/// Whether each component is at most 2^31 in size.
#[tactic(auto, using(crate::proofs::LengthFacts::norm2_small))]
fn is_bounded(q: Quat) -> bool
    ensures value { result ≡ is_bounded q }
    ensures small { IsTrue result → quat_norm2_of q < 2 ^ 128 }
{
    let most = 1 << 31;
    is_at_most(q.a, most) && is_at_most(q.b, most) && is_at_most(q.c, most) && is_at_most(q.d, most)
}

/// Whether the squared length is in its range.
fn is_long(q: Quat) -> bool
    requires { quat_norm2_of q < 2 ^ 128 }
    ensures value { result ≡ is_long q }
    ensures length { IsTrue result → IsFrom MIN_NORM2 MAX_NORM2 (quat_norm2_of q) }
{
    let n = quat_norm2(q);
    u128::from(MIN_NORM2) <= n && n <= u128::from(MAX_NORM2)
}

/// The quaternion of a name, or the one that turns nothing where the name isn't there.
#[tactic(auto, unfolding(dem_model::specs::ReadingVectors::quaternion_or, dem_num::specs::Rotations::quat_norm2_of))]
pub(crate) fn quaternion_or_default(value: &Value, name: &str, at: Spot) -> Result<Quat, SceneFault>
    ensures value { result ≡ quaternion_or name.now at (view value.now) }
    ensures length { IfOk result (λ q. IsFrom MIN_NORM2 MAX_NORM2 (quat_norm2_of q)) }
{
    match value.get(name) {
        Some(v) => quaternion_in(v, at),
        None => Ok(Quat {
            a: 1 << 30,
            b: 0,
            c: 0,
            d: 0,
        }),
    }
}

//! Whole numbers of a scene text: within their ranges, or below a count.

ghost use Rattle.std.specs.Prelude.{◌≡◌, ◌<◌, IfOk};
ghost use Rattle.serde_json.specs.View.{view};
ghost use Rattle.dem_model.specs.Reading.{whole_of, number_of, number_at, number_or, index_of, index_at};
ghost use Rattle.dem_model.specs.Sound.{IsFrom};

use dem_model::{Name, SceneFault, Spot};
use serde_json::Value;

/// A place of the scene text.
pub(crate) fn spot(name: Name, i: u32, j: u32) -> Spot
    ensures { result ≡ record { name = name; i = i; j = j } }
{
    Spot { name, i, j }
}

/// A whole number.
#[tactic(auto, unfolding(dem_model::specs::Reading::whole_of))]
pub(crate) fn whole(value: &Value, at: Spot) -> Result<i64, SceneFault>
    ensures { result ≡ whole_of at (view value.now) }
{
    value.as_i64().ok_or(SceneFault::Field { which: at })
}

/// A whole number from `low` to `high`.
#[tactic(auto, unfolding(dem_model::specs::Reading::number_of, dem_model::specs::Reading::from_to))]
fn number_in(value: &Value, low: u64, high: u64, at: Spot) -> Result<u64, SceneFault>
    ensures value { result ≡ number_of low high at (view value.now) }
    ensures range { IfOk result (IsFrom low high) }
{
    let z = whole(value, at)?;
    if z < 0 {
        return Err(SceneFault::Range { which: at });
    }
    let n = z.unsigned_abs();
    if low <= n && n <= high {
        Ok(n)
    } else {
        Err(SceneFault::Range { which: at })
    }
}

/// The whole number of a name, from `low` to `high`.
#[tactic(auto, unfolding(dem_model::specs::Reading::number_at))]
pub(crate) fn number(
    value: &Value,
    name: &str,
    low: u64,
    high: u64,
    at: Spot,
) -> Result<u64, SceneFault>
    ensures value { result ≡ number_at name.now low high at (view value.now) }
    ensures range { IfOk result (IsFrom low high) }
{
    match value.get(name) {
        Some(v) => number_in(v, low, high, at),
        None => Err(SceneFault::Field { which: at }),
    }
}

/// The whole number of a name, from 0 to `high`, or 0 where the name isn't there.
#[tactic(auto, unfolding(dem_model::specs::Reading::number_or))]
pub(crate) fn number_or_zero(
    value: &Value,
    name: &str,
    high: u64,
    at: Spot,
) -> Result<u64, SceneFault>
    ensures value { result ≡ number_or name.now 0 high at (view value.now) }
    ensures range { IfOk result (IsFrom 0 high) }
{
    match value.get(name) {
        Some(v) => number_in(v, 0, high, at),
        None => Ok(0),
    }
}

/// The whole number of a name, from `low` to `high`, where these fit 32 bits.
pub(crate) fn small_number(
    value: &Value,
    name: &str,
    low: u32,
    high: u32,
    at: Spot,
) -> Result<u32, SceneFault>
    ensures value { result ≡ number_at name.now low high at (view value.now) }
    ensures range { IfOk result (IsFrom low high) }
{
    Ok(number(value, name, u64::from(low), u64::from(high), at)? as u32)
}

/// The whole number of a name, from 0 to `high`, which fits 32 bits, or 0 where the name isn't there.
pub(crate) fn small_number_or_zero(
    value: &Value,
    name: &str,
    high: u32,
    at: Spot,
) -> Result<u32, SceneFault>
    ensures value { result ≡ number_or name.now 0 high at (view value.now) }
    ensures range { IfOk result (IsFrom 0 high) }
{
    Ok(number_or_zero(value, name, u64::from(high), at)? as u32)
}

/// A whole number below a count.
#[tactic(auto, unfolding(dem_model::specs::Reading::index_of, dem_model::specs::Reading::below))]
fn index_in(value: &Value, count: u32, at: Spot) -> Result<u32, SceneFault>
    ensures value { result ≡ index_of count at (view value.now) }
    ensures range { IfOk result (λ n. n < count) }
{
    let z = whole(value, at)?;
    if z >= 0 && z.unsigned_abs() < u64::from(count) {
        Ok(z.unsigned_abs() as u32)
    } else {
        Err(SceneFault::Index { which: at })
    }
}

/// The whole number of a name, below a count.
#[tactic(auto, unfolding(dem_model::specs::Reading::index_at))]
pub(crate) fn index(value: &Value, name: &str, count: u32, at: Spot) -> Result<u32, SceneFault>
    ensures value { result ≡ index_at name.now count at (view value.now) }
    ensures range { IfOk result (λ n. n < count) }
{
    match value.get(name) {
        Some(v) => index_in(v, count, at),
        None => Err(SceneFault::Field { which: at }),
    }
}

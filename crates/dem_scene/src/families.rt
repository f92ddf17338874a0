//! The families of a scene text: their motions, one after the other, and those that are off with each other.

ghost use Rattle.std.specs.Prelude.{◌≡◌, ◌<◌, ◌≤◌, ◌^◌, codes, pos, unsigned_abs, All, IfOk, length};
ghost use Rattle.serde_json.specs.View.{view, items_view};
ghost use Rattle.dem_model.specs.Reading.{spot, list_or};
ghost use Rattle.dem_model.specs.ReadingKinds.{motion_of, motions_from, two_at, off_of};
ghost use Rattle.dem_model.specs.ReadingScene.{motions_of, motions_or};
ghost use Rattle.dem_model.specs.Sound.{IsBetween, IsMotion, AreAscending, IsOff};
ghost use Rattle.dem_scene.specs.Gives.{Gives};

use crate::list::{ReadItem, list_or_empty};
use crate::number::{small_number, spot};
use crate::object::check;
use crate::vector::{is_from, vector_sized};
use dem_model::{
    List, MAX_FAMILY, MAX_MOTIONS, MAX_OFF, MAX_SPEED, MAX_SPIN, Motion, Name, Off, SceneFault,
    Spot,
};
use serde_json::Value;
use std::alloc::Global;

/// A motion, of a family from `least` on.
#[tactic(auto, unfolding(dem_model::specs::ReadingKinds::motion_of))]
fn motion(value: &Value, least: u32, i: u32) -> Result<Motion, SceneFault>
    ensures value { result ≡ motion_of least i (view value.now) }
    ensures range { IfOk result IsMotion }
    ensures later { IfOk result (λ m. least ≤ m.id) }
{
    check(value, spot(Name::Families, i, 0))?;
    let id = small_number(value, "id", least, MAX_FAMILY, spot(Name::FamiliesId, i, 0))?;
    let v = vector_sized(value, "v", MAX_SPEED, spot(Name::FamiliesV, i, 0))?;
    let w = vector_sized(value, "w", MAX_SPIN, spot(Name::FamiliesW, i, 0))?;
    Ok(Motion { id, v, w })
}

/// The motions of a list, each of a later family than the one before.
fn motions_each(alloc: Global, values: &[Value]) -> Result<List<Motion>, SceneFault>
    requires { length values.now < 2 ^ 32 }
    ensures value { Gives result (motions_from 0 0 (items_view values.now)) }
    ensures range { IfOk result (All IsMotion) }
    ensures ascending { IfOk result (AreAscending 0) }
    ensures count { IfOk result (λ ms. length ms ≡ length values.now) }
{
    let mut found = List::new(alloc);
    let mut least = 0;
    for (i, value) in values.iter().enumerate() {
        let item = motion(value, least, i as u32)?;
        least = item.id + 1;
        found.push(item)?;
    }
    Ok(found)
}

/// The motions: a list of a fitting length.
#[tactic(auto, using(crate::proofs::Trees::counts_items), unfolding(dem_model::specs::ReadingScene::motions_of))]
fn motions_in(alloc: Global, value: &Value, at: Spot) -> Result<List<Motion>, SceneFault>
    ensures value { Gives result (motions_of at (view value.now)) }
    ensures range { IfOk result (All IsMotion) }
    ensures ascending { IfOk result (AreAscending 0) }
    ensures count { IfOk result (λ ms. length ms ≤ MAX_MOTIONS) }
{
    let Some(items) = value.as_array() else {
        return Err(SceneFault::Field { which: at });
    };
    if items.len() <= MAX_MOTIONS {
        motions_each(alloc, items.as_slice())
    } else {
        Err(SceneFault::Count { which: at })
    }
}

/// The motions of the scene object, or none.
#[tactic(auto, unfolding(dem_model::specs::ReadingScene::motions_or))]
pub(crate) fn read_motions(alloc: Global, value: &Value) -> Result<List<Motion>, SceneFault>
    ensures value { Gives result (motions_or (view value.now)) }
    ensures range { IfOk result (All IsMotion) }
    ensures ascending { IfOk result (AreAscending 0) }
    ensures count { IfOk result (λ ms. length ms ≤ MAX_MOTIONS) }
{
    let at = spot(Name::Families, 0, 0);
    match value.get("families") {
        Some(v) => motions_in(alloc, v, at),
        None => Ok(List::new(alloc)),
    }
}

/// Reads entries of families that are off, one by one.
struct Offs;

impl ReadItem for Offs {
    type Item = Off;

    ghost gives = { λ _. off_of };

    ghost keeps = { λ _. IsOff };

    #[tactic(auto, using(crate::proofs::GivesFacts::gives_from))]
    fn read(&self, _alloc: Global, i: u32, value: &Value) -> Result<Off, SceneFault> {
        off(value, i)
    }
}

/// The families of the scene object that are off, or none.
pub(crate) fn read_off(alloc: Global, value: &Value) -> Result<List<Off>, SceneFault>
    ensures value { Gives result (list_or (codes "off") 0 MAX_OFF (spot Name.Off 0 0) off_of (view value.now)) }
    ensures range { IfOk result (All IsOff) }
    ensures count { IfOk result (λ xs. length xs ≤ MAX_OFF) }
{
    let at = spot(Name::Off, 0, 0);
    list_or_empty(alloc, &Offs, value, "off", MAX_OFF, at)
}

/// Two families that are off.
#[tactic(auto, unfolding(dem_model::specs::ReadingKinds::off_of))]
fn off(value: &Value, i: u32) -> Result<Off, SceneFault>
    ensures value { result ≡ off_of i (view value.now) }
    ensures range { IfOk result IsOff }
{
    let at = spot(Name::Off, i, 0);
    let (f, g) = two(value, at)?;
    let most = u64::from(MAX_FAMILY);
    if is_from(f, 0, most) && is_from(g, 0, most) {
        Ok(Off {
            f: family(f),
            g: family(g),
        })
    } else {
        Err(SceneFault::Range { which: at })
    }
}

/// The family of a number.
fn family(z: i64) -> u32
    requires { IsBetween (pos 0) (pos MAX_FAMILY) z }
    ensures value { result ≡ unsigned_abs z }
    ensures range { result ≤ MAX_FAMILY }
{
    z.unsigned_abs() as u32
}

/// Exactly two whole numbers.
#[tactic(auto, using(crate::proofs::Trees::two_short, crate::proofs::Trees::two_long), unfolding(dem_model::specs::ReadingKinds::two_at))]
fn two(value: &Value, at: Spot) -> Result<(i64, i64), SceneFault>
    ensures { result ≡ two_at at (view value.now) }
{
    let fault = SceneFault::Field { which: at };
    let Some(items) = value.as_array() else {
        return Err(fault);
    };
    match items.as_slice() {
        [f, g] => {
            let (Some(f), Some(g)) = (f.as_i64(), g.as_i64()) else {
                return Err(fault);
            };
            Ok((f, g))
        }
        _ => Err(fault),
    }
}

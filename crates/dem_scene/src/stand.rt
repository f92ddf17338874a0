//! The text of a scene with stands in the place of its clumps.

ghost use Rattle.std.specs.Prelude.{◌≡◌, ◌≤◌, ◌^◌, Ok, IfOk, IsOk, length};
ghost use Rattle.serde_json.specs.View.{view, items_view};
ghost use Rattle.dem_model.specs.ReadingScene.{scene_from};
ghost use Rattle.dem_model.specs.Stands.{with_stands, CanStand};
ghost use Rattle.dem_scene.specs.Stands.{vector_data, stand_data, stand_items, with_clumps_of, IsWithClumps, IsTextOf};

use crate::read::tree;
use dem_model::{List, OutOfMemory, Stand};
use dem_num::Vec3;
use serde_json::{Value, json, put};
use std::alloc::{AllocError, Global};

/// The object of a stand: its position, and the number of its template.
fn stand_value(alloc: Global, stand: Stand) -> Result<Value, AllocError>
    ensures { IfOk result (λ v. view v ≡ stand_data stand) }
{
    let Stand { t, p } = stand;
    json!(in alloc; {"p": [p.x, p.y, p.z], "t": t})
}

/// The objects of some stands, in order.
fn stand_values(alloc: Global, stands: &[Stand]) -> Result<Vec<Value>, AllocError>
    ensures { IfOk result (λ vs. items_view vs.items ≡ stand_items stands.now) }
{
    let mut values = Vec::new(alloc);
    for stand in stands {
        values.push(stand_value(alloc, *stand)?)?;
    }
    Ok(values)
}

/// The value tree of a scene text with one object per stand as its clumps.
fn with_clumps_in(alloc: Global, tree: Value, stands: &[Stand]) -> Result<Value, AllocError>
    ensures { IfOk result (λ v. view v ≡ with_clumps_of stands.now (view tree)) }
{
    match tree {
        Value::Object(mut members) => {
            let clumps = Value::Array(stand_values(alloc, stands)?);
            put(&mut members, alloc, "clumps", clumps)?;
            Ok(Value::Object(members))
        }
        other => Ok(other),
    }
}

/// Some bytes as a list.
fn listed(alloc: Global, bytes: &[u8]) -> Result<List<u8>, OutOfMemory>
    ensures { IfOk result (λ xs. xs ≡ bytes.now) }
{
    let mut list = List::new(alloc);
    for byte in bytes {
        list.push(*byte)?;
    }
    Ok(list)
}

/// The compact text of a value tree.
fn text(alloc: Global, tree: &Value) -> Result<List<u8>, OutOfMemory>
    ensures { IfOk result (IsTextOf (view tree.now)) }
{
    match tree.to_vec(alloc) {
        Ok(bytes) => listed(alloc, bytes.as_slice()),
        Err(_) => Err(OutOfMemory),
    }
}

/// The text of a value tree of a scene with one object per stand as its clumps.
pub(crate) fn text_with_clumps(
    alloc: Global,
    tree: Value,
    stands: &[Stand],
) -> Result<List<u8>, OutOfMemory>
    ensures { IfOk result (IsTextOf (with_clumps_of stands.now (view tree))) }
{
    match with_clumps_in(alloc, tree, stands) {
        Ok(changed) => text(alloc, &changed),
        Err(_) => Err(OutOfMemory),
    }
}

/// The text of a scene with stands in the place of its clumps: each at rest, not turned, in the order of the list.
pub fn with_clumps(alloc: Global, bytes: &[u8], stands: &[Stand]) -> Result<List<u8>, OutOfMemory>
    requires read { IsOk (scene_from bytes.now) }
    requires stands { IfOk (scene_from bytes.now) (λ s. CanStand s stands.now) }
    ensures text { IfOk result (IsWithClumps stands.now bytes.now) }
    ensures scene { IfOk result (λ text. IfOk (scene_from bytes.now) (λ s. scene_from text ≡ Ok (with_stands s stands.now))) }
    ensures short { IfOk result (λ text. length text ≤ 2 ^ 22) }
{
    match tree(alloc, bytes) {
        Ok(value) => text_with_clumps(alloc, value, stands),
        Err(_) => Err(OutOfMemory),
    }
}

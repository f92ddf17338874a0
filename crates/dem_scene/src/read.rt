//! The whole reading of a scene text.

ghost use Rattle.std.specs.Prelude.{◌≡◌, Ok, IfOk, IfErr};
ghost use Rattle.serde_json.specs.View.{view};
ghost use Rattle.dem_model.specs.ReadingScene.{json_of, scene_of, scene_from};
ghost use Rattle.dem_scene.specs.Gives.{Fails, Gives};

use crate::draft::{scene, table};
use crate::place::check_clumps;
use dem_model::{MAX_TEXT, Scene, SceneFault};
use serde_json::Value;
use std::alloc::Global;

/// The value tree of some bytes.
#[tactic(auto, using(crate::proofs::JsonFacts::json_ok, crate::proofs::JsonFacts::json_err))]
pub(crate) fn tree(alloc: Global, bytes: &[u8]) -> Result<Value, SceneFault>
    ensures ok { IfOk result (λ v. json_of bytes.now ≡ Ok (view v)) }
    ensures err { IfErr result (λ fault. Fails fault (json_of bytes.now)) }
{
    match Value::from_slice(alloc, bytes) {
        Ok(value) => Ok(value),
        Err(e) => Err(if e.is_memory() {
            SceneFault::OutOfMemory
        } else {
            SceneFault::NotJson
        }),
    }
}

/// The scene of a value tree: the table from top to bottom, and then the clumps.
#[tactic(auto, using(crate::proofs::GivesFacts::fails_then, crate::proofs::GivesFacts::fails_from), unfolding(dem_model::specs::ReadingScene::scene_of))]
fn scene_in(alloc: Global, value: &Value) -> Result<Scene, SceneFault>
    ensures { Gives result (scene_of (view value.now)) }
{
    let draft = table(alloc, value)?;
    check_clumps(&draft)?;
    Ok(scene(draft))
}

/// Reads a scene text: the scene that the bytes are, or the first fault with its place; OutOfMemory where there was no memory.
#[tactic(auto, using(crate::proofs::GivesFacts::fails_then, crate::proofs::GivesFacts::fails_from), unfolding(dem_model::specs::ReadingScene::scene_from))]
pub fn read_scene(alloc: Global, bytes: &[u8]) -> Result<Scene, SceneFault>
    ensures { Gives result (scene_from bytes.now) }
{
    if bytes.len() > MAX_TEXT {
        return Err(SceneFault::TooLong);
    }
    let value = tree(alloc, bytes)?;
    scene_in(alloc, &value)
}

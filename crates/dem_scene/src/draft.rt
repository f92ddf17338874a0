//! A scene as the table of the text gives it, before its clumps are tested against the limits and the box.

ghost use Rattle.std.specs.Prelude.{◌≡◌, codes, pos, unsigned_abs, IfOk, All};
ghost use Rattle.serde_json.specs.View.{view};
ghost use Rattle.dem_model.specs.Reading.{spot, from_to};
ghost use Rattle.dem_model.specs.ReadingVectors.{vector_at};
ghost use Rattle.dem_model.specs.ReadingScene.{is_later, version_of, check_version, table_of};
ghost use Rattle.dem_model.specs.Sound.{IsFrom, IsBetween, EachBetween, IsClump};
ghost use Rattle.dem_scene.specs.Gives.{Gives};
ghost use Rattle.dem_scene.specs.Table.{KeepsTable};

use crate::clump::read_clumps;
use crate::families::{read_motions, read_off};
use crate::material::read_materials;
use crate::number::{number, small_number, spot, whole};
use crate::object::check_in;
use crate::template::{read_templates, widest};
use crate::vector::{vector_between, vector_or_zero};
use crate::wall::read_walls;
use dem_model::{
    Clump, List, MAX_GRAVITY, MAX_SPEED, MAX_SPIN, MAX_STEPS, MAX_VOXELS, Material, Motion, Name,
    Off, Scene, SceneFault, Spot, Template, Wall,
};
use dem_num::Vec3;
use serde_json::Value;
use std::alloc::Global;
use std::marker::Model;

/// A scene whose clumps may be too fast or outside the box.
#[derive(Drop)]
pub(crate) struct Draft {
    pub(crate) nx: u32,
    pub(crate) ny: u32,
    pub(crate) nz: u32,
    pub(crate) steps: u32,
    pub(crate) every: u32,
    pub(crate) speed: u64,
    pub(crate) spin: u64,
    pub(crate) gravity: Vec3,
    pub(crate) materials: List<Material>,
    pub(crate) templates: List<Template>,
    pub(crate) walls: List<Wall>,
    pub(crate) clumps: List<Clump>,
    pub(crate) motions: List<Motion>,
    pub(crate) off: List<Off>,
}

impl Model for Draft {
    ghost use Rattle.dem_model.specs.SceneValue.{SceneValue};

    ghost Value = { SceneValue };

    ghost view = { λ a. record {
      nx = a.nx;
      ny = a.ny;
      nz = a.nz;
      steps = a.steps;
      every = a.every;
      speed = a.speed;
      spin = a.spin;
      gravity = a.gravity;
      materials = a.materials;
      templates = a.templates;
      walls = a.walls;
      clumps = a.clumps;
      motions = a.motions;
      off = a.off;
    } };
}

/// Whether a scene is one of version 2.
#[tactic(auto, unfolding(dem_model::specs::ReadingScene::is_later))]
fn is_later(value: &Value) -> bool
    ensures { result ≡ is_later (view value.now) }
{
    match value.get("version").and_then(Value::as_i64) {
        Some(number) => number == 2,
        None => false,
    }
}

/// The version is 1 or 2.
#[tactic(auto, unfolding(dem_model::specs::ReadingScene::version_of))]
fn version(value: &Value, at: Spot) -> Result<(), SceneFault>
    ensures { result ≡ version_of at (view value.now) }
{
    let number = whole(value, at)?;
    if number == 1 || number == 2 {
        Ok(())
    } else {
        Err(SceneFault::Version)
    }
}

/// The version of the scene object is 1 or 2.
#[tactic(auto, unfolding(dem_model::specs::ReadingScene::check_version))]
fn check_version(value: &Value) -> Result<(), SceneFault>
    ensures { result ≡ check_version (view value.now) }
{
    let at = spot(Name::Version, 0, 0);
    match value.get("version") {
        Some(v) => version(v, at),
        None => Err(SceneFault::Field { which: at }),
    }
}

/// The box: the voxels on each axis.
fn size(value: &Value) -> Result<Vec3, SceneFault>
    ensures value { result ≡ vector_at (codes "box") (from_to 1 MAX_VOXELS) (spot Name.Box 0 0) (view value.now) }
    ensures range { IfOk result (EachBetween (pos 1) (pos MAX_VOXELS)) }
{
    vector_between(
        value,
        "box",
        1,
        u64::from(MAX_VOXELS),
        spot(Name::Box, 0, 0),
    )
}

/// The voxels on one axis.
fn voxels(z: i64) -> u32
    requires { IsBetween (pos 1) (pos MAX_VOXELS) z }
    ensures value { result ≡ unsigned_abs z }
    ensures range { IsFrom 1 MAX_VOXELS result }
{
    z.unsigned_abs() as u32
}

/// The table of a scene text, from top to bottom.
#[tactic(auto, using(crate::proofs::GivesFacts::fails_then, crate::proofs::GivesFacts::fails_from), unfolding(dem_model::specs::ReadingScene::table_of, dem_model::specs::Spheres::spheres_of))]
pub(crate) fn table(alloc: Global, value: &Value) -> Result<Draft, SceneFault>
    ensures value { Gives result (table_of (view value.now)) }
    ensures range { IfOk result KeepsTable }
{
    let later = is_later(value);
    check_in(later, value, spot(Name::Scene, 0, 0))?;
    check_version(value)?;
    let size = size(value)?;
    let steps = small_number(value, "steps", 0, MAX_STEPS, spot(Name::Steps, 0, 0))?;
    let every = small_number(value, "every", 1, MAX_STEPS, spot(Name::Every, 0, 0))?;
    let speed = number(value, "speed", 1, MAX_SPEED, spot(Name::Speed, 0, 0))?;
    let spin = number(value, "spin", 1, MAX_SPIN, spot(Name::Spin, 0, 0))?;
    let gravity = vector_or_zero(value, "gravity", MAX_GRAVITY, spot(Name::Gravity, 0, 0))?;
    let materials = read_materials(alloc, value)?;
    let count = materials.len() as u32;
    let templates = read_templates(alloc, value, count)?;
    let walls = read_walls(alloc, value, count, widest(templates.as_slice()))?;
    let motions = read_motions(alloc, value)?;
    let off = read_off(alloc, value)?;
    let clumps = read_clumps(alloc, later, &templates, value)?;
    Ok(Draft {
        nx: voxels(size.x),
        ny: voxels(size.y),
        nz: voxels(size.z),
        steps,
        every,
        speed,
        spin,
        gravity,
        materials,
        templates,
        walls,
        clumps,
        motions,
        off,
    })
}

/// The scene, where each clump is within the limits and in the box.
#[tactic(auto, using(crate::proofs::TableFacts::sound_from_table))]
pub(crate) fn scene(draft: Draft) -> Scene
    requires ranges { KeepsTable draft }
    requires clumps { All (IsClump draft) draft.clumps }
    ensures { result ≡ draft }
{
    let Draft {
        nx,
        ny,
        nz,
        steps,
        every,
        speed,
        spin,
        gravity,
        materials,
        templates,
        walls,
        clumps,
        motions,
        off,
    } = draft;
    Scene {
        nx,
        ny,
        nz,
        steps,
        every,
        speed,
        spin,
        gravity,
        materials,
        templates,
        walls,
        clumps,
        motions,
        off,
    }
}

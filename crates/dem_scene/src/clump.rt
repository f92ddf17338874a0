//! The clumps of a scene text, one after the other, with the spheres of those before counted.

ghost use Rattle.std.specs.Prelude.{◌≡◌, ◌+◌, ◌<◌, ◌≤◌, ◌^◌, All, IfOk, OnOk, length};
ghost use Rattle.serde_json.specs.View.{view, items_view};
ghost use Rattle.dem_model.specs.Spheres.{spheres_from};
ghost use Rattle.dem_model.specs.ReadingKinds.{ball_count, check_total, clump_of, clumps_from};
ghost use Rattle.dem_model.specs.ReadingScene.{clumps_of, clumps_at};
ghost use Rattle.dem_model.specs.Sound.{IsFrom};
ghost use Rattle.dem_scene.specs.Gives.{Gives};
ghost use Rattle.dem_scene.specs.Clumps.{IsClumpRead};

use crate::number::{index, small_number_or_zero, spot};
use crate::object::check_in;
use crate::vector::{quaternion_or_default, vector_between, vector_or_zero};
use dem_model::{
    Body, Clump, List, MAX_CLUMPS, MAX_FAMILY, MAX_POINT, MAX_SPEED, MAX_SPHERES, MAX_SPIN, Name,
    SceneFault, Spot, Template,
};
use serde_json::Value;
use std::alloc::Global;

/// The number of spheres of a template.
#[tactic(auto, unfolding(dem_model::specs::ReadingKinds::ball_count, dem_model::specs::Spheres::balls_of))]
fn balls(templates: &List<Template>, t: u32) -> usize
    requires { t < length templates.now }
    ensures { result ≡ ball_count templates.now t }
{
    templates.get(t as usize).balls.len()
}

/// No more spheres than a scene may have, where so many are added to those before.
#[tactic(auto, unfolding(dem_model::specs::ReadingKinds::check_total))]
fn total(before: usize, more: usize, at: Spot) -> Result<(), SceneFault>
    requires { before ≤ MAX_SPHERES }
    ensures value { result ≡ check_total (before + more) at }
    ensures room { OnOk result (before + more ≤ MAX_SPHERES) }
{
    if more <= MAX_SPHERES - before {
        Ok(())
    } else {
        Err(SceneFault::Count { which: at })
    }
}

/// A clump: its template, its family, and its body at the start.
#[tactic(auto, unfolding(dem_model::specs::ReadingKinds::clump_of))]
fn clump(
    later: bool,
    value: &Value,
    templates: &List<Template>,
    before: usize,
    i: u32,
) -> Result<Clump, SceneFault>
    requires few { length templates.now < 2 ^ 32 }
    requires room { before ≤ MAX_SPHERES }
    ensures value { result ≡ clump_of later templates.now before i (view value.now) }
    ensures range { IfOk result (IsClumpRead templates.now) }
    ensures total { IfOk result (λ c. before + ball_count templates.now c.t ≤ MAX_SPHERES) }
{
    check_in(later, value, spot(Name::Clumps, i, 0))?;
    let t = index(
        value,
        "t",
        templates.len() as u32,
        spot(Name::ClumpsT, i, 0),
    )?;
    let family = small_number_or_zero(value, "family", MAX_FAMILY, spot(Name::ClumpsFamily, i, 0))?;
    let p = vector_between(value, "p", 0, MAX_POINT - 1, spot(Name::ClumpsP, i, 0))?;
    let v = vector_or_zero(value, "v", MAX_SPEED, spot(Name::ClumpsV, i, 0))?;
    let q = quaternion_or_default(value, "q", spot(Name::ClumpsQ, i, 0))?;
    let w = vector_or_zero(value, "w", MAX_SPIN, spot(Name::ClumpsW, i, 0))?;
    total(before, balls(templates, t), spot(Name::ClumpsTotal, i, 0))?;
    Ok(Clump {
        t,
        family,
        body: Body { p, q, v, w },
    })
}

/// The clumps of a list.
fn clumps_each(
    alloc: Global,
    later: bool,
    templates: &List<Template>,
    values: &[Value],
) -> Result<List<Clump>, SceneFault>
    requires few { length templates.now < 2 ^ 32 }
    requires short { length values.now < 2 ^ 32 }
    ensures value { Gives result (clumps_from later templates.now 0 0 (items_view values.now)) }
    ensures range { IfOk result (All (IsClumpRead templates.now)) }
    ensures count { IfOk result (λ cs. length cs ≡ length values.now) }
    ensures total { IfOk result (λ cs. length (spheres_from templates.now 0 cs) ≤ MAX_SPHERES) }
{
    let mut found = List::new(alloc);
    let mut before = 0;
    for (i, value) in values.iter().enumerate() {
        let item = clump(later, value, templates, before, i as u32)?;
        before += balls(templates, item.t);
        found.push(item)?;
    }
    Ok(found)
}

/// The clumps: a list of a fitting length.
#[tactic(auto, using(crate::proofs::Trees::counts_items), unfolding(dem_model::specs::ReadingScene::clumps_of))]
fn clumps_in(
    alloc: Global,
    later: bool,
    templates: &List<Template>,
    value: &Value,
    at: Spot,
) -> Result<List<Clump>, SceneFault>
    requires { length templates.now < 2 ^ 32 }
    ensures value { Gives result (clumps_of later templates.now at (view value.now)) }
    ensures range { IfOk result (All (IsClumpRead templates.now)) }
    ensures count { IfOk result (λ cs. IsFrom 1 MAX_CLUMPS (length cs)) }
    ensures total { IfOk result (λ cs. length (spheres_from templates.now 0 cs) ≤ MAX_SPHERES) }
{
    let Some(items) = value.as_array() else {
        return Err(SceneFault::Field { which: at });
    };
    if 1 <= items.len() && items.len() <= MAX_CLUMPS {
        clumps_each(alloc, later, templates, items.as_slice())
    } else {
        Err(SceneFault::Count { which: at })
    }
}

/// The clumps of the scene object.
#[tactic(auto, unfolding(dem_model::specs::ReadingScene::clumps_at))]
pub(crate) fn read_clumps(
    alloc: Global,
    later: bool,
    templates: &List<Template>,
    value: &Value,
) -> Result<List<Clump>, SceneFault>
    requires { length templates.now < 2 ^ 32 }
    ensures value { Gives result (clumps_at later templates.now (view value.now)) }
    ensures range { IfOk result (All (IsClumpRead templates.now)) }
    ensures count { IfOk result (λ cs. IsFrom 1 MAX_CLUMPS (length cs)) }
    ensures total { IfOk result (λ cs. length (spheres_from templates.now 0 cs) ≤ MAX_SPHERES) }
{
    let at = spot(Name::Clumps, 0, 0);
    match value.get("clumps") {
        Some(v) => clumps_in(alloc, later, templates, v, at),
        None => Err(SceneFault::Field { which: at }),
    }
}

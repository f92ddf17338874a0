//! A material of a scene text.

ghost use Rattle.std.specs.Prelude.{◌≡◌, codes, IfOk, All, length};
ghost use Rattle.serde_json.specs.View.{view};
ghost use Rattle.dem_model.specs.Reading.{spot, list_at};
ghost use Rattle.dem_model.specs.ReadingKinds.{material_of};
ghost use Rattle.dem_model.specs.Sound.{IsFrom, IsMaterial};
ghost use Rattle.dem_scene.specs.Gives.{Gives};

use crate::list::{ReadItem, list};
use crate::number::{small_number, small_number_or_zero, spot};
use crate::object::check;
use dem_model::{List, MAX_MATERIALS, MAX_RATIO, MAX_STIFFNESS, Material, Name, SceneFault};
use serde_json::Value;
use std::alloc::Global;

/// Reads materials, one by one.
struct Materials;

impl ReadItem for Materials {
    type Item = Material;

    ghost gives = { λ _. material_of };

    ghost keeps = { λ _. IsMaterial };

    #[tactic(auto, using(crate::proofs::GivesFacts::gives_from))]
    fn read(&self, _alloc: Global, i: u32, value: &Value) -> Result<Material, SceneFault> {
        material(value, i)
    }
}

/// The materials of the scene object.
pub(crate) fn read_materials(alloc: Global, value: &Value) -> Result<List<Material>, SceneFault>
    ensures value { Gives result (list_at (codes "materials") 1 MAX_MATERIALS (spot Name.Materials 0 0) material_of
        (view value.now)) }
    ensures range { IfOk result (All IsMaterial) }
    ensures count { IfOk result (λ ms. IsFrom 1 MAX_MATERIALS (length ms)) }
{
    let at = spot(Name::Materials, 0, 0);
    list(alloc, &Materials, value, "materials", 1, MAX_MATERIALS, at)
}

/// A material: stiffness, damping, friction and rolling resistance.
#[tactic(auto, unfolding(dem_model::specs::ReadingKinds::material_of))]
fn material(value: &Value, i: u32) -> Result<Material, SceneFault>
    ensures value { result ≡ material_of i (view value.now) }
    ensures range { IfOk result IsMaterial }
{
    check(value, spot(Name::Materials, i, 0))?;
    let kn = small_number(value, "kn", 1, MAX_STIFFNESS, spot(Name::MaterialsKn, i, 0))?;
    let kt = small_number_or_zero(value, "kt", MAX_STIFFNESS, spot(Name::MaterialsKt, i, 0))?;
    let bn = small_number_or_zero(value, "bn", MAX_RATIO, spot(Name::MaterialsBn, i, 0))?;
    let bt = small_number_or_zero(value, "bt", MAX_RATIO, spot(Name::MaterialsBt, i, 0))?;
    let mu = small_number_or_zero(value, "mu", MAX_RATIO, spot(Name::MaterialsMu, i, 0))?;
    let mr = small_number_or_zero(value, "mr", MAX_RATIO, spot(Name::MaterialsMr, i, 0))?;
    Ok(Material {
        kn,
        kt,
        bn,
        bt,
        mu,
        mr,
    })
}

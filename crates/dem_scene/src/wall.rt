//! A wall of a scene text: a plane or a cylinder.

ghost use Rattle.std.specs.Prelude.{◌≡◌, ◌≤◌, ℕ, codes, IfOk, All, length};
ghost use Rattle.serde_json.specs.View.{view};
ghost use Rattle.dem_model.specs.Reading.{spot, list_or};
ghost use Rattle.dem_model.specs.ReadingKinds.{plane_of, axis_at, cylinder_of, form_at, wall_of};
ghost use Rattle.dem_scene.specs.Gives.{Gives};
ghost use Rattle.dem_scene.specs.Walls.{IsFormBeyond, IsWallBeyond};

use crate::list::{ReadItem, list_or_empty};
use crate::number::{index, number, spot};
use crate::object::check;
use crate::vector::{direction, vector_between};
use dem_model::{
    Axis, Form, List, MAX_CYLINDER, MAX_POINT, MAX_WALLS, Name, SceneFault, Spot, Wall,
};
use serde_json::Value;
use std::alloc::Global;

/// Reads walls, one by one; `widest` is the greatest sphere radius of the templates.
#[derive(Clone, Copy)]
struct Walls {
    materials: u32,
    widest: u32,
}

impl ReadItem for Walls {
    type Item = Wall;

    ghost gives = { λ s. wall_of s.materials s.widest };

    ghost keeps = { λ s. IsWallBeyond s.materials s.widest };

    #[tactic(auto, using(crate::proofs::GivesFacts::gives_from))]
    fn read(&self, _alloc: Global, i: u32, value: &Value) -> Result<Wall, SceneFault> {
        wall(value, self.materials, self.widest, i)
    }
}

/// The walls of the scene object; `widest` is the greatest sphere radius of the templates.
pub(crate) fn read_walls(
    alloc: Global,
    value: &Value,
    materials: u32,
    widest: u32,
) -> Result<List<Wall>, SceneFault>
    ensures value { Gives result (list_or (codes "walls") 0 MAX_WALLS (spot Name.Walls 0 0)
        (wall_of materials widest) (view value.now)) }
    ensures range { IfOk result (All (IsWallBeyond materials widest)) }
    ensures count { IfOk result (λ ws. length ws ≤ MAX_WALLS) }
{
    let at = spot(Name::Walls, 0, 0);
    list_or_empty(
        alloc,
        &Walls { materials, widest },
        value,
        "walls",
        MAX_WALLS,
        at,
    )
}

/// A wall: its form and its material.
#[tactic(auto, unfolding(dem_model::specs::ReadingKinds::wall_of))]
fn wall(value: &Value, materials: u32, widest: u32, i: u32) -> Result<Wall, SceneFault>
    ensures value { result ≡ wall_of materials widest i (view value.now) }
    ensures range { IfOk result (IsWallBeyond materials widest) }
{
    check(value, spot(Name::Walls, i, 0))?;
    let form = form(value, widest, i)?;
    let mat = index(value, "mat", materials, spot(Name::WallsMat, i, 0))?;
    Ok(Wall { form, mat })
}

/// The form of a wall: exactly one of a plane and a cylinder.
#[tactic(auto, unfolding(dem_model::specs::ReadingKinds::form_at))]
fn form(value: &Value, widest: u32, i: u32) -> Result<Form, SceneFault>
    ensures value { result ≡ form_at widest i (view value.now) }
    ensures range { IfOk result (IsFormBeyond widest) }
{
    match (value.get("plane"), value.get("cylinder")) {
        (Some(v), None) => plane(v, i),
        (None, Some(v)) => cylinder(v, widest, i),
        _ => Err(SceneFault::Field {
            which: spot(Name::WallsForm, i, 0),
        }),
    }
}

/// A plane: a point and the direction in which it pushes.
#[tactic(auto, unfolding(dem_model::specs::ReadingKinds::plane_of))]
fn plane(value: &Value, i: u32) -> Result<Form, SceneFault>
    ensures value { result ≡ plane_of i (view value.now) }
    ensures range { (widest : ℕ) → IfOk result (IsFormBeyond widest) }
{
    check(value, spot(Name::WallsPlane, i, 0))?;
    let at = vector_between(value, "at", 0, MAX_POINT, spot(Name::WallsPlaneAt, i, 0))?;
    let dir = direction(value, "dir", spot(Name::WallsPlaneDir, i, 0))?;
    Ok(Form::Plane { at, dir })
}

/// A cylinder: its axis, a point and a radius, which is greater than `widest`.
#[tactic(auto, unfolding(dem_model::specs::ReadingKinds::cylinder_of))]
fn cylinder(value: &Value, widest: u32, i: u32) -> Result<Form, SceneFault>
    ensures value { result ≡ cylinder_of widest i (view value.now) }
    ensures range { IfOk result (IsFormBeyond widest) }
{
    check(value, spot(Name::WallsCylinder, i, 0))?;
    let axis = axis(value, "axis", spot(Name::WallsCylinderAxis, i, 0))?;
    let at = vector_between(value, "at", 0, MAX_POINT, spot(Name::WallsCylinderAt, i, 0))?;
    let r = number(
        value,
        "r",
        u64::from(widest) + 1,
        MAX_CYLINDER,
        spot(Name::WallsCylinderR, i, 0),
    )?;
    Ok(Form::Cylinder { axis, at, r })
}

/// The axis of a name.
#[tactic(auto, unfolding(dem_model::specs::ReadingKinds::axis_at))]
fn axis(value: &Value, name: &str, at: Spot) -> Result<Axis, SceneFault>
    ensures { result ≡ axis_at name.now at (view value.now) }
{
    match value.get(name).and_then(Value::as_str) {
        Some("x") => Ok(Axis::X),
        Some("y") => Ok(Axis::Y),
        Some("z") => Ok(Axis::Z),
        _ => Err(SceneFault::Field { which: at }),
    }
}

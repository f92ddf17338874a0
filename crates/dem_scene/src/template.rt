//! A template of a scene text, and its spheres.

ghost use Rattle.std.specs.Prelude.{◌≡◌, codes, IfOk, All, length};
ghost use Rattle.serde_json.specs.View.{view};
ghost use Rattle.dem_model.specs.Reading.{spot, list_at};
ghost use Rattle.dem_model.specs.ReadingKinds.{sphere_of, template_of, widest_of, greatest_radius};
ghost use Rattle.dem_model.specs.Sound.{IsFrom, IsBall, IsTemplate};
ghost use Rattle.dem_scene.specs.Gives.{Gives};

use crate::list::{ReadItem, list};
use crate::number::{index, number, small_number, spot};
use crate::object::check;
use crate::vector::{vector_between, vector_sized};
use dem_model::{
    Ball, List, MAX_BALLS, MAX_MASS, MAX_MOMENT, MAX_OFFSET, MAX_RADIUS, MAX_TEMPLATES, Name,
    SceneFault, Template,
};
use serde_json::Value;
use std::alloc::Global;

/// Reads the spheres of one template, one by one.
#[derive(Clone, Copy)]
struct Spheres {
    materials: u32,
    template: u32,
}

impl ReadItem for Spheres {
    type Item = Ball;

    ghost gives = { λ s. sphere_of s.materials s.template };

    ghost keeps = { λ s. IsBall s.materials };

    #[tactic(auto, using(crate::proofs::GivesFacts::gives_from))]
    fn read(&self, _alloc: Global, j: u32, value: &Value) -> Result<Ball, SceneFault> {
        sphere(value, self.materials, self.template, j)
    }
}

/// A sphere: its offset, its radius and its material.
#[tactic(auto, unfolding(dem_model::specs::ReadingKinds::sphere_of))]
fn sphere(value: &Value, materials: u32, i: u32, j: u32) -> Result<Ball, SceneFault>
    ensures value { result ≡ sphere_of materials i j (view value.now) }
    ensures range { IfOk result (IsBall materials) }
{
    check(value, spot(Name::TemplatesSpheres, i, j))?;
    let at = vector_sized(
        value,
        "at",
        MAX_OFFSET,
        spot(Name::TemplatesSpheresAt, i, j),
    )?;
    let r = small_number(
        value,
        "r",
        1,
        MAX_RADIUS,
        spot(Name::TemplatesSpheresR, i, j),
    )?;
    let mat = index(
        value,
        "mat",
        materials,
        spot(Name::TemplatesSpheresMat, i, j),
    )?;
    Ok(Ball { at, r, mat })
}

/// Reads templates, one by one.
#[derive(Clone, Copy)]
struct Templates {
    materials: u32,
}

impl ReadItem for Templates {
    type Item = Template;

    ghost gives = { λ s. template_of s.materials };

    ghost keeps = { λ s. IsTemplate s.materials };

    fn read(&self, alloc: Global, i: u32, value: &Value) -> Result<Template, SceneFault> {
        template(alloc, value, self.materials, i)
    }
}

/// The templates of the scene object.
pub(crate) fn read_templates(
    alloc: Global,
    value: &Value,
    materials: u32,
) -> Result<List<Template>, SceneFault>
    ensures value { Gives result (list_at (codes "templates") 1 MAX_TEMPLATES (spot Name.Templates 0 0)
        (template_of materials) (view value.now)) }
    ensures range { IfOk result (All (IsTemplate materials)) }
    ensures count { IfOk result (λ ts. IsFrom 1 MAX_TEMPLATES (length ts)) }
{
    let at = spot(Name::Templates, 0, 0);
    list(
        alloc,
        &Templates { materials },
        value,
        "templates",
        1,
        MAX_TEMPLATES,
        at,
    )
}

/// A template: its mass, its moments of inertia and its spheres.
#[tactic(auto, using(crate::proofs::GivesFacts::fails_then, crate::proofs::GivesFacts::fails_from), unfolding(dem_model::specs::ReadingKinds::template_of))]
fn template(alloc: Global, value: &Value, materials: u32, i: u32) -> Result<Template, SceneFault>
    ensures value { Gives result (template_of materials i (view value.now)) }
    ensures range { IfOk result (IsTemplate materials) }
{
    check(value, spot(Name::Templates, i, 0))?;
    let mass = number(value, "mass", 1, MAX_MASS, spot(Name::TemplatesMass, i, 0))?;
    let moments = vector_between(
        value,
        "moments",
        1,
        MAX_MOMENT,
        spot(Name::TemplatesMoments, i, 0),
    )?;
    let spheres = Spheres {
        materials,
        template: i,
    };
    let balls = list(
        alloc,
        &spheres,
        value,
        "spheres",
        1,
        MAX_BALLS,
        spot(Name::TemplatesSpheres, i, 0),
    )?;
    Ok(Template {
        mass,
        moments,
        balls,
    })
}

/// The greatest of a radius and the radii of some spheres.
#[tactic(auto, unfolding(dem_model::specs::ReadingKinds::widest_of))]
fn widest_ball(r: u32, balls: &[Ball]) -> u32
    ensures { result ≡ widest_of r balls.now }
{
    let mut most = r;
    for ball in balls {
        most = most.max(ball.r);
    }
    most
}

/// The greatest sphere radius of the templates.
#[tactic(auto, unfolding(dem_model::specs::ReadingKinds::greatest_radius))]
pub(crate) fn widest(templates: &[Template]) -> u32
    ensures { result ≡ greatest_radius templates.now }
{
    let mut most = 0;
    for template in templates {
        most = widest_ball(most, template.balls.as_slice());
    }
    most
}

//! The side of a sphere, and the law between a pair.

ghost use Rattle.std.specs.Prelude.{◌≡◌, ◌<◌, ◌≤◌, ◌^◌, length};
ghost use Rattle.dem_num.specs.Rotations.{matrix_of, turned_by, EntriesWithin};
ghost use Rattle.dem_num.specs.Vectors.{widened, Within};
ghost use Rattle.dem_model.specs.Advance.{mass_of};
ghost use Rattle.dem_model.specs.Motion.{AreSound, IsPair};
ghost use Rattle.dem_model.specs.Pairs.{sphere_count};
ghost use Rattle.dem_model.specs.Ranges.{IsFirst, IsLaw};
ghost use Rattle.dem_model.specs.Sound.{IsBodyOf, IsMaterial, IsFrom};
ghost use Rattle.dem_model.specs.Step.{
  clump_of_sphere,
  material_at,
  second_material_of,
  law_of,
  side_of,
  side_at,
};
ghost use Rattle.dem_model.specs.declared.limits.TheConstants.{MAX_MASS};
ghost use Rattle.dem_shape.specs.Matrices.{AreMatrices};

use crate::pushing::mixing::mix;
use crate::touching::pairs::wall_of;
use dem_model::{Body, Law, Material, Pair, Side};
use dem_num::{Rows, Vec3, ZERO};
use dem_shape::{Matrices, Shapes};
use dem_turn::{is_zero, matrix, turned, turned_spin};

/// The side of a sphere: the velocity and the world spin of its clump, its turned offset, its radius, its clump's mass.
pub fn side_of(shapes: &Shapes, body: &Body, sphere: u32) -> Side
    requires sphere { sphere < sphere_count shapes.now }
    requires body { IsBodyOf shapes.now (clump_of_sphere shapes.now sphere) body.now }
    ensures value { result ≡ side_of shapes.now body.now sphere }
    ensures ranges { IsFirst result }
{
    side_with(shapes, body, &matrix(body.q), sphere)
}

/// The side of a sphere, from the body of its clump and the body's matrix.
#[tactic(auto, unfolding(dem_model::specs::Step::side_of, dem_model::specs::Step::side_with))]
fn side_with(shapes: &Shapes, body: &Body, rows: &Rows, sphere: u32) -> Side
    requires sphere { sphere < sphere_count shapes.now }
    requires body { IsBodyOf shapes.now (clump_of_sphere shapes.now sphere) body.now }
    requires rows { rows.now ≡ matrix_of body.now.q }
    requires entries { EntriesWithin rows.now (2 ^ 30) }
    ensures value { result ≡ side_of shapes.now body.now sphere }
    ensures ranges { IsFirst result }
{
    let _scene = shapes.scene();
    let ball = shapes.ball_of(sphere);
    Side {
        v: body.v,
        spin: turned_spin(rows, body.w),
        lever: lever(rows, ball.at),
        r: ball.r,
        mass: mass(shapes, sphere),
        wall: false,
    }
}

/// A sphere's offset in world axes: none where it stands where its clump does.
fn lever(rows: &Rows, at: Vec3) -> Vec3
    requires entries { EntriesWithin rows.now (2 ^ 30) }
    requires offset { Within (widened at) (2 ^ 26) }
    ensures value { widened result ≡ turned_by rows.now (widened at) }
    ensures size { Within (widened result) (2 ^ 28) }
{
    if is_zero(at) { ZERO } else { turned(rows, at) }
}

/// The mass of a sphere's clump.
#[tactic(auto, unfolding(dem_model::specs::Advance::mass_of))]
fn mass(shapes: &Shapes, sphere: u32) -> u64
    requires { sphere < sphere_count shapes.now }
    ensures value { result ≡ mass_of shapes.now.templates (clump_of_sphere shapes.now sphere).t }
    ensures range { IsFrom 1 MAX_MASS result }
{
    let scene = shapes.scene();
    let clump = scene.clumps.get(shapes.clump_of(sphere) as usize);
    scene.templates.get(clump.t as usize).mass
}

/// The law between a pair.
#[tactic(auto, unfolding(dem_model::specs::Step::law_of))]
pub fn law_between(shapes: &Shapes, pair: Pair) -> Law
    requires { IsPair shapes.now pair }
    ensures value { result ≡ law_of shapes.now pair }
    ensures ranges { IsLaw result }
{
    let first = material(shapes, shapes.ball_of(pair.a).mat);
    let second = second_material(shapes, pair);
    mix(&first, &second)
}

/// A material, by its number.
#[tactic(auto, unfolding(dem_model::specs::Step::material_at))]
fn material(shapes: &Shapes, mat: u32) -> Material
    requires { mat < length shapes.now.materials }
    ensures value { result ≡ material_at shapes.now mat }
    ensures range { IsMaterial result }
{
    *shapes.scene().materials.get(mat as usize)
}

/// The material of the second of a pair.
#[tactic(auto, unfolding(dem_model::specs::Step::second_material_of))]
fn second_material(shapes: &Shapes, pair: Pair) -> Material
    requires { IsPair shapes.now pair }
    ensures value { result ≡ second_material_of shapes.now pair }
    ensures range { IsMaterial result }
{
    if pair.b < shapes.spheres() {
        material(shapes, shapes.ball_of(pair.b).mat)
    } else {
        material(shapes, wall_of(shapes, pair.b).mat)
    }
}

/// The side of a sphere, where these are the bodies and their matrices.
#[tactic(auto, unfolding(dem_model::specs::Step::side_at))]
pub fn side_by(shapes: &Shapes, bodies: &[Body], matrices: &Matrices, sphere: u32) -> Side
    requires sphere { sphere < sphere_count shapes.now }
    requires sound { AreSound shapes.now bodies.now }
    requires matrices { AreMatrices shapes.now bodies.now matrices.now }
    ensures value { result ≡ side_at shapes.now bodies.now sphere }
    ensures ranges { IsFirst result }
{
    let clump = shapes.clump_of(sphere);
    let body = &bodies[clump as usize];
    side_with(shapes, body, matrices.get(clump), sphere)
}

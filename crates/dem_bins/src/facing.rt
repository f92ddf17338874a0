//! A cheap refusal of spheres that are far in front of a plane: its unit normal is made once, and not once a sphere.

ghost use Rattle.std.specs.Prelude.{◌≡◌, ◌+◌, ◌^◌, ◌<◌, ◌≤◌, true, false, pos, int_lt, IfSome};
ghost use Rattle.dem_num.specs.Numbers.{shifted};
ghost use Rattle.dem_num.specs.Vectors.{widened, dot_of, difference_of, Within};
ghost use Rattle.dem_model.specs.Motion.{AreInside, IsPair};
ghost use Rattle.dem_model.specs.Near.{near};
ghost use Rattle.dem_model.specs.Pairs.{sphere_count, limit_of, wall_at, pair_of};
ghost use Rattle.dem_bins.specs.Faces.{IsFaceOf};

use dem_force::{center, wall_beside};
use dem_margin::reach;
use dem_model::{Form, Pair};
use dem_num::{Vec3, dot, sh, sub3, widen};
use dem_shape::{Centers, Shapes};
use dem_wall::unit;

/// A plane's point, in u, and its unit normal, times 2^30.
#[derive(Clone, Copy)]
pub struct Face {
    pub at: Vec3,
    pub normal: Vec3,
}

/// The face of a wall, by its number after the spheres; None for a cylinder.
pub fn face_of(shapes: &Shapes, b: u32) -> Option<Face>
    requires later { sphere_count shapes.now ≤ b }
    requires there { b < limit_of shapes.now }
    ensures { IfSome result (IsFaceOf (wall_at shapes.now b)) }
{
    let _scene = shapes.scene();
    let wall = wall_beside(shapes, Pair { a: 0, b });
    match wall.form {
        Form::Plane { at, dir } => Some(Face {
            at,
            normal: unit(dir),
        }),
        Form::Cylinder { .. } => None,
    }
}

/// Whether a sphere is so far in front of a plane that it isn't near it; false of what isn't a plane.
pub fn is_beyond(
    shapes: &Shapes,
    centers: &Centers,
    drift: u32,
    face: &Option<Face>,
    pair: Pair,
) -> bool
    requires centers { AreInside shapes.now centers.now }
    requires drift { drift ≤ 1024 }
    requires first { pair.a < sphere_count shapes.now }
    requires later { sphere_count shapes.now ≤ pair.b }
    requires face { IfSome face.now (IsFaceOf (wall_at shapes.now pair.b)) }
    ensures { result ≡ true → near shapes.now drift centers.now pair ≡ false }
{
    match face {
        Some(face) => is_far(shapes, centers, drift, face, pair),
        None => false,
    }
}

/// Whether the gap in front of a plane is no less than a sphere's radius and three times how far it may move.
fn is_far(shapes: &Shapes, centers: &Centers, drift: u32, face: &Face, pair: Pair) -> bool
    requires centers { AreInside shapes.now centers.now }
    requires drift { drift ≤ 1024 }
    requires first { pair.a < sphere_count shapes.now }
    requires later { sphere_count shapes.now ≤ pair.b }
    requires face { IsFaceOf (wall_at shapes.now pair.b) face.now }
    ensures { result ≡ true → near shapes.now drift centers.now pair ≡ false }
{
    let r = shapes.ball_of(pair.a).r as u64;
    let most = 3 * reach(shapes, drift, pair.a) - 2 * r;
    !is_closer(gap(face, center(shapes, centers, pair.a)), most)
}

/// Whether a gap is less than a distance.
fn is_closer(gap: i128, distance: u64) -> bool
    ensures { result ≡ int_lt gap (pos distance) }
{
    gap < distance as i128
}

/// How far a place is in front of a plane, in u.
fn gap(face: &Face, c: Vec3) -> i128
    requires normal { Within (widened face.now.normal) (2 ^ 30) }
    requires point { Within (widened face.now.at) (2 ^ 36) }
    requires center { Within (widened c) (2 ^ 36) }
    ensures { result ≡ shifted (dot_of (widened face.now.normal) (difference_of (widened c) (widened face.now.at))) 30 }
{
    sh(dot(face.normal, sub3(widen(c), widen(face.at))), 30)
}

//! A body's place and matrix, made once for all spheres of its clump.

ghost use Rattle.std.specs.Prelude.{◌≡◌, ◌<◌, ◌≤◌, ◌^◌, length, true};
ghost use Rattle.dem_num.specs.Vectors.{widened, sum_of, is_zero, Within};
ghost use Rattle.dem_num.specs.Rotations.{EntriesWithin, turned_by};
ghost use Rattle.dem_model.specs.Centers.{placed};
ghost use Rattle.dem_model.specs.Motion.{AreSound};
ghost use Rattle.dem_model.specs.Pairs.{sphere_count, sphere_at};
ghost use Rattle.dem_shape.specs.Pose.{IsPose};

use crate::shapes::Shapes;
use dem_model::Body;
use dem_num::{Rows, Vec3, add3_short};
use dem_turn::{matrix, turned};

/// A clump's number, its position in u, and the matrix of its quaternion.
#[derive(Clone, Copy)]
pub struct Pose {
    pub clump: u32,
    pub p: Vec3,
    pub rows: Rows,
}

impl Pose {
    /// The pose of a clump's body.
    pub fn new(shapes: &Shapes, bodies: &[Body], clump: u32) -> Pose
        requires sound { AreSound shapes.now bodies.now }
        requires there { clump < length shapes.now.clumps }
        ensures { IsPose shapes.now bodies.now clump result }
    {
        let _scene = shapes.scene();
        let body = bodies[clump as usize];
        Pose {
            clump,
            p: body.p,
            rows: matrix(body.q),
        }
    }

    /// This pose, if it is that of the sphere's clump, else that of the sphere's clump.
    pub fn for_sphere(self, shapes: &Shapes, bodies: &[Body], s: u32) -> Pose
        requires sound { AreSound shapes.now bodies.now }
        requires sphere { s < sphere_count shapes.now }
        requires pose { IsPose shapes.now bodies.now self.clump self }
        ensures { IsPose shapes.now bodies.now (sphere_at shapes.now s).clump result }
    {
        let clump = shapes.clump_of(s);
        if clump == self.clump {
            self
        } else {
            Pose::new(shapes, bodies, clump)
        }
    }

    /// The center of a sphere of the clump, in u.
    pub fn center(&self, shapes: &Shapes, bodies: &[Body], s: u32) -> Vec3
        requires sphere { s < sphere_count shapes.now }
        requires pose { IsPose shapes.now bodies.now (sphere_at shapes.now s).clump self.now }
        ensures { result ≡ placed bodies.now (sphere_at shapes.now s) }
    {
        let ball = shapes.ball_of(s);
        sphere_center(self.p, &self.rows, ball.at)
    }
}

/// The center of a sphere that stands where its clump does, however the clump is turned.
pub fn own_place(shapes: &Shapes, bodies: &[Body], s: u32) -> Vec3
    requires sound { AreSound shapes.now bodies.now }
    requires sphere { s < sphere_count shapes.now }
    requires offset { is_zero (widened (sphere_at shapes.now s).ball.at) ≡ true }
    ensures { result ≡ placed bodies.now (sphere_at shapes.now s) }
{
    let _scene = shapes.scene();
    bodies[shapes.clump_of(s) as usize].p
}

/// The center of a sphere, from its clump's place and matrix and its own offset, in u.
pub fn sphere_center(p: Vec3, rows: &Rows, at: Vec3) -> Vec3
    requires place { Within (widened p) (2 ^ 37) }
    requires entries { EntriesWithin rows.now (2 ^ 30) }
    requires offset { Within (widened at) (2 ^ 26) }
    ensures { widened result ≡ sum_of (widened p) (turned_by rows.now (widened at)) }
{
    add3_short(p, turned(rows, at))
}

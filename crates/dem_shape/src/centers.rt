//! The centers of all spheres in a state.

ghost use Rattle.std.specs.Prelude.{ℕ, ◌≡◌, ◌≢◌, ◌<◌, length, IfOk};
ghost use Rattle.dem_num.specs.Vectors.{narrowed};
ghost use Rattle.dem_model.specs.Centers.{centers_of, center_at, placed};
ghost use Rattle.dem_model.specs.Motion.{AreSound};
ghost use Rattle.dem_model.specs.Pairs.{sphere_count, sphere_at};
ghost use Rattle.dem_model.specs.Sound.{IsBodyOf};
ghost use Rattle.dem_model.specs.Spheres.{center_of};
ghost use Rattle.dem_model.specs.Step.{clump_at};
ghost use Rattle.dem_shape.specs.Matrices.{AreMatrices};

use crate::matrices::Matrices;
use crate::pose::{Pose, own_place, sphere_center};
use crate::shapes::Shapes;
use dem_model::{Body, OutOfMemory};
use dem_num::{Vec3, ZERO};
use dem_turn::{is_zero, matrix};
use std::alloc::Global;
use std::marker::Model;

/// A center per sphere, in u, in the order of the spheres' numbers.
#[derive(Drop)]
pub struct Centers {
    items: Vec<Vec3>,
}

impl Model for Centers {
    ghost use Rattle.std.specs.Prelude.{List};
    ghost use Rattle.dem_num.specs.declared.vector.Vec3.{Vec3};

    ghost Value = { List Vec3 };

    ghost view = { λ a. a.items.items };
}

impl Centers {
    /// Room for the centers of these shapes.
    pub fn new(alloc: Global, shapes: &Shapes) -> Result<Centers, OutOfMemory>
        ensures { IfOk result (λ x. length x ≡ sphere_count shapes.now) }
    {
        let mut items = Vec::new(alloc);
        for _ in 0..shapes.spheres() {
            if items.push(ZERO).is_err() {
                return Err(OutOfMemory);
            }
        }
        Ok(Centers { items })
    }

    /// Sets every center to where the bodies put it.
    pub fn fill(&mut self, shapes: &Shapes, bodies: &[Body])
        requires made { length self.old ≡ sphere_count shapes.now }
        requires sound { AreSound shapes.now bodies.now }
        ensures { self.new ≡ centers_of shapes.now bodies.now }
    {
        let _scene = shapes.scene();
        let mut pose = Pose::new(shapes, bodies, 0);
        for s in 0..shapes.spheres() {
            if is_zero(shapes.ball_of(s).at) {
                self.items[s as usize] = own_place(shapes, bodies, s);
            } else {
                pose = pose.for_sphere(shapes, bodies, s);
                self.items[s as usize] = pose.center(shapes, bodies, s);
            }
        }
    }

    /// The same, by the matrices of these bodies.
    pub fn fill_by(&mut self, shapes: &Shapes, bodies: &[Body], matrices: &Matrices)
        requires made { length self.old ≡ sphere_count shapes.now }
        requires sound { AreSound shapes.now bodies.now }
        requires matrices { AreMatrices shapes.now bodies.now matrices.now }
        ensures { self.new ≡ centers_of shapes.now bodies.now }
    {
        for s in 0..shapes.spheres() {
            self.items[s as usize] = place_by(shapes, bodies, matrices, s);
        }
    }

    /// Sets the centers of one clump's spheres to where this body puts them; all others stay. It goes through the table of
    /// spheres once.
    pub fn put(&mut self, shapes: &Shapes, clump: u32, body: &Body)
        requires made { length self.old ≡ sphere_count shapes.now }
        requires there { clump < length shapes.now.clumps }
        requires sound { IsBodyOf shapes.now (clump_at shapes.now clump) body.now }
        ensures count { length self.new ≡ length self.old }
        ensures own { (i : ℕ) → i < sphere_count shapes.now → (sphere_at shapes.now i).clump ≡ clump
            → center_at self.new i ≡ narrowed (center_of body.now (sphere_at shapes.now i).ball) }
        ensures others { (i : ℕ) → i < sphere_count shapes.now → (sphere_at shapes.now i).clump ≢ clump → center_at self.new i ≡ center_at self.old i }
    {
        let _scene = shapes.scene();
        let rows = matrix(body.q);
        for s in 0..shapes.spheres() {
            if shapes.clump_of(s) == clump {
                self.items[s as usize] = sphere_center(body.p, &rows, shapes.ball_of(s).at);
            }
        }
    }

    /// The center of a sphere, in u.
    #[tactic(auto, unfolding(dem_model::specs::Centers::center_at))]
    pub fn get(&self, s: u32) -> Vec3
        requires { s < length self.now }
        ensures { result ≡ center_at self.now s }
    {
        self.items[s as usize]
    }
}

/// The center of a sphere, in u, where these are the matrices of the bodies.
fn place_by(shapes: &Shapes, bodies: &[Body], matrices: &Matrices, s: u32) -> Vec3
    requires sound { AreSound shapes.now bodies.now }
    requires matrices { AreMatrices shapes.now bodies.now matrices.now }
    requires sphere { s < sphere_count shapes.now }
    ensures { result ≡ placed bodies.now (sphere_at shapes.now s) }
{
    if is_zero(shapes.ball_of(s).at) {
        own_place(shapes, bodies, s)
    } else {
        turned_place(shapes, bodies, matrices, s)
    }
}

/// The center of a sphere, in u, by its turned offset.
fn turned_place(shapes: &Shapes, bodies: &[Body], matrices: &Matrices, s: u32) -> Vec3
    requires sound { AreSound shapes.now bodies.now }
    requires matrices { AreMatrices shapes.now bodies.now matrices.now }
    requires sphere { s < sphere_count shapes.now }
    ensures { result ≡ placed bodies.now (sphere_at shapes.now s) }
{
    let _scene = shapes.scene();
    let clump = shapes.clump_of(s);
    let ball = shapes.ball_of(s);
    sphere_center(bodies[clump as usize].p, matrices.get(clump), ball.at)
}

//! The bodies of a run as it stores them: each position by its voxel and its offset there.

ghost use Rattle.std.specs.Prelude.{◌≡◌, ◌<◌, length, slice_get, Some, IfOk, IsTrue};
ghost use Rattle.dem_num.specs.Vectors.{widened};
ghost use Rattle.dem_model.specs.Centers.{body_at};
ghost use Rattle.dem_model.specs.Plain.{first_state};
ghost use Rattle.dem_model.specs.Position.{in_box};
ghost use Rattle.dem_voxel.specs.Voxel.{packed, unpacked};
ghost use Rattle.dem_step.specs.Stored.{body_of};

use dem_model::{Body, List, OutOfMemory};
use dem_num::{Quat, Vec3};
use dem_shape::Shapes;
use dem_voxel::{VoxelPos, pack, unpack};
use std::alloc::Global;
use std::marker::Model;

/// A body whose position is in the stored form.
#[derive(Clone, Copy)]
pub struct Stored {
    pub at: VoxelPos,
    pub q: Quat,
    pub v: Vec3,
    pub w: Vec3,
}

/// The bodies of all clumps, each stored by its voxel and its offset there; contracts see the bodies.
#[derive(Drop)]
pub struct StoredBodies {
    pub items: Vec<Stored>,
}

impl Model for StoredBodies {
    ghost use Rattle.std.specs.Prelude.{List as Seq, map};
    ghost use Rattle.dem_model.specs.declared.state.Body.{Body};
    ghost use Rattle.dem_step.specs.Stored.{body_of};

    ghost Value = { Seq Body };

    ghost view = { λ a. map body_of a.items.items };
}

impl StoredBodies {
    /// The bodies of the clumps at the start.
    pub fn new(alloc: Global, shapes: &Shapes) -> Result<StoredBodies, OutOfMemory>
        ensures { IfOk result (λ bodies. bodies ≡ (first_state shapes.now).bodies) }
    {
        let mut items = Vec::new(alloc);
        for clump in shapes.scene().clumps.as_slice() {
            if let Err(_) = items.push(store(place(shapes, &clump.body), &clump.body)) {
                return Err(OutOfMemory);
            }
        }
        Ok(StoredBodies { items })
    }

    /// The body of a clump.
    pub fn get(&self, k: usize) -> Body
        requires { k < length self.now }
        ensures { slice_get self.now k ≡ Some result }
    {
        restore(&self.items[k])
    }

    /// The stored position of a clump.
    pub fn voxel(&self, k: usize) -> VoxelPos
        requires { k < length self.now }
        ensures value { result ≡ packed (widened (body_at self.now k).p) }
        ensures place { unpacked result ≡ widened (body_at self.now k).p }
    {
        let at = self.items[k].at;
        let _place = unpack(at);
        at
    }

    /// Copies all bodies into room for as many.
    pub fn unpack_into(&self, bodies: &mut List<Body>)
        requires { length bodies.old ≡ length self.now }
        ensures { bodies.new ≡ self.now }
    {
        for k in 0..self.items.len() {
            bodies.set(k, self.get(k));
        }
    }
}

/// The stored form of a body's position in the box.
fn place(shapes: &Shapes, body: &Body) -> VoxelPos
    requires { IsTrue (in_box shapes.now (widened body.now.p)) }
    ensures { unpacked result ≡ widened body.now.p }
{
    let _scene = shapes.scene();
    pack(body.p)
}

/// The stored form of a body, from that of its position.
pub fn store(at: VoxelPos, body: &Body) -> Stored
    requires { unpacked at ≡ widened body.now.p }
    ensures { body_of result ≡ body.now }
{
    Stored {
        at,
        q: body.q,
        v: body.v,
        w: body.w,
    }
}

/// The body of a stored form.
fn restore(x: &Stored) -> Body
    ensures { result ≡ body_of x.now }
{
    Body {
        p: unpack(x.at),
        q: x.q,
        v: x.v,
        w: x.w,
    }
}

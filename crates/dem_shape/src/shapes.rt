//! The table of spheres of a scene, in the order of their numbers.

ghost use Rattle.std.specs.Prelude.{◌≡◌, ◌<◌, ◌≤◌, ◌↔◌, ◌++◌, ◌^◌, true, length, map, OnOk, IfOk, IfSome};
ghost use Rattle.std.specs.List.{Contains};
ghost use Rattle.dem_num.specs.Vectors.{widened, Within};
ghost use Rattle.dem_num.specs.Rotations.{arm_of};
ghost use Rattle.dem_model.specs.Motion.{per_step_of, IsSphere};
ghost use Rattle.dem_model.specs.Families.{family_of, motion_of};
ghost use Rattle.dem_model.specs.Pairs.{sphere_count, sphere_at, wall_at, limit_of, pair_of, clumps_meet, apart, all_pairs};
ghost use Rattle.dem_model.specs.Sound.{IsSound, IsBall, IsMotion};
ghost use Rattle.dem_model.specs.Spheres.{spheres_of_clump};
ghost use Rattle.dem_shape.specs.Kin.{IsKin};
ghost use Rattle.dem_shape.specs.Table.{table_entry_of, AreNormals};
ghost use Rattle.dem_wall.specs.Normal.{wall_normal_of};

use crate::apart::is_apart;
use crate::entry::Entry;
use crate::families::{Kin, has_bit, motion_for};
use dem_model::{Ball, Motion, OutOfMemory, Pair, Scene};
use dem_num::Vec3;
use dem_wall::wall_normal;
use std::alloc::Global;
use std::marker::Model;

/// The spheres of a scene, numbered through all clumps in order, and inside a clump in the template's order.
#[derive(Drop)]
pub struct Shapes<'s> {
    scene: &'s Scene,
    entries: Vec<Entry>,
    normals: Vec<Vec3>,
}

impl<'s> Model for Shapes<'s> {
    ghost use Rattle.dem_model.specs.SceneValue.{SceneValue};
    ghost use Rattle.dem_shape.specs.Table.{AreTables};

    ghost Value = { SceneValue };

    ghost view = { λ a. a.scene.now };

    ghost invariant = { λ a. AreTables a.scene.now a.entries.items a.normals.items };
}

impl<'s> Shapes<'s> {
    /// The table of a scene.
    pub fn new(alloc: Global, scene: &'s Scene) -> Result<Shapes<'s>, OutOfMemory>
        ensures { IfOk result (λ x. x ≡ scene.now) }
    {
        let normals = wall_normals(alloc, scene)?;
        let mut entries = Vec::new(alloc);
        for k in 0..scene.clumps.len() {
            let kin = Kin::new(scene, k as u32);
            add_clump(&mut entries, scene, k as u32, kin, scene.clumps.get(k).t)?;
        }
        Ok(Shapes {
            scene,
            entries,
            normals,
        })
    }

    /// The scene.
    pub fn scene(&self) -> &Scene
        ensures value { result.now ≡ self.now }
        ensures sound { IsSound self.now }
    {
        self.scene
    }

    /// The number of spheres.
    pub fn spheres(&self) -> u32
        ensures { result ≡ sphere_count self.now }
    {
        self.entries.len() as u32
    }

    /// The number of walls.
    pub fn walls(&self) -> u32
        ensures { result ≡ length self.now.walls }
    {
        let scene = self.scene;
        scene.walls.len() as u32
    }

    /// The clump of a sphere.
    pub fn clump_of(&self, s: u32) -> u32
        requires { s < sphere_count self.now }
        ensures value { result ≡ (sphere_at self.now s).clump }
        ensures within { result < length self.now.clumps }
    {
        self.entry(s).clump
    }

    /// What the template says of a sphere.
    pub fn ball_of(&self, s: u32) -> Ball
        requires { s < sphere_count self.now }
        ensures value { result ≡ (sphere_at self.now s).ball }
        ensures within { IsBall (length self.now.materials) result }
    {
        self.entry(s).ball
    }

    /// The arm of a sphere, in u.
    pub fn arm(&self, s: u32) -> u64
        requires { s < sphere_count self.now }
        ensures { result ≡ arm_of (widened (sphere_at self.now s).ball.at) }
    {
        self.entry(s).arm
    }

    /// How far a sphere may move in one step per axis, in u: with its clump at the speed limit, and by the swing of its arm.
    pub fn per_step(&self, s: u32) -> u64
        requires { s < sphere_count self.now }
        ensures value { result ≡ per_step_of self.now (sphere_at self.now s).ball }
        ensures size { result ≤ 2 ^ 27 }
    {
        let _scene = self.scene();
        self.entry(s).per_step
    }

    /// The unit normal of a wall, times 2^30, by the wall's number after the spheres; zeros for a cylinder.
    pub fn wall_normal(&self, b: u32) -> Vec3
        requires later { sphere_count self.now ≤ b }
        requires there { b < limit_of self.now }
        ensures value { result ≡ wall_normal_of (wall_at self.now b) }
        ensures size { Within (widened result) (2 ^ 30) }
    {
        self.normals[(b - self.spheres()) as usize]
    }

    /// The family of a clump, from 0 to 15.
    pub fn family_of(&self, clump: u32) -> u32
        requires { clump < length self.now.clumps }
        ensures value { result ≡ family_of self.now clump }
        ensures within { result ≤ 15 }
    {
        let scene = self.scene();
        scene.clumps.get(clump as usize).family
    }

    /// The motion that is prescribed to a clump's family, if there is one.
    pub fn motion(&self, clump: u32) -> Option<Motion>
        requires { clump < length self.now.clumps }
        ensures value { result ≡ motion_of self.now clump }
        ensures within { IfSome result IsMotion }
    {
        let scene = self.scene();
        motion_for(&scene.motions, self.family_of(clump))
    }

    /// Whether a sphere and a later sphere or wall may touch: a wall, or a sphere of another clump whose family isn't off with that of the first.
    pub fn meets(&self, a: u32, b: u32) -> bool
        requires first { a < sphere_count self.now }
        requires later { a < b }
        requires there { b < limit_of self.now }
        ensures value { result ≡ apart self.now (pair_of a b) }
        ensures listed { result ≡ true ↔ Contains (all_pairs self.now) (pair_of a b) }
    {
        is_apart(self, Pair { a, b })
    }

    /// Whether two spheres are of clumps that may meet: the clumps differ, and their families aren't off with each other.
    pub fn clumps_meet(&self, a: u32, b: u32) -> bool
        requires first { a < sphere_count self.now }
        requires second { b < sphere_count self.now }
        ensures { result ≡ clumps_meet self.now (sphere_at self.now a).clump (sphere_at self.now b).clump }
    {
        let _scene = self.scene();
        let first = self.entry(a);
        let second = self.entry(b);
        first.clump != second.clump && !has_bit(first.offs, second.family)
    }

    /// What the table keeps of a sphere.
    fn entry(&self, s: u32) -> Entry
        requires { s < sphere_count self.now }
        ensures value { result ≡ table_entry_of self.now (sphere_at self.now s) }
        ensures sound { IsSphere self.now (sphere_at self.now s) }
    {
        self.entries[s as usize]
    }
}

/// The unit normals of a scene's walls.
fn wall_normals(alloc: Global, scene: &Scene) -> Result<Vec<Vec3>, OutOfMemory>
    ensures { IfOk result (λ x. AreNormals scene.now.walls x.items) }
{
    let mut normals = Vec::new(alloc);
    for wall in scene.walls.as_slice() {
        if normals.push(wall_normal(wall)).is_err() {
            return Err(OutOfMemory);
        }
    }
    Ok(normals)
}

/// Adds the spheres of one clump to the table.
fn add_clump(
    entries: &mut Vec<Entry>,
    scene: &Scene,
    clump: u32,
    kin: Kin,
    t: u32,
) -> Result<(), OutOfMemory>
    requires template { t < length scene.now.templates }
    requires kin { IsKin scene.now clump kin }
    ensures { OnOk result (entries.new.items ≡ entries.old.items ++ map (table_entry_of scene.now) (spheres_of_clump scene.now.templates clump t)) }
{
    for ball in scene.templates.get(t as usize).balls.as_slice() {
        if entries.push(Entry::new(scene, clump, kin, *ball)).is_err() {
            return Err(OutOfMemory);
        }
    }
    Ok(())
}

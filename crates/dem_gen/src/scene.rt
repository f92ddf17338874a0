//! The made scene.
ghost use Rattle.std.specs.Prelude.{◌≡◌, ◌≤◌, [], ◌∷◌, IfOk};
ghost use Rattle.dem_model.specs.Made.{made_floor, made_material, made_of};

use crate::clump::clumps;
use crate::cube::edge;
use crate::template::templates;
use dem_model::{Form, List, Material, OutOfMemory, Scene, Wall};
use dem_num::Vec3;
use rand_core::SeedableRng;
use rand_xoshiro::SplitMix64;
use std::alloc::Global;

/// The made scene of a seed, with `count` clumps, 1 to 16,384.
///
/// Spheres of four radii, 1,000,000 to 1,032,767 u, each in a cell of its own of a cube of cells above a plane, with velocities of at most
/// 8,388,608 on each axis; 100 steps under gravity. Two calls with the same numbers give the same scene.
#[tactic(auto, unfolding(dem_model::specs::Made::made_of))]
pub fn made_scene(alloc: Global, seed: u64, count: u32) -> Result<Scene, OutOfMemory>
    requires some { 1 ≤ count }
    requires many { count ≤ 16384 }
    ensures { IfOk result (λ scene. scene ≡ made_of seed count) }
{
    let mut words = SplitMix64::seed_from_u64(seed);
    let templates = templates(alloc, &mut words)?;
    let edge = edge(u64::from(count));
    let clumps = clumps(alloc, &mut words, edge, count)?;
    let materials = materials(alloc)?;
    let walls = walls(alloc)?;
    let voxels = 32 * (edge + 2) as u32;
    Ok(Scene {
        nx: voxels,
        ny: voxels,
        nz: voxels,
        steps: 100,
        every: 100,
        speed: 134_217_728,
        spin: 1_048_576,
        gravity: Vec3 {
            x: 0,
            y: 0,
            z: -642,
        },
        materials,
        templates,
        walls,
        clumps,
        motions: List::new(alloc),
        off: List::new(alloc),
    })
}

// The one material.
fn materials(alloc: Global) -> Result<List<Material>, OutOfMemory>
    ensures { IfOk result (λ ms. ms ≡ made_material ∷ []) }
{
    let mut materials = List::new(alloc);
    materials.push(Material {
        kn: 45_000_000,
        kt: 50_000_000,
        bn: 26_214,
        bt: 26_214,
        mu: 32_768,
        mr: 0,
    })?;
    Ok(materials)
}

// The floor alone.
fn walls(alloc: Global) -> Result<List<Wall>, OutOfMemory>
    ensures { IfOk result (λ ws. ws ≡ made_floor ∷ []) }
{
    let mut walls = List::new(alloc);
    walls.push(Wall {
        form: Form::Plane {
            at: Vec3 {
                x: 0,
                y: 0,
                z: 2_097_152,
            },
            dir: Vec3 { x: 0, y: 0, z: 1 },
        },
        mat: 0,
    })?;
    Ok(walls)
}

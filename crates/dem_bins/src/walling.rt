//! The near pairs of walls: each wall with every sphere.

ghost use Rattle.std.specs.Prelude.{◌≡◌, ◌+◌, ◌*◌, ◌^◌, ◌<◌, ◌≤◌, ◌++◌, OnOk, IfSome, length};
ghost use Rattle.dem_model.specs.Motion.{AreInside};
ghost use Rattle.dem_model.specs.Pairs.{sphere_count, limit_of, wall_at};
ghost use Rattle.dem_margin.specs.NearList.{pair_if_near};
ghost use Rattle.dem_bins.specs.Faces.{IsFaceOf};
ghost use Rattle.dem_bins.specs.Walk.{wall_found, walls_found};

use crate::facing::{Face, face_of, is_beyond};
use dem_list::RawPairs;
use dem_margin::add_near;
use dem_model::{OutOfMemory, Pair, Steps};
use dem_shape::{Centers, Shapes};
use std::sync::ledger::Ledger;

/// Adds the near pairs of all walls; it counts a test for each sphere and wall.
pub fn add_walls<L: Ledger>(
    raw: &mut RawPairs,
    shapes: &Shapes,
    centers: &Centers,
    drift: u32,
    tests: &mut Steps<L>,
) -> Result<(), OutOfMemory>
    requires centers { AreInside shapes.now centers.now }
    requires drift { drift ≤ 1024 }
    requires room { length raw.old.pairs + sphere_count shapes.now * length shapes.now.walls + 1 < 2 ^ 32 }
    ensures found { OnOk result (raw.new.pairs ≡ raw.old.pairs ++ walls_found shapes.now drift centers.now) }
    ensures from { raw.new.from ≡ raw.old.from }
    ensures counted { tests.new ≤ tests.old + sphere_count shapes.now * length shapes.now.walls }
{
    let _scene = shapes.scene();
    let spheres = shapes.spheres();
    for b in spheres..spheres + shapes.walls() {
        add_wall(raw, shapes, centers, drift, b, tests)?;
    }
    Ok(())
}

/// Adds the near pairs of one wall.
fn add_wall<L: Ledger>(
    raw: &mut RawPairs,
    shapes: &Shapes,
    centers: &Centers,
    drift: u32,
    b: u32,
    tests: &mut Steps<L>,
) -> Result<(), OutOfMemory>
    requires centers { AreInside shapes.now centers.now }
    requires drift { drift ≤ 1024 }
    requires later { sphere_count shapes.now ≤ b }
    requires there { b < limit_of shapes.now }
    requires room { length raw.old.pairs + sphere_count shapes.now + 1 < 2 ^ 32 }
    ensures found { OnOk result (raw.new.pairs ≡ raw.old.pairs ++ wall_found shapes.now drift centers.now b) }
    ensures from { raw.new.from ≡ raw.old.from }
    ensures counted { tests.new ≤ tests.old + sphere_count shapes.now }
{
    let face = face_of(shapes, b);
    for a in 0..shapes.spheres() {
        tests.tick();
        add_beside(raw, shapes, centers, drift, &face, Pair { a, b })?;
    }
    Ok(())
}

/// Adds the pair of a sphere and a wall, if it is near.
fn add_beside(
    raw: &mut RawPairs,
    shapes: &Shapes,
    centers: &Centers,
    drift: u32,
    face: &Option<Face>,
    pair: Pair,
) -> Result<(), OutOfMemory>
    requires centers { AreInside shapes.now centers.now }
    requires drift { drift ≤ 1024 }
    requires first { pair.a < sphere_count shapes.now }
    requires later { sphere_count shapes.now ≤ pair.b }
    requires there { pair.b < limit_of shapes.now }
    requires face { IfSome face.now (IsFaceOf (wall_at shapes.now pair.b)) }
    requires room { length raw.old.pairs + 1 < 2 ^ 32 }
    ensures found { OnOk result (raw.new.pairs ≡ raw.old.pairs ++ pair_if_near shapes.now drift centers.now pair) }
    ensures from { raw.new.from ≡ raw.old.from }
{
    if is_beyond(shapes, centers, drift, face, pair) {
        Ok(())
    } else {
        add_near(raw, shapes, centers, drift, pair)
    }
}

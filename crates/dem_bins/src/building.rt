//! The near pairs of a snapshot by bins: its centers, the blocks of cells, the sorted keys, the walk, and the walls.

ghost use Rattle.std.specs.Prelude.{◌≡◌, ◌+◌, ◌≤◌, [], OnOk};
ghost use Rattle.dem_list.specs.Ascending.{HasSamePairs};
ghost use Rattle.dem_model.specs.Centers.{centers_of};
ghost use Rattle.dem_model.specs.Motion.{AreSound, AreInside};
ghost use Rattle.dem_model.specs.Near.{near_of};
ghost use Rattle.dem_bins.specs.Bins.{IsGridOf, most_tests};

use crate::blocks::all_blocks;
use crate::grid::Grid;
use crate::keys::sorted_keys;
use crate::walking::walk;
use crate::walling::add_walls;
use dem_list::RawPairs;
use dem_model::{OutOfMemory, Steps};
use dem_shape::{Centers, Shapes, Snapshot};
use std::alloc::Global;
use std::sync::ledger::Ledger;

/// Adds all near pairs of a snapshot, close to their order.
pub fn add_all<L: Ledger>(
    alloc: Global,
    raw: &mut RawPairs,
    shapes: &Shapes,
    snap: &Snapshot,
    grid: &Grid,
    tests: &mut Steps<L>,
) -> Result<(), OutOfMemory>
    requires grid { IsGridOf shapes.now grid.now }
    requires sound { AreSound shapes.now snap.now.bodies }
    requires empty { raw.old.pairs ≡ [] }
    ensures found { OnOk result (HasSamePairs raw.new.pairs (near_of shapes.now grid.now.drift (centers_of shapes.now snap.now.bodies))) }
    ensures from { raw.new.from ≡ raw.old.from }
    ensures counted { tests.new ≤ tests.old + most_tests shapes.now grid.now (centers_of shapes.now snap.now.bodies) }
{
    let _scene = shapes.scene();
    let mut centers = Centers::new(alloc, shapes)?;
    centers.fill(shapes, snap.bodies.as_slice());
    add_pairs(alloc, raw, shapes, &centers, grid, tests)?;
    raw.gather(alloc, shapes.spheres())?;
    Ok(())
}

/// Adds all near pairs where the centers are these.
fn add_pairs<L: Ledger>(
    alloc: Global,
    raw: &mut RawPairs,
    shapes: &Shapes,
    centers: &Centers,
    grid: &Grid,
    tests: &mut Steps<L>,
) -> Result<(), OutOfMemory>
    requires grid { IsGridOf shapes.now grid.now }
    requires centers { AreInside shapes.now centers.now }
    requires empty { raw.old.pairs ≡ [] }
    ensures found { OnOk result (HasSamePairs raw.new.pairs (near_of shapes.now grid.now.drift centers.now)) }
    ensures from { raw.new.from ≡ raw.old.from }
    ensures counted { tests.new ≤ tests.old + most_tests shapes.now grid.now centers.now }
{
    let _scene = shapes.scene();
    let blocks = all_blocks(alloc, shapes, centers, grid)?;
    let keys = sorted_keys(alloc, blocks.as_slice())?;
    walk(
        raw,
        shapes,
        centers,
        grid.drift(),
        blocks.as_slice(),
        keys.as_slice(),
        tests,
    )?;
    add_walls(raw, shapes, centers, grid.drift(), tests)
}

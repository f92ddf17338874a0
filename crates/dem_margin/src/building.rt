//! The list of all near pairs of a snapshot, every pair tested.

ghost use Rattle.std.specs.Prelude.{◌≡◌, ◌+◌, ◌^◌, ◌<◌, ◌≤◌, ◌++◌, [], length, filter, OnOk, OnErr, IfOk, IfErr};
ghost use Rattle.dem_model.specs.Centers.{centers_of};
ghost use Rattle.dem_model.specs.Motion.{AreInside, AreSound};
ghost use Rattle.dem_model.specs.Near.{near, near_of};
ghost use Rattle.dem_model.specs.Pairs.{sphere_count, limit_of, pairs_below};
ghost use Rattle.dem_model.specs.declared.limits.TheConstants.{MAX_DRIFT};
ghost use Rattle.dem_margin.specs.NearList.{IsNearListOf, pair_if_near};

use crate::margin::tested;
use dem_list::{PairList, RawPairs};
use dem_model::{OutOfMemory, Pair};
use dem_shape::{Centers, Shapes, Snapshot, is_apart};
use std::alloc::Global;

/// The near pairs of a snapshot, from its step, in the buffer of a list; after a refusal a list of no pairs from that step comes back.
pub fn build_all(
    alloc: Global,
    shapes: &Shapes,
    snap: &Snapshot,
    drift: u32,
    buf: PairList,
) -> Result<PairList, (PairList, OutOfMemory)>
    requires sound { AreSound shapes.now snap.now.bodies }
    requires drift { drift ≤ MAX_DRIFT }
    ensures near { IfOk result (IsNearListOf shapes.now drift snap.now) }
    ensures refused { IfErr result (λ refused. refused.0 ≡ record { from = snap.now.step; pairs = [] }) }
{
    let mut raw = buf.raw(snap.step);
    match add_all(alloc, &mut raw, shapes, snap, drift) {
        Ok(()) => Ok(raw.settle()),
        Err(fault) => Err((emptied(raw, snap.step), fault)),
    }
}

/// A list of no pairs, from this step, in the buffer of what was found.
pub fn emptied(raw: RawPairs, step: u32) -> PairList
    ensures { result ≡ record { from = step; pairs = [] } }
{
    raw.settle().raw(step).settle()
}

/// Adds all near pairs of a snapshot.
fn add_all(
    alloc: Global,
    raw: &mut RawPairs,
    shapes: &Shapes,
    snap: &Snapshot,
    drift: u32,
) -> Result<(), OutOfMemory>
    requires sound { AreSound shapes.now snap.now.bodies }
    requires drift { drift ≤ MAX_DRIFT }
    requires empty { raw.old.pairs ≡ [] }
    ensures found { OnOk result (raw.new.pairs ≡ near_of shapes.now drift (centers_of shapes.now snap.now.bodies)) }
    ensures from { raw.new.from ≡ raw.old.from }
{
    let _scene = shapes.scene();
    let mut centers = Centers::new(alloc, shapes)?;
    centers.fill(shapes, snap.bodies.as_slice());
    add_rows(raw, shapes, &centers, drift)
}

/// Adds the near pairs of all spheres.
fn add_rows(
    raw: &mut RawPairs,
    shapes: &Shapes,
    centers: &Centers,
    drift: u32,
) -> Result<(), OutOfMemory>
    requires centers { AreInside shapes.now centers.now }
    requires drift { drift ≤ MAX_DRIFT }
    requires empty { raw.old.pairs ≡ [] }
    ensures found { OnOk result (raw.new.pairs ≡ near_of shapes.now drift centers.now) }
    ensures from { raw.new.from ≡ raw.old.from }
{
    for a in 0..shapes.spheres() {
        add_row(raw, shapes, centers, drift, a)?;
    }
    Ok(())
}

/// Adds the near pairs of one sphere with all that is later.
fn add_row(
    raw: &mut RawPairs,
    shapes: &Shapes,
    centers: &Centers,
    drift: u32,
    a: u32,
) -> Result<(), OutOfMemory>
    requires centers { AreInside shapes.now centers.now }
    requires drift { drift ≤ MAX_DRIFT }
    requires sphere { a < sphere_count shapes.now }
    requires before { raw.old.pairs ≡ filter (near shapes.now drift centers.now) (pairs_below shapes.now a) }
    ensures found { OnOk result (raw.new.pairs ≡ filter (near shapes.now drift centers.now) (pairs_below shapes.now (a + 1))) }
    ensures from { raw.new.from ≡ raw.old.from }
{
    let _scene = shapes.scene();
    let limit = shapes.spheres() + shapes.walls();
    for b in a + 1..limit {
        add_near(raw, shapes, centers, drift, Pair { a, b })?;
    }
    Ok(())
}

/// Adds one pair, if it is apart and near; after a refusal the list is as before. It counts no test.
pub fn add_near(
    raw: &mut RawPairs,
    shapes: &Shapes,
    centers: &Centers,
    drift: u32,
    pair: Pair,
) -> Result<(), OutOfMemory>
    requires centers { AreInside shapes.now centers.now }
    requires drift { drift ≤ MAX_DRIFT }
    requires first { pair.a < sphere_count shapes.now }
    requires second { pair.b < limit_of shapes.now }
    requires later { pair.a < pair.b }
    requires room { length raw.old.pairs + 1 < 2 ^ 32 }
    ensures found { OnOk result (raw.new.pairs ≡ raw.old.pairs ++ pair_if_near shapes.now drift centers.now pair) }
    ensures from { raw.new.from ≡ raw.old.from }
    ensures refused { OnErr result (raw.new ≡ raw.old) }
{
    if is_apart(shapes, pair) && tested(shapes, centers, pair, drift) {
        raw.add(pair)
    } else {
        Ok(())
    }
}

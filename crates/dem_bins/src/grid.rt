//! A grid of bins for a scene: its check, and the list of near pairs that it finds.

ghost use Rattle.std.specs.Prelude.{◌≡◌, ◌+◌, ◌^◌, ◌<◌, ◌≤◌, [], IfOk, IfErr};
ghost use Rattle.dem_model.specs.Centers.{centers_of};
ghost use Rattle.dem_model.specs.Motion.{AreSound};
ghost use Rattle.dem_margin.specs.NearList.{IsNearListOf};
ghost use Rattle.dem_bins.specs.Bins.{greatest_reach, side_of, grid_of, cells_across, IsGridOf, most_tests};

use crate::building::add_all;
use dem_list::PairList;
use dem_margin::{emptied, reach};
use dem_model::{OutOfMemory, Steps};
use dem_shape::{Shapes, Snapshot};
use std::alloc::Global;
use std::marker::Model;
use std::sync::ledger::Ledger;

/// The most cells that a sphere may meet on one axis.
pub const MAX_CELLS: u64 = 8;

/// A side so small that a sphere might meet more than `limit` cells on one axis: it might meet `cells`.
#[derive(Clone, Copy, PartialEq, Debug)]
pub struct BinTooSmall {
    pub cells: u64,
    pub limit: u64,
}

/// Cubic bins of one side, for lists of near pairs that are used for so many steps.
#[derive(Drop)]
pub struct Grid {
    drift: u32,
    bin: u64,
}

impl Model for Grid {
    ghost use Rattle.dem_bins.specs.Bins.{GridValue};

    ghost Value = { GridValue };

    ghost view = { λ g. record { drift = g.drift; bin = g.bin } };
}

impl Grid {
    /// The grid whose bins have the side `bin` in u, or the greatest reach of a sphere where `bin` is 0, for lists that are used for
    /// `drift` steps. A sphere whose box is as wide as twice the greatest reach may meet a quotient and 2 cells on an axis.
    pub fn check(shapes: &Shapes, drift: u32, bin: u64) -> Result<Grid, BinTooSmall>
        requires drift { drift ≤ 1024 }
        requires bin { bin ≤ 2 ^ 38 }
        ensures grid { IfOk result (λ g. g ≡ grid_of shapes.now drift bin) }
        ensures fits { IfOk result (IsGridOf shapes.now) }
        ensures refused { IfErr result (λ e. e ≡ record { cells = cells_across shapes.now (grid_of shapes.now drift bin); limit = MAX_CELLS }) }
        ensures many { IfErr result (λ e. MAX_CELLS < e.cells) }
    {
        let most = greatest(shapes, drift);
        let bin = side(bin, most);
        let cells = 2 * most / bin + 2;
        if MAX_CELLS < cells {
            return Err(BinTooSmall {
                cells,
                limit: MAX_CELLS,
            });
        }
        Ok(Grid { drift, bin })
    }

    /// For how many steps the lists are used.
    pub fn drift(&self) -> u32
        ensures { result ≡ self.now.drift }
    {
        self.drift
    }

    /// The side of the bins, in u.
    pub fn bin(&self) -> u64
        ensures { result ≡ self.now.bin }
    {
        self.bin
    }

    /// The near pairs of a snapshot, from its step, in the buffer of a list; after a refusal a list of no pairs from that step comes back.
    /// It counts a test for each two spheres in each bin that both meet, at most, and one for each sphere and wall.
    pub fn build<L: Ledger>(
        &self,
        alloc: Global,
        shapes: &Shapes,
        snap: &Snapshot,
        buf: PairList,
        tests: &mut Steps<L>,
    ) -> Result<PairList, (PairList, OutOfMemory)>
        requires grid { IsGridOf shapes.now self.now }
        requires sound { AreSound shapes.now snap.now.bodies }
        ensures near { IfOk result (IsNearListOf shapes.now self.now.drift snap.now) }
        ensures refused { IfErr result (λ refused. refused.0 ≡ record { from = snap.now.step; pairs = [] }) }
        ensures counted { tests.new ≤ tests.old + most_tests shapes.now self.now (centers_of shapes.now snap.now.bodies) }
    {
        let mut raw = buf.raw(snap.step);
        match add_all(alloc, &mut raw, shapes, snap, self, tests) {
            Ok(()) => Ok(raw.settle()),
            Err(fault) => Err((emptied(raw, snap.step), fault)),
        }
    }
}

/// The side of the bins, in u: as it is given, or the greatest reach where it is given as 0.
#[tactic(auto, unfolding(crate::specs::Bins::side_of))]
fn side(bin: u64, greatest: u64) -> u64
    requires some { 0 < greatest }
    requires reach { greatest ≤ 2 ^ 38 }
    requires bin { bin ≤ 2 ^ 38 }
    ensures value { result ≡ side_of bin greatest }
    ensures some { 0 < result }
    ensures size { result ≤ 2 ^ 38 }
{
    if bin == 0 { greatest } else { bin }
}

/// The farthest that any sphere may reach in so many steps, in u per axis.
fn greatest(shapes: &Shapes, drift: u32) -> u64
    requires drift { drift ≤ 1024 }
    ensures value { result ≡ greatest_reach shapes.now drift }
    ensures some { 0 < result }
    ensures size { result ≤ 2 ^ 38 }
{
    let _scene = shapes.scene();
    let mut most: u64 = 0;
    for i in 0..shapes.spheres() {
        most = most.max(reach(shapes, drift, i));
    }
    most
}

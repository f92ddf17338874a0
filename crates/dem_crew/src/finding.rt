//! Kinematics: takes snapshots, finds their near pairs, and delivers the lists.

ghost use Rattle.std.specs.Prelude.{◌≡◌, ◌<◌, Some};
ghost use Rattle.dem_swap.specs.Cycle.{snap_of, cargo_of};
ghost use Rattle.dem_model.specs.Exchange.{terms_of, IsSoundFor, IsAnswer};
ghost use Rattle.dem_model.specs.ExchangeKinds.{HoldsNone};
ghost use Rattle.dem_bins.specs.Bins.{IsGridOf};

use crate::pace::{Pace, is_paced};
use crate::rest::Rest;
use dem_bins::Grid;
use dem_model::Steps;
use dem_outside::{Gate, Point};
use dem_shape::Shapes;
use dem_swap::{KinSeat, Parcel, Swap};
use std::alloc::Global;
use std::marker::Brand;
use std::sync::Wait;
use std::sync::ledger::{Blank, Ledger};

/// Takes each posted parcel, puts the near pairs of its snapshot into it and delivers it, until it reads that the stop is raised.
/// Where memory is refused it delivers the parcel as refused.
pub fn kinematics<R: Wait, G: Gate>(
    rt: &R,
    alloc: Global,
    swap: &Swap,
    seat: &mut KinSeat,
    shapes: &Shapes,
    grid: &Grid,
    gate: &G,
)
    requires grid { IsGridOf shapes.now grid.now }
    requires seat { seat.old.table ≡ swap.now }
    requires terms { seat.old.view.terms ≡ Some (terms_of shapes.now grid.now.drift) }
    requires none_held { HoldsNone seat.old.view }
    ensures saw_stop { seat.new.view.looks.saw_stop ≡ 1 }
    ensures none_held { HoldsNone seat.new.view }
    ensures seat { seat.new.table ≡ swap.now }
{
    serve_until_stop::<R, G, Brand>(rt, alloc, swap, seat, shapes, grid, gate, Blank::new(1));
}

/// What kinematics works with: the shapes, the grid that fits them, how many parcels it has served, and when it serves the next.
#[derive(Drop)]
pub struct Finder<'a, L: Ledger> {
    alloc: Global,
    shapes: &'a Shapes<'a>,
    grid: &'a Grid,
    served: u64,
    pace: Pace,
    tests: Steps<L>,
    ghost fits: { IsGridOf shapes.now grid.now },
}

/// Serves parcels, with a counter of tests over this blank that nobody reads.
fn serve_until_stop<R: Wait, G: Gate, L: Ledger>(
    rt: &R,
    alloc: Global,
    swap: &Swap,
    seat: &mut KinSeat,
    shapes: &Shapes,
    grid: &Grid,
    gate: &G,
    blank: Blank,
)
    requires name { blank.name ≡ L.name }
    requires parts { blank.parts ≡ L.parts }
    requires some { 0 < L.parts }
    requires grid { IsGridOf shapes.now grid.now }
    requires seat { seat.old.table ≡ swap.now }
    requires terms { seat.old.view.terms ≡ Some (terms_of shapes.now grid.now.drift) }
    requires none_held { HoldsNone seat.old.view }
    ensures saw_stop { seat.new.view.looks.saw_stop ≡ 1 }
    ensures none_held { HoldsNone seat.new.view }
    ensures seat { seat.new.table ≡ swap.now }
{
    let mut finder = Finder::<L>::new(alloc, shapes, grid, blank);
    let mut rest = Rest::new(is_paced(grid.drift()));
    for _ in rt.forever() {
        if swap.stopped(seat) {
            return;
        }
        let has_served = finder.serve(swap, seat, gate, rest.naps());
        rest.after(rt, has_served, finder.naps());
    }
    unreachable!()
}

impl<'a, L: Ledger> Finder<'a, L> {
    /// Kinematics that has served no parcel, with a counter of tests over this blank that nobody reads.
    pub fn new(alloc: Global, shapes: &'a Shapes<'a>, grid: &'a Grid, blank: Blank) -> Finder<'a, L>
        requires name { blank.name ≡ L.name }
        requires parts { blank.parts ≡ L.parts }
        requires some { 0 < L.parts }
        requires fits { IsGridOf shapes.now grid.now }
        ensures shapes { result.shapes.now ≡ shapes.now }
        ensures grid { result.grid.now ≡ grid.now }
    {
        Finder {
            alloc,
            shapes,
            grid,
            served: 0,
            pace: Pace::new(),
            tests: Steps::<L>::new(blank),
        }
    }

    /// Tries once to take the parcel, where it slept as often as ordered, and if it comes, delivers it with its list; whether it came.
    fn serve<G: Gate>(&mut self, swap: &Swap, seat: &mut KinSeat, gate: &G, naps: u32) -> bool
        requires seat { seat.old.table ≡ swap.now }
        requires terms { seat.old.view.terms ≡ Some (terms_of self.old.shapes.now self.old.grid.now.drift) }
        requires none_held { HoldsNone seat.old.view }
        ensures seat { seat.new.table ≡ swap.now }
        ensures terms { seat.new.view.terms ≡ seat.old.view.terms }
        ensures none_held { HoldsNone seat.new.view }
        ensures shapes { self.new.shapes ≡ self.old.shapes }
        ensures grid { self.new.grid ≡ self.old.grid }
    {
        if naps < self.pace.naps() {
            return false;
        }
        let nth = self.served.saturating_add(1);
        gate.pass(Point::Take, nth);
        match swap.take(seat) {
            Some(parcel) => {
                let steps = self.shapes.scene().steps;
                self.pace
                    .after(self.grid.drift(), steps, parcel.snap.step, naps);
                let answered = self.answer(parcel);
                gate.pass(Point::Deliver, nth);
                swap.deliver(seat, answered);
                self.served = nth;
                true
            }
            None => false,
        }
    }

    /// How often it is to sleep before it tries to take the next parcel.
    fn naps(&self) -> u32 {
        self.pace.naps()
    }

    /// The parcel with the near pairs of its snapshot; or refused.
    pub fn answer(&mut self, parcel: Parcel) -> Parcel
        requires sound { IsSoundFor (Some (terms_of self.old.shapes.now self.old.grid.now.drift)) (snap_of parcel.snap) }
        ensures snap { result.snap ≡ parcel.snap }
        ensures answer { IsAnswer (Some (terms_of self.old.shapes.now self.old.grid.now.drift)) (cargo_of result) }
        ensures shapes { self.new.shapes ≡ self.old.shapes }
        ensures grid { self.new.grid ≡ self.old.grid }
    {
        let Parcel {
            snap,
            list,
            refused: _,
        } = parcel;
        match self
            .grid
            .build(self.alloc, self.shapes, &snap, list, &mut self.tests)
        {
            Ok(list) => Parcel {
                snap,
                list,
                refused: false,
            },
            Err((list, _)) => Parcel {
                snap,
                list,
                refused: true,
            },
        }
    }
}

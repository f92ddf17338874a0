//! The near pairs that bins of one side find.

ghost use Rattle.dem_bins.specs.Bins.{IsGridOf};

use dem_bins::{BinTooSmall, Grid};
use dem_list::PairList;
use dem_model::{OutOfMemory, Steps};
use dem_shape::Snapshot;
use dem_step::Dyn;
use std::alloc::Global;
use std::fmt::{self, Display, Formatter};
use std::sync::ledger::Ledger;

/// What bins of one side answer.
#[derive(Drop)]
pub struct Found {
    side: u32,
    answer: Result<PairList, BinTooSmall>,
}

/// What bins of the side `side`, in u, find for the state of a run and its drift limit.
pub fn find<L: Ledger>(
    alloc: Global,
    run: &Dyn,
    side: u32,
    tests: &mut Steps<L>,
) -> Result<Found, OutOfMemory> {
    let answer = match Grid::check(run.shapes(), run.drift(), u64::from(side)) {
        Ok(grid) => Ok(list_by(alloc, run, &grid, tests)?),
        Err(fault) => Err(fault),
    };
    Ok(Found { side, answer })
}

/// The list that a grid makes of the state of a run.
fn list_by<L: Ledger>(
    alloc: Global,
    run: &Dyn,
    grid: &Grid,
    tests: &mut Steps<L>,
) -> Result<PairList, OutOfMemory>
    requires { IsGridOf run.now.scene grid.now }
{
    let shapes = run.shapes();
    let mut snap = Snapshot::new(alloc, shapes.scene().clumps.len() as u32)?;
    run.snapshot_into(&mut snap);
    match grid.build(alloc, shapes, &snap, PairList::empty(alloc), tests) {
        Ok(list) => Ok(list),
        Err((_, fault)) => Err(fault),
    }
}

impl Display for Found {
    fn fmt<W: fmt::Write>(&self, f: &mut Formatter<W>) -> fmt::Result {
        write!(f, "bins of {}: ", self.side)?;
        match &self.answer {
            Ok(list) => write_pairs(list, f),
            Err(fault) => write!(f, "{} cells, limit {}", fault.cells, fault.limit),
        }
    }
}

/// Writes how many pairs a list has, and which.
fn write_pairs<W: fmt::Write>(list: &PairList, f: &mut Formatter<W>) -> fmt::Result {
    write!(f, "{} pairs from step {}", list.len(), list.from())?;
    for i in 0..list.len() {
        let pair = list.get(i);
        write!(f, ", {} {}", pair.a, pair.b)?;
    }
    Ok(())
}

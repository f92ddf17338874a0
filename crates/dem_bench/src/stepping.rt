//! Steps on one list of near pairs, made from the first state.

ghost use Rattle.std.specs.Prelude.{◌≡◌, ◌<◌, ◌≤◌, IfOk};
ghost use Rattle.dem_step.specs.Stepper.{IsListOfRun};

use crate::tally::{Tally, touching};
use anyhow::{Result, bail};
use dem_list::PairList;
use dem_margin::build_all;
use dem_model::{Scene, Steps};
use dem_shape::{Shapes, Snapshot};
use dem_step::Dyn;
use std::alloc::Global;
use std::marker::Brand;
use std::sync::ledger::{Blank, Ledger};
use std::thread::Threads;

/// Makes so many steps of a scene on one list, or fewer where the run or the list ends, and tells what was done. The list may be
/// used up to this age, in steps. Where threads are given, the steps are split among them.
pub fn run_scene<R: Threads + Sync>(
    alloc: Global,
    threads: Option<&R>,
    scene: &Scene,
    drift: u32,
    wanted: u32,
) -> Result<Tally>
    requires drift { drift ≤ 1024 }
{
    let Ok(shapes) = Shapes::new(alloc, scene) else {
        bail!("out of memory");
    };
    let Ok(mut run) = Dyn::new(alloc, &shapes, drift) else {
        bail!("out of memory");
    };
    take_list(alloc, &mut run)?;
    Ok(make_steps::<R, Brand>(threads, &mut run, wanted, Blank::new(1)))
}

/// Takes the near pairs of the run's state into use.
fn take_list(alloc: Global, run: &mut Dyn) -> Result<()> {
    let list = near_list(alloc, run)?;
    if !run.can_adopt(&list) {
        bail!("the list isn't in time");
    }
    match run.adopt(list) {
        Ok(_old) => Ok(()),
        Err(_refused) => bail!("out of memory"),
    }
}

/// The near pairs of the run's state.
fn near_list(alloc: Global, run: &Dyn) -> Result<PairList>
    ensures { IfOk result (IsListOfRun run.now.scene run.now.drift) }
{
    let shapes = run.shapes();
    let Ok(mut snap) = Snapshot::new(alloc, shapes.scene().clumps.len() as u32) else {
        bail!("out of memory");
    };
    run.snapshot_into(&mut snap);
    match build_all(alloc, shapes, &snap, run.drift(), PairList::empty(alloc)) {
        Ok(list) => {
            run.list_of_run(&snap, &list);
            Ok(list)
        }
        Err(_refused) => bail!("out of memory"),
    }
}

/// Makes the steps, while the scene has more and the list isn't too old.
fn make_steps<R: Threads + Sync, L: Ledger>(
    threads: Option<&R>,
    run: &mut Dyn,
    wanted: u32,
    blank: Blank,
) -> Tally
    requires name { blank.name ≡ L.name }
    requires parts { blank.parts ≡ L.parts }
    requires some { 0 < L.parts }
{
    let mut tests = Steps::<L>::new(blank);
    let mut end = None;
    for _ in 0..wanted {
        if end.is_some() || !run.can_step() {
            break;
        }
        end = run.step_on(threads, &mut tests).err();
    }
    Tally {
        spheres: run.shapes().spheres(),
        pairs: run.contacts().list().len(),
        steps: run.now(),
        contacts: touching(run.contacts()),
        end,
    }
}

//! The lists of a trial: how one is made, and how it is taken into use.

ghost use Rattle.std.specs.Prelude.{◌≡◌, IfOk};
ghost use Rattle.dem_step.specs.Stepper.{IsListOfRun};

use crate::report::Report;
use dem_list::PairList;
use dem_margin::build_all;
use dem_model::OutOfMemory;
use dem_shape::Snapshot;
use dem_step::Dyn;
use std::alloc::Global;

/// The list of the near pairs of a run's state.
pub fn near_list(alloc: Global, run: &Dyn) -> Result<PairList, OutOfMemory>
    ensures { IfOk result (IsListOfRun run.now.scene run.now.drift) }
{
    let shapes = run.shapes();
    let mut snap = Snapshot::new(alloc, shapes.scene().clumps.len() as u32)?;
    run.snapshot_into(&mut snap);
    match build_all(alloc, shapes, &snap, run.drift(), PairList::empty(alloc)) {
        Ok(list) => {
            run.list_of_run(&snap, &list);
            Ok(list)
        }
        Err((_, fault)) => Err(fault),
    }
}

/// Takes a list into use, if it is in time, and notes its age.
pub fn take(run: &mut Dyn, list: PairList, report: &mut Report) -> Result<(), OutOfMemory>
    requires { IsListOfRun run.old.scene run.old.drift list }
    ensures scene { run.new.scene ≡ run.old.scene }
    ensures drift { run.new.drift ≡ run.old.drift }
{
    if !run.can_adopt(&list) {
        report.same = false;
        return Ok(());
    }
    report.note_list(run.now().saturating_sub(list.from()), list.len());
    match run.adopt(list) {
        Ok(_) => Ok(()),
        Err((_, fault)) => Err(fault),
    }
}

//! One trial: a run on lists beside the plain run of a scene.

ghost use Rattle.std.specs.Prelude.{◌≡◌, ◌<◌, ◌≤◌};
ghost use Rattle.dem_model.specs.declared.limits.TheConstants.{MAX_DRIFT};

use crate::listing::{near_list, take};
use crate::report::Report;
use crate::stepping::advance;
use dem_model::{OutOfMemory, Scene, Steps};
use dem_plain::PlainRun;
use dem_shape::Shapes;
use dem_step::Dyn;
use std::alloc::Global;
use std::marker::Brand;
use std::sync::ledger::{Blank, Ledger};

/// Tries a scene with a drift limit.
pub fn trial(alloc: Global, scene: &Scene, drift: u32) -> Result<Report, OutOfMemory>
    requires { drift ≤ MAX_DRIFT }
{
    let shapes = Shapes::new(alloc, scene)?;
    let mut plain = PlainRun::new(alloc, scene)?;
    let mut run = Dyn::new(alloc, &shapes, drift)?;
    side_by_side::<Brand>(alloc, &mut plain, &mut run, Blank::new(1))
}

/// Makes all steps of both runs, with their tests counted on a counter that nobody reads.
fn side_by_side<L: Ledger>(
    alloc: Global,
    plain: &mut PlainRun,
    run: &mut Dyn,
    blank: Blank,
) -> Result<Report, OutOfMemory>
    requires name { blank.name ≡ L.name }
    requires parts { blank.parts ≡ L.parts }
    requires some { 0 < L.parts }
    requires scene { plain.old.scene ≡ run.old.scene }
{
    let mut tests = Steps::<L>::new(blank);
    let mut report = Report::new(run.drift());
    let steps = run.shapes().scene().steps;
    for _ in 0..steps {
        one_list(alloc, plain, run, &mut tests, &mut report)?;
        if report.is_over() || run.now() >= steps {
            break;
        }
    }
    Ok(report)
}

/// Makes a list, steps on the list before until the new one has the age that is wanted or the old one is too old, takes the new one
/// into use, and makes one step on it.
fn one_list<L: Ledger>(
    alloc: Global,
    plain: &mut PlainRun,
    run: &mut Dyn,
    tests: &mut Steps<L>,
    report: &mut Report,
) -> Result<(), OutOfMemory>
    requires { plain.old.scene ≡ run.old.scene }
    ensures plain { plain.new.scene ≡ plain.old.scene }
    ensures scene { run.new.scene ≡ run.old.scene }
{
    let list = near_list(alloc, run)?;
    for _ in 0..report.wanted_age() {
        advance(plain, run, tests, report)?;
    }
    take(run, list, report)?;
    advance(plain, run, tests, report)
}

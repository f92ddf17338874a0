//! One step of a run on lists and of the plain run, compared.

ghost use Rattle.std.specs.Prelude.{◌≡◌, ◌<◌, true};
ghost use Rattle.dem_step.specs.Stepper.{CanStep};

use crate::comparing::is_at;
use crate::report::Report;
use dem_model::{End, OutOfMemory, Steps};
use dem_plain::{PlainRun, Stop};
use dem_step::Dyn;
use std::sync::ledger::Ledger;

/// Makes one step of both runs, if both may make one, and notes what it came to.
pub fn advance<L: Ledger>(
    plain: &mut PlainRun,
    run: &mut Dyn,
    tests: &mut Steps<L>,
    report: &mut Report,
) -> Result<(), OutOfMemory>
    requires { plain.old.scene ≡ run.old.scene }
    ensures plain { plain.new.scene ≡ plain.old.scene }
    ensures scene { run.new.scene ≡ run.old.scene }
    ensures drift { run.new.drift ≡ run.old.drift }
{
    if report.is_over() || !may_step(plain, run) {
        return Ok(());
    }
    let age = age_in_use(run);
    let ended = plain_step(plain)?;
    let other = run.step(tests).err();
    report.same = ended == other;
    report.ended = ended.is_some();
    if report.is_over() {
        return Ok(());
    }
    report.note_step(age, plain.state().held.len() as u64);
    report.same = is_at(run, plain.state());
    Ok(())
}

/// Makes a plain step, and tells its end where it has one.
fn plain_step(plain: &mut PlainRun) -> Result<Option<End>, OutOfMemory>
    requires { plain.old.state.step < plain.old.scene.steps }
    ensures { plain.new.scene ≡ plain.old.scene }
{
    match plain.step() {
        Ok(()) => Ok(None),
        Err(Stop::Ended(end)) => Ok(Some(end)),
        Err(Stop::OutOfMemory) => Err(OutOfMemory),
    }
}

/// Whether both runs may make a step.
fn may_step(plain: &PlainRun, run: &Dyn) -> bool
    requires { plain.now.scene ≡ run.now.scene }
    ensures plain { result ≡ true → plain.now.state.step < plain.now.scene.steps }
    ensures run { result ≡ true → CanStep run.now }
{
    run.can_step() && plain.state().step < run.shapes().scene().steps
}

/// The age of the list in use.
fn age_in_use(run: &Dyn) -> u32 {
    match run.list_from() {
        Some(from) => run.now().saturating_sub(from),
        None => 0,
    }
}

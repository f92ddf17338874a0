//! The job of an order of another mode than `run`, which needs no second thread.
ghost use Rattle.std.specs.Prelude.{◌≡◌};
ghost use Rattle.dem_outside.specs.Change.{change};
ghost use Rattle.dem_words.specs.declared.order.Mode.TheVariants as modes;
ghost use Rattle.dem_jobs.specs.Jobs.{job_of, Takes};
ghost use Rattle.dem_jobs.specs.Parts.{Does};

use crate::comparison::compare;
use crate::looking::inspect;
use crate::made::summarize;
use crate::outcome::{NotDone, Outcome};
use crate::packing::fill;
use crate::plain::plain;
use crate::refusal::Refusal;
use crate::resuming::resume;
use crate::sched::sched;
use dem_outside::{Sink, Source};
use dem_words::{Mode, Order};
use std::alloc::Global;

/// Does the job of an order of another mode than `run`, and puts nothing of a refusal. It waits for nobody and returns.
pub fn carry_out<S: Source, K: Sink, N: Sink>(
    alloc: Global,
    order: &Order,
    source: &mut S,
    out: &mut K,
    note: &mut N,
) -> Result<Outcome, NotDone>
    requires alone { ¬ (order.now.mode ≡ modes.Run) }
    ensures does { Does (job_of order.now) (change S.left S.faults source.old source.new) (change K.held K.faults out.old out.new)
        (change N.held N.faults note.old note.new) result }
    ensures taken { Takes (job_of order.now).limit (change S.left S.faults source.old source.new) }
{
    match order.mode {
        Mode::Plain => plain(alloc, source, out),
        Mode::Sched => sched(alloc, order, source, out, note),
        Mode::Check => compare(alloc, source, out),
        Mode::Gen => summarize(alloc, order, out),
        Mode::Pack => fill(alloc, order, source, out),
        Mode::Resume => resume(alloc, source, out),
        Mode::Look => inspect(alloc, source, out),
        Mode::Run => Err(NotDone::Refused(Refusal::Usage)),
    }
}

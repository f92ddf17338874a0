//! A run where no second thread could be started: its one thread makes the lists too, by the functions of both sides.

ghost use Rattle.std.specs.Prelude.{◌≡◌, ◌+◌, ◌<◌, ◌≤◌, None, Some, length, IfOk, OnOk, OnErr};
ghost use Rattle.dem_outside.specs.Known.{AppendsPrefix};
ghost use Rattle.dem_model.specs.Output.{output_of};
ghost use Rattle.dem_bins.specs.Bins.{IsGridOf};
ghost use Rattle.dem_core.specs.Courses.{IsOnCourse};
ghost use Rattle.dem_core.specs.Worlds.{HasFaults};
ghost use Rattle.dem_crew.specs.Running.{HasRun, HasNoted};
ghost use Rattle.dem_crew.specs.Working.{lists_by, IsHome, IsKeptUp, HasCount};

use crate::finding::Finder;
use crate::ran::Ran;
use crate::work::Work;
use dem_bins::Grid;
use dem_core::WorldStop;
use dem_model::{Last, Steps};
use dem_outside::{Gate, Point, Sink};
use dem_shape::Shapes;
use dem_swap::Parcel;
use std::alloc::Global;
use std::sync::Wait;
use std::sync::ledger::{Blank, Ledger};
use std::thread::Threads;

/// Makes the run of a scene on one thread, with a counter over this blank for the tests of the lists, which nobody reads.
pub fn run_alone<R: Threads + Wait + Sync, K: Sink, N: Sink, G: Gate, L: Ledger, B: Ledger>(
    rt: &R,
    alloc: Global,
    parcel: Parcel,
    shapes: &Shapes,
    grid: &Grid,
    split: bool,
    out: &mut K,
    note: &mut N,
    gate: &G,
    tests: &mut Steps<L>,
    blank: Blank,
) -> Result<Ran, WorldStop>
    requires name { blank.name ≡ B.name }
    requires parts { blank.parts ≡ B.parts }
    requires some { 0 < B.parts }
    requires grid { IsGridOf shapes.now grid.now }
    requires room { length parcel.snap.bodies ≡ length shapes.now.clumps }
    ensures ran { IfOk result (HasRun shapes.now grid.now.drift (K.held out.old) (K.held out.new) (N.held note.old) (N.held note.new)) }
    ensures so_far { OnErr result (AppendsPrefix (K.held out.old) (K.held out.new) (output_of shapes.now)) }
    ensures noted { OnErr result (HasNoted shapes.now grid.now.drift (N.held note.old) (N.held note.new)) }
    ensures faults { HasFaults (K.faults out.old) (K.faults out.new) (N.faults note.old) (N.faults note.new) result }
    ensures counted { IfOk result (λ ran. tests.new ≤ tests.old + ran.tests) }
{
    let mut finder = Finder::<B>::new(alloc, shapes, grid, blank);
    match Work::new(alloc, shapes, grid, parcel, out) {
        Ok(mut work) => {
            let answer = work.run_alone(rt, split, &mut finder, out, note, gate, tests);
            drop(work);
            answer
        }
        Err(stop) => Err(stop),
    }
}

impl<'s> Work<'s> {
    /// Makes the run by one thread until it has ended, and writes the row of its tests; tells what it took.
    fn run_alone<R: Threads + Wait + Sync, K: Sink, N: Sink, G: Gate, L: Ledger, B: Ledger>(
        &mut self,
        rt: &R,
        split: bool,
        finder: &mut Finder<B>,
        out: &mut K,
        note: &mut N,
        gate: &G,
        tests: &mut Steps<L>,
    ) -> Result<Ran, WorldStop>
        requires shapes { finder.old.shapes.now ≡ self.old.course.scene }
        requires grid { finder.old.grid.now.drift ≡ self.old.course.drift }
        requires few { self.old.lists ≤ lists_by self.old.course.course.from }
        requires home { IsHome self.old }
        ensures ran { IfOk result (λ ran. (o n : _) → IsKeptUp o (K.held out.old) n (N.held note.old) self.old → HasRun self.old.course.scene self.old.course.drift o (K.held out.new) n (N.held note.new) ran) }
        ensures so_far { OnErr result ((o n : _) → IsKeptUp o (K.held out.old) n (N.held note.old) self.old → AppendsPrefix o (K.held out.new) (output_of self.old.course.scene)) }
        ensures noted { OnErr result ((o n : _) → IsKeptUp o (K.held out.old) n (N.held note.old) self.old → HasNoted self.old.course.scene self.old.course.drift n (N.held note.new)) }
        ensures faults { HasFaults (K.faults out.old) (K.faults out.new) (N.faults note.old) (N.faults note.new) result }
        ensures counted { IfOk result (λ ran. tests.new + self.old.course.course.tests ≤ tests.old + ran.tests) }
    {
        let last = self.finish_alone(rt, split, finder, out, note, gate, tests)?;
        Ok(self.close(last, note)?)
    }

    /// Steps as long as the run may, and else makes a new list, until the run has ended; answers how.
    fn finish_alone<R: Threads + Wait + Sync, K: Sink, N: Sink, G: Gate, L: Ledger, B: Ledger>(
        &mut self,
        rt: &R,
        split: bool,
        finder: &mut Finder<B>,
        out: &mut K,
        note: &mut N,
        gate: &G,
        tests: &mut Steps<L>,
    ) -> Result<Last, WorldStop>
        requires shapes { finder.old.shapes.now ≡ self.old.course.scene }
        requires grid { finder.old.grid.now.drift ≡ self.old.course.drift }
        requires few { self.old.lists ≤ lists_by self.old.course.course.from }
        requires home { IsHome self.old }
        ensures scene { self.new.course.scene ≡ self.old.course.scene }
        ensures drift { self.new.course.drift ≡ self.old.course.drift }
        ensures ended { IfOk result (λ last. self.new.course.course.last ≡ Some last) }
        ensures kept { OnOk result ((o n : _) → IsKeptUp o (K.held out.old) n (N.held note.old) self.old → IsKeptUp o (K.held out.new) n (N.held note.new) self.new) }
        ensures so_far { OnErr result ((o n : _) → IsKeptUp o (K.held out.old) n (N.held note.old) self.old → AppendsPrefix o (K.held out.new) (output_of self.old.course.scene)) }
        ensures noted { OnErr result ((o n : _) → IsKeptUp o (K.held out.old) n (N.held note.old) self.old → HasNoted self.old.course.scene self.old.course.drift n (N.held note.new)) }
        ensures faults { HasFaults (K.faults out.old) (K.faults out.new) (N.faults note.old) (N.faults note.new) result }
        ensures counted { tests.new + self.old.course.course.tests ≤ tests.old + self.new.course.course.tests }
    {
        for _ in rt.forever() {
            if let Some(last) = self.course.last() {
                return Ok(last);
            }
            if !self.step(rt, split, out, gate, tests)? {
                self.renew(finder, note, gate)?;
            }
        }
        unreachable!()
    }

    /// Makes the list of the state at once and takes it into use, if the run may.
    fn renew<N: Sink, G: Gate, B: Ledger>(
        &mut self,
        finder: &mut Finder<B>,
        note: &mut N,
        gate: &G,
    ) -> Result<(), WorldStop>
        requires shapes { finder.old.shapes.now ≡ self.old.course.scene }
        requires grid { finder.old.grid.now.drift ≡ self.old.course.drift }
        requires goes_on { self.old.course.course.last ≡ None }
        requires few { self.old.lists ≤ lists_by self.old.course.course.from }
        requires home { IsHome self.old }
        ensures course { IsOnCourse self.old.course.scene self.old.course.drift self.old.course.course }
        ensures shapes { finder.new.shapes ≡ finder.old.shapes }
        ensures grid { finder.new.grid ≡ finder.old.grid }
        ensures scene { self.new.course.scene ≡ self.old.course.scene }
        ensures drift { self.new.course.drift ≡ self.old.course.drift }
        ensures tests { self.new.course.course.tests ≡ self.old.course.course.tests }
        ensures last { self.new.course.course.last ≡ self.old.course.course.last }
        ensures few { OnOk result (self.new.lists ≤ lists_by self.new.course.course.from) }
        ensures home { OnOk result (IsHome self.new) }
        ensures kept { OnOk result ((o out n : _) → IsKeptUp o out n (N.held note.old) self.old → IsKeptUp o out n (N.held note.new) self.new) }
        ensures noted { OnErr result ((o out n : _) → IsKeptUp o out n (N.held note.old) self.old → HasNoted self.old.course.scene self.old.course.drift n (N.held note.new)) }
        ensures count { HasCount (N.faults note.old) (N.faults note.new) result }
    {
        let _course = self.course.now();
        if !self.course.can_post() {
            return Ok(());
        }
        match self.home.take() {
            Some(mut parcel) => {
                let nth = self.next_list();
                gate.pass(Point::Post, nth);
                self.course.post_into(&mut parcel.snap);
                let answered = finder.answer(parcel);
                gate.pass(Point::Collect, nth);
                self.take_up(answered, note)
            }
            None => Ok(()),
        }
    }
}

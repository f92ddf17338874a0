//! Dynamics at its work: a run on lists, and the parcel that brings it new ones.

ghost use Rattle.std.specs.Prelude.{◌≡◌, ◌+◌, ◌≤◌, false, None, Some, length, OnOk, OnErr, IfOk};
ghost use Rattle.dem_outside.specs.Faults.{Counts};
ghost use Rattle.dem_outside.specs.Known.{AppendsPrefix};
ghost use Rattle.dem_model.specs.Motion.{AreSound};
ghost use Rattle.dem_model.specs.Output.{output_of};
ghost use Rattle.dem_swap.specs.Cycle.{cargo_of};
ghost use Rattle.dem_model.specs.Exchange.{terms_of, IsAnswer};
ghost use Rattle.dem_core.specs.Courses.{IsOnCourse};
ghost use Rattle.dem_core.specs.Worlds.{HasFaults, IsOut};
ghost use Rattle.dem_crew.specs.Running.{HasRun, HasNoted};
ghost use Rattle.dem_crew.specs.Working.{lists_by, IsAtWork, IsKeptUp, HasCount};

use crate::ran::Ran;
use crate::rest::Rest;
use dem_bins::Grid;
use dem_core::{Course, WorldStop};
use dem_frame::{WriteFault, write_tests};
use dem_model::{Last, Steps};
use dem_outside::{Gate, Point, Sink};
use dem_shape::Shapes;
use dem_swap::{DynSeat, Parcel, Swap};
use std::alloc::Global;
use std::sync::Wait;
use std::sync::ledger::Ledger;
use std::thread::Threads;

/// A run on lists, the parcel while it is at home, and how many lists were taken into use.
#[derive(Drop)]
pub struct Work<'s> {
    pub course: Course<'s>,
    pub home: Option<Parcel>,
    pub lists: u64,
}

impl<'s> Work<'s> {
    /// Dynamics at the start of a run, with the parcel at home; writes the first frame, and the end row where there are no steps.
    pub fn new<K: Sink>(
        alloc: Global,
        shapes: &'s Shapes<'s>,
        grid: &Grid,
        parcel: Parcel,
        out: &mut K,
    ) -> Result<Work<'s>, WorldStop>
        requires drift { grid.now.drift ≤ 1024 }
        ensures scene { IfOk result (λ work. work.course.scene ≡ shapes.now) }
        ensures drift { IfOk result (λ work. work.course.drift ≡ grid.now.drift) }
        ensures none { IfOk result (λ work. (work.lists ≡ 0) × (work.course.course.tests ≡ 0)) }
        ensures home { IfOk result (λ work. work.home ≡ Some parcel) }
        ensures kept { IfOk result (λ work. (n : _) → IsKeptUp (K.held out.old) (K.held out.new) n n work) }
        ensures so_far { OnErr result (AppendsPrefix (K.held out.old) (K.held out.new) (output_of shapes.now)) }
        ensures count { HasCount (K.faults out.old) (K.faults out.new) result }
    {
        let course = Course::new(alloc, shapes, grid.drift(), out)?;
        Ok(Work {
            course,
            home: Some(parcel),
            lists: 0,
        })
    }

    /// Writes the row of the tests of a run that has ended, and tells what it took.
    pub fn close<N: Sink>(&self, last: Last, note: &mut N) -> Result<Ran, WriteFault>
        requires ended { self.now.course.course.last ≡ Some last }
        ensures ran { IfOk result (λ ran. (o out n : _) → IsKeptUp o out n (N.held note.old) self.now → HasRun self.now.course.scene self.now.course.drift o out n (N.held note.new) ran) }
        ensures tests { IfOk result (λ ran. ran.tests ≡ self.now.course.course.tests) }
        ensures so_far { (o out n m : _) → IsKeptUp o out n m self.now → AppendsPrefix o out (output_of self.now.course.scene) }
        ensures noted { OnErr result ((o out n : _) → IsKeptUp o out n (N.held note.old) self.now → HasNoted self.now.course.scene self.now.course.drift n (N.held note.new)) }
        ensures count { Counts (N.faults note.old) (N.faults note.new) result }
    {
        let _course = self.course.now();
        let ran = Ran {
            last,
            lists: self.lists,
            tests: self.course.tests_made(),
        };
        write_tests(note, ran.tests)?;
        Ok(ran)
    }

    /// Makes turns until the run has ended, and writes the row of its tests; tells what it took.
    pub fn run<R: Threads + Wait + Sync, K: Sink, N: Sink, G: Gate, L: Ledger>(
        &mut self,
        rt: &R,
        split: bool,
        swap: &Swap,
        seat: &mut DynSeat,
        out: &mut K,
        note: &mut N,
        gate: &G,
        tests: &mut Steps<L>,
    ) -> Result<Ran, WorldStop>
        requires at_work { IsAtWork swap.now seat.old self.old }
        ensures seat { seat.new.table ≡ seat.old.table }
        ensures ran { IfOk result (λ ran. (o n : _) → IsKeptUp o (K.held out.old) n (N.held note.old) self.old → HasRun self.old.course.scene self.old.course.drift o (K.held out.new) n (N.held note.new) ran) }
        ensures so_far { OnErr result ((o n : _) → IsKeptUp o (K.held out.old) n (N.held note.old) self.old → AppendsPrefix o (K.held out.new) (output_of self.old.course.scene)) }
        ensures noted { OnErr result ((o n : _) → IsKeptUp o (K.held out.old) n (N.held note.old) self.old → HasNoted self.old.course.scene self.old.course.drift n (N.held note.new)) }
        ensures faults { HasFaults (K.faults out.old) (K.faults out.new) (N.faults note.old) (N.faults note.new) result }
        ensures counted { IfOk result (λ ran. tests.new + self.old.course.course.tests ≤ tests.old + ran.tests) }
    {
        let last = self.finish(rt, split, swap, seat, out, note, gate, tests)?;
        Ok(self.close(last, note)?)
    }

    /// Makes turns until the run has ended; answers how. Where there is nothing to do it rests between them.
    fn finish<R: Threads + Wait + Sync, K: Sink, N: Sink, G: Gate, L: Ledger>(
        &mut self,
        rt: &R,
        split: bool,
        swap: &Swap,
        seat: &mut DynSeat,
        out: &mut K,
        note: &mut N,
        gate: &G,
        tests: &mut Steps<L>,
    ) -> Result<Last, WorldStop>
        requires at_work { IsAtWork swap.now seat.old self.old }
        ensures seat { seat.new.table ≡ seat.old.table }
        ensures scene { self.new.course.scene ≡ self.old.course.scene }
        ensures drift { self.new.course.drift ≡ self.old.course.drift }
        ensures ended { IfOk result (λ last. self.new.course.course.last ≡ Some last) }
        ensures kept { OnOk result ((o n : _) → IsKeptUp o (K.held out.old) n (N.held note.old) self.old → IsKeptUp o (K.held out.new) n (N.held note.new) self.new) }
        ensures so_far { OnErr result ((o n : _) → IsKeptUp o (K.held out.old) n (N.held note.old) self.old → AppendsPrefix o (K.held out.new) (output_of self.old.course.scene)) }
        ensures noted { OnErr result ((o n : _) → IsKeptUp o (K.held out.old) n (N.held note.old) self.old → HasNoted self.old.course.scene self.old.course.drift n (N.held note.new)) }
        ensures faults { HasFaults (K.faults out.old) (K.faults out.new) (N.faults note.old) (N.faults note.new) result }
        ensures counted { tests.new + self.old.course.course.tests ≤ tests.old + self.new.course.course.tests }
    {
        let mut rest = Rest::new(false);
        for _ in rt.forever() {
            if let Some(last) = self.course.last() {
                return Ok(last);
            }
            let was_busy = self.turn(rt, split, swap, seat, out, note, gate, tests)?;
            rest.after(rt, was_busy, 0);
        }
        unreachable!()
    }

    /// Posts, tries once to collect and steps, as far as the run may; whether it collected or stepped.
    fn turn<R: Threads + Sync, K: Sink, N: Sink, G: Gate, L: Ledger>(
        &mut self,
        rt: &R,
        split: bool,
        swap: &Swap,
        seat: &mut DynSeat,
        out: &mut K,
        note: &mut N,
        gate: &G,
        tests: &mut Steps<L>,
    ) -> Result<bool, WorldStop>
        requires at_work { IsAtWork swap.now seat.old self.old }
        requires goes_on { self.old.course.course.last ≡ None }
        ensures seat { seat.new.table ≡ seat.old.table }
        ensures scene { self.new.course.scene ≡ self.old.course.scene }
        ensures drift { self.new.course.drift ≡ self.old.course.drift }
        ensures at_work { OnOk result (IsAtWork swap.now seat.new self.new) }
        ensures kept { OnOk result ((o n : _) → IsKeptUp o (K.held out.old) n (N.held note.old) self.old → IsKeptUp o (K.held out.new) n (N.held note.new) self.new) }
        ensures so_far { OnErr result ((o n : _) → IsKeptUp o (K.held out.old) n (N.held note.old) self.old → AppendsPrefix o (K.held out.new) (output_of self.old.course.scene)) }
        ensures noted { OnErr result ((o n : _) → IsKeptUp o (K.held out.old) n (N.held note.old) self.old → HasNoted self.old.course.scene self.old.course.drift n (N.held note.new)) }
        ensures faults { HasFaults (K.faults out.old) (K.faults out.new) (N.faults note.old) (N.faults note.new) result }
        ensures counted { tests.new + self.old.course.course.tests ≤ tests.old + self.new.course.course.tests }
    {
        let _course = self.course.now();
        self.post(swap, seat, gate);
        let has_collected = self.collect(swap, seat, note, gate)?;
        let has_stepped = self.step(rt, split, out, gate, tests)?;
        Ok(has_collected || has_stepped)
    }

    /// Posts the state, if the parcel is at home and the run may.
    fn post<G: Gate>(&mut self, swap: &Swap, seat: &mut DynSeat, gate: &G)
        requires at_work { IsAtWork swap.now seat.old self.old }
        ensures at_work { IsAtWork swap.now seat.new self.new }
        ensures course { self.new.course ≡ self.old.course }
        ensures lists { self.new.lists ≡ self.old.lists }
    {
        if !self.course.can_post() {
            return;
        }
        if let Some(mut parcel) = self.home.take() {
            self.course.post_into(&mut parcel.snap);
            gate.pass(Point::Post, self.next_list());
            swap.post(seat, parcel);
        }
    }

    /// Tries once to collect the parcel, if it is out, and takes its list into use; whether it did.
    fn collect<N: Sink, G: Gate>(
        &mut self,
        swap: &Swap,
        seat: &mut DynSeat,
        note: &mut N,
        gate: &G,
    ) -> Result<bool, WorldStop>
        requires at_work { IsAtWork swap.now seat.old self.old }
        requires goes_on { self.old.course.course.last ≡ None }
        ensures seat { seat.new.table ≡ seat.old.table }
        ensures scene { self.new.course.scene ≡ self.old.course.scene }
        ensures drift { self.new.course.drift ≡ self.old.course.drift }
        ensures tests { self.new.course.course.tests ≡ self.old.course.course.tests }
        ensures last { self.new.course.course.last ≡ self.old.course.course.last }
        ensures at_work { OnOk result (IsAtWork swap.now seat.new self.new) }
        ensures kept { OnOk result ((o out n : _) → IsKeptUp o out n (N.held note.old) self.old → IsKeptUp o out n (N.held note.new) self.new) }
        ensures noted { OnErr result ((o out n : _) → IsKeptUp o out n (N.held note.old) self.old → HasNoted self.old.course.scene self.old.course.drift n (N.held note.new)) }
        ensures count { HasCount (N.faults note.old) (N.faults note.new) result }
    {
        if self.home.is_some() {
            return Ok(false);
        }
        gate.pass(Point::Collect, self.next_list());
        match swap.collect(seat) {
            Some(parcel) => {
                self.take_up(parcel, note)?;
                Ok(true)
            }
            None => Ok(false),
        }
    }

    /// Takes the list of a collected parcel into use, writes its row, and keeps the parcel at home.
    #[tactic(auto, unfolding(dem_model::specs::World::with_list))]
    pub fn take_up<N: Sink>(&mut self, parcel: Parcel, note: &mut N) -> Result<(), WorldStop>
        requires goes_on { self.old.course.course.last ≡ None }
        requires few { self.old.lists ≤ lists_by self.old.course.course.from }
        requires out { IsOut self.old.course.scene self.old.course.course (record { step = parcel.snap.step; bodies = parcel.snap.bodies }) }
        requires answer { IsAnswer (Some (terms_of self.old.course.scene self.old.course.drift)) (cargo_of parcel) }
        ensures scene { self.new.course.scene ≡ self.old.course.scene }
        ensures drift { self.new.course.drift ≡ self.old.course.drift }
        ensures tests { self.new.course.course.tests ≡ self.old.course.course.tests }
        ensures last { self.new.course.course.last ≡ self.old.course.course.last }
        ensures few { OnOk result (self.new.lists ≤ lists_by self.new.course.course.from) }
        ensures kept { OnOk result ((o out n : _) → IsKeptUp o out n (N.held note.old) self.old → IsKeptUp o out n (N.held note.new) self.new) }
        ensures noted { OnErr result ((o out n : _) → IsKeptUp o out n (N.held note.old) self.old → HasNoted self.old.course.scene self.old.course.drift n (N.held note.new)) }
        ensures home { OnOk result ((p : Parcel) × (self.new.home ≡ Some p) × (p.snap ≡ parcel.snap)) }
        ensures count { HasCount (N.faults note.old) (N.faults note.new) result }
    {
        let Parcel {
            snap,
            list,
            refused,
        } = parcel;
        let lists = self.next_list();
        if refused {
            return Err(WorldStop::OutOfMemory);
        }
        match self.course.collect(list, note) {
            Ok(list) => {
                self.lists = lists;
                self.home = Some(Parcel {
                    snap,
                    list,
                    refused,
                });
                Ok(())
            }
            Err((_, stop)) => Err(stop),
        }
    }

    /// The number of the list that comes next, from 1.
    pub fn next_list(&self) -> u64
        requires few { self.now.lists ≤ lists_by self.now.course.course.from }
        ensures value { result ≡ self.now.lists + 1 }
        ensures course { IsOnCourse self.now.course.scene self.now.course.drift self.now.course.course }
    {
        let _now = self.course.now();
        self.lists + 1
    }

    /// Makes a step, if the run may, and else makes ahead what the next step needs; whether it made the step.
    pub fn step<R: Threads + Sync, K: Sink, G: Gate, L: Ledger>(
        &mut self,
        rt: &R,
        split: bool,
        out: &mut K,
        gate: &G,
        tests: &mut Steps<L>,
    ) -> Result<bool, WriteFault>
        ensures scene { self.new.course.scene ≡ self.old.course.scene }
        ensures drift { self.new.course.drift ≡ self.old.course.drift }
        ensures idle { IfOk result (λ has_stepped. has_stepped ≡ false → self.new.course ≡ self.old.course) }
        ensures home { self.new.home ≡ self.old.home }
        ensures few { self.old.lists ≤ lists_by self.old.course.course.from → self.new.lists ≤ lists_by self.new.course.course.from }
        ensures at_work { (table seat : _) → IsAtWork table seat self.old → IsAtWork table seat self.new }
        ensures kept { OnOk result ((o n note : _) → IsKeptUp o (K.held out.old) n note self.old → IsKeptUp o (K.held out.new) n note self.new) }
        ensures so_far { OnErr result ((o n note : _) → IsKeptUp o (K.held out.old) n note self.old → AppendsPrefix o (K.held out.new) (output_of self.old.course.scene)) }
        ensures noted { OnErr result ((o n note : _) → IsKeptUp o (K.held out.old) n note self.old → HasNoted self.old.course.scene self.old.course.drift n note) }
        ensures count { Counts (K.faults out.old) (K.faults out.new) result }
        ensures counted { tests.new + self.old.course.course.tests ≤ tests.old + self.new.course.course.tests }
    {
        if !self.course.can_step() {
            self.course.prepare();
            return Ok(false);
        }
        gate.pass(Point::Step, self.course.now() as u64 + 1);
        self.course.step_on(threads_for(rt, split), out, tests)?;
        Ok(true)
    }
}

/// The threads that contacts are computed by, where they are wanted.
fn threads_for<R>(rt: &R, split: bool) -> Option<&R> {
    if split { Some(rt) } else { None }
}

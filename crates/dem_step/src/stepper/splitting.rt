//! The step on a list with its contacts computed by several threads.

ghost use Rattle.std.specs.Prelude.{◌+◌, ◌≤◌, length};
ghost use Rattle.dem_step.specs.Split.{SplitsOnList};
ghost use Rattle.dem_step.specs.Stepper.{CanStep, StepsOnList};

use crate::advancing::advance_split;
use crate::split::{SplitStop, meet_split};
use crate::stepper::{Dyn, steps_left};
use dem_model::{End, OutOfMemory, Steps};
use std::sync::ledger::Ledger;
use std::thread::Threads;

impl<'s> Dyn<'s> {
    /// Makes one step on the list in use with its contacts computed by several threads, or tells the limit that it passes, or that
    /// memory was refused; then nothing has changed, and the same step may be made by `step`.
    pub fn step_split<R: Threads + Sync>(&mut self, rt: &R) -> Result<(), SplitStop>
        requires { CanStep self.old }
        ensures { SplitsOnList self.old self.new result }
    {
        self.met = false;
        self.prepared.make(self.shapes, &self.bodies);
        let left = steps_left(self.contacts.list().from(), self.step, self.drift);
        let centers = &self.prepared.spheres.centers;
        self.marks
            .renew(self.shapes, centers, self.contacts.list(), left);
        if let Err(OutOfMemory) = self.split.gather(self.shapes) {
            return Err(SplitStop::OutOfMemory);
        }
        meet_split(
            rt,
            &mut self.split,
            self.loads.as_mut_slice(),
            self.fresh.as_mut_slice(),
            self.shapes,
            &self.prepared.spheres,
            self.prepared.unpacked.as_slice(),
            &self.contacts,
            &self.marks,
        );
        match advance_split(
            rt,
            &mut self.next,
            self.shapes,
            &self.bodies,
            self.prepared.unpacked.as_slice(),
            &self.prepared.spheres.matrices,
            self.loads.as_slice(),
            self.step + 1,
        ) {
            Ok(()) => {
                std::mem::swap(&mut self.bodies, &mut self.next);
                self.contacts.exchange(&mut self.fresh);
                self.prepared.ready = false;
                self.step += 1;
                Ok(())
            }
            Err(end) => Err(SplitStop::Ended(end)),
        }
    }

    /// Makes the step of `step`, with its contacts computed by several threads where they are given and memory is had.
    pub fn step_on<R: Threads + Sync, L: Ledger>(
        &mut self,
        threads: Option<&R>,
        tests: &mut Steps<L>,
    ) -> Result<(), End>
        requires { CanStep self.old }
        ensures step { StepsOnList self.old self.new result }
        ensures counted { tests.new ≤ tests.old + length self.old.contacts.list.pairs }
    {
        match threads {
            Some(rt) => self.step_by(rt, tests),
            None => self.step(tests),
        }
    }

    /// Makes the step of `step` by several threads where its pairs weren't met ahead and memory is had, and else by this one.
    fn step_by<R: Threads + Sync, L: Ledger>(
        &mut self,
        rt: &R,
        tests: &mut Steps<L>,
    ) -> Result<(), End>
        requires { CanStep self.old }
        ensures step { StepsOnList self.old self.new result }
        ensures counted { tests.new ≤ tests.old + length self.old.contacts.list.pairs }
    {
        if self.met {
            return self.step(tests);
        }
        match self.step_split(rt) {
            Ok(()) => Ok(()),
            Err(SplitStop::Ended(end)) => Err(end),
            Err(SplitStop::OutOfMemory) => self.step(tests),
        }
    }
}

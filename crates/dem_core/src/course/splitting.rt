//! The step of a run whose contacts several threads may compute.

ghost use Rattle.std.specs.Prelude.{◌≡◌, ◌+◌, ◌≤◌, true, length, IfOk};
ghost use Rattle.dem_outside.specs.Faults.{Counts};
ghost use Rattle.dem_outside.specs.Known.{PutAppends};
ghost use Rattle.dem_model.specs.Step.{step_of};
ghost use Rattle.dem_model.specs.World.{may_step, stepped, step_text};

use crate::course::Course;
use crate::frame::{done_at, write_reached};
use dem_frame::{WriteFault, write_end};
use dem_model::{Last, Steps};
use dem_outside::Sink;
use std::sync::ledger::Ledger;
use std::thread::Threads;

impl<'s> Course<'s> {
    /// Makes the step of `step`, with its contacts computed by several threads where they are given and memory is had.
    pub fn step_on<R: Threads + Sync, K: Sink, L: Ledger>(
        &mut self,
        threads: Option<&R>,
        out: &mut K,
        tests: &mut Steps<L>,
    ) -> Result<Option<Last>, WriteFault>
        requires { may_step self.old.scene self.old.drift self.old.course ≡ true }
        ensures stepped { self.new ≡ record { scene = self.old.scene; drift = self.old.drift; course = stepped self.old.scene self.old.course } }
        ensures last { IfOk result (λ last. last ≡ self.new.course.last) }
        ensures count { Counts (K.faults out.old) (K.faults out.new) result }
        ensures written { PutAppends (K.held out.old) (K.held out.new) result (step_text self.old.scene (step_of self.old.scene self.old.course.state)) }
        ensures counted { tests.new ≤ tests.old + length self.old.course.pairs }
    {
        let scene = self.run.shapes().scene();
        self.tests += self.run.contacts().list().len() as u64;
        match self.run.step_on(threads, tests) {
            Ok(()) => {
                let _contacts = self.run.contacts();
                self.last = done_at(scene, self.run.now());
                write_reached(out, &self.run)?;
                Ok(self.last)
            }
            Err(end) => {
                self.last = Some(Last::Passed(end));
                write_end(out, &Last::Passed(end))?;
                Ok(self.last)
            }
        }
    }
}

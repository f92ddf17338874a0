//! A run on lists: what the engine does on its own state.

ghost use Rattle.std.specs.Prelude.{◌≡◌, ◌+◌, ◌<◌, ◌≤◌, true, length, slice_get, Some, IfOk};
ghost use Rattle.dem_outside.specs.Faults.{Counts};
ghost use Rattle.dem_outside.specs.Known.{PutAppends};
ghost use Rattle.dem_model.specs.Step.{step_of};
ghost use Rattle.dem_model.specs.declared.limits.TheConstants.{MAX_DRIFT};
ghost use Rattle.dem_step.specs.Stepper.{IsSnapshotOfRun, IsListOfRun};
ghost use Rattle.dem_model.specs.World.{is_open as is_open_of, may_post, may_step, stepped, step_text};
ghost use Rattle.dem_core.specs.Courses.{IsOnCourse, HoldsRight, MayCollect, BeginsCourse, Collects};

use crate::did::WorldStop;
use crate::frame::{done_at, write_reached};
use dem_frame::{WriteFault, write_end, write_taken};
use dem_list::PairList;
use dem_model::{Body, Last, OutOfMemory, Steps, TakenRow};
use dem_outside::Sink;
use dem_shape::{Shapes, Snapshot};
use dem_step::Dyn;
use std::alloc::Global;
use std::marker::Model;
use std::sync::ledger::Ledger;

mod splitting;

/// A run of a scene on lists of near pairs, without the exchange that brings them: seen as the scene, the drift limit, and
/// how far it has come. It writes what the plain run writes.
#[derive(Drop)]
pub struct Course<'s> {
    run: Dyn<'s>,
    taken_at: u32,
    tests: u64,
    last: Option<Last>,
}

impl<'s> Model for Course<'s> {
    ghost use Rattle.dem_core.specs.Courses.{Running, IsOnCourse, course_of, IsCounted};

    ghost Value = { Running };

    ghost view = { λ a. record { scene = a.run.scene; drift = a.run.drift; course = course_of a.run a.taken_at a.tests a.last } };

    ghost invariant = { λ a. IsOnCourse a.run.scene a.run.drift (course_of a.run a.taken_at a.tests a.last) × IsCounted (course_of a.run a.taken_at a.tests a.last) };
}

impl<'s> Course<'s> {
    /// The run of a scene at its first state, without a list; `drift` is the greatest age of a list, in steps. Writes the first
    /// frame, and the end row where the scene has no steps.
    pub fn new<K: Sink>(
        alloc: Global,
        shapes: &'s Shapes<'s>,
        drift: u32,
        out: &mut K,
    ) -> Result<Course<'s>, WorldStop>
        requires { drift ≤ MAX_DRIFT }
        ensures { BeginsCourse shapes.now drift (K.held out.old) (K.held out.new) (K.faults out.old) (K.faults out.new) result }
    {
        let run = Dyn::new(alloc, shapes, drift)?;
        write_reached(out, &run)?;
        Ok(Course {
            run,
            taken_at: 0,
            tests: 0,
            last: done_at(shapes.scene(), 0),
        })
    }

    /// Whether a snapshot may be posted: the run is open, and no list is in use or the state is later than the one it was made from.
    pub fn can_post(&self) -> bool
        ensures { result ≡ may_post self.now.course }
    {
        match self.run.list_from() {
            Some(from) => self.last.is_none() && from < self.run.now(),
            None => self.last.is_none(),
        }
    }

    /// Copies the number and the bodies of the state into a snapshot.
    pub fn post_into(&self, snap: &mut Snapshot)
        requires { length snap.old.bodies ≡ length self.now.scene.clumps }
        ensures value { snap.new ≡ record { step = self.now.course.state.step; bodies = self.now.course.state.bodies } }
        ensures of_run { IsSnapshotOfRun self.now.scene snap.new }
    {
        self.run.snapshot_into(snap);
    }

    /// Takes a list into use and writes its row to `note`. The old list comes back; after a refusal nothing has changed and the
    /// very list comes back; after a failed put the list is in use and the old one comes back.
    pub fn collect<N: Sink>(
        &mut self,
        list: PairList,
        note: &mut N,
    ) -> Result<PairList, (PairList, WorldStop)>
        requires near { IsListOfRun self.old.scene self.old.drift list }
        requires may { MayCollect self.old.course list.from }
        ensures { Collects self.old self.new list (N.held note.old) (N.held note.new) (N.faults note.old) (N.faults note.new) result }
    {
        let row = TakenRow {
            from: list.from(),
            at: self.run.now(),
            pairs: list.len(),
        };
        match self.run.adopt(list) {
            Ok(old) => {
                self.taken_at = row.at;
                match write_taken(note, &row) {
                    Ok(()) => Ok(old),
                    Err(WriteFault) => Err((old, WorldStop::WriteFault)),
                }
            }
            Err((list, OutOfMemory)) => Err((list, WorldStop::OutOfMemory)),
        }
    }

    /// Whether a step may be made: the run is open, a list is in use that isn't older than the drift limit, and steps are left.
    pub fn can_step(&self) -> bool
        ensures { result ≡ may_step self.now.scene self.now.drift self.now.course }
    {
        self.last.is_none() && self.run.can_step()
    }

    /// Makes ahead most of the next step, while its list is waited for. The run is as it was.
    pub fn prepare(&mut self)
        ensures { self.new ≡ self.old }
    {
        self.run.prepare();
    }

    /// Makes one step on the list in use and writes what is due: the frame of the new state, and the end row where the run ends.
    /// It counts at most a test per pair of the list, and answers how the run has ended, if it has.
    pub fn step<K: Sink, L: Ledger>(
        &mut self,
        out: &mut K,
        tests: &mut Steps<L>,
    ) -> Result<Option<Last>, WriteFault>
        requires { may_step self.old.scene self.old.drift self.old.course ≡ true }
        ensures stepped { self.new ≡ record { scene = self.old.scene; drift = self.old.drift; course = stepped self.old.scene self.old.course } }
        ensures last { IfOk result (λ last. last ≡ self.new.course.last) }
        ensures count { Counts (K.faults out.old) (K.faults out.new) result }
        ensures written { PutAppends (K.held out.old) (K.held out.new) result (step_text self.old.scene (step_of self.old.scene self.old.course.state)) }
        ensures counted { tests.new ≤ tests.old + length self.old.course.pairs }
    {
        let scene = self.run.shapes().scene();
        self.tests += self.run.contacts().list().len() as u64;
        match self.run.step(tests) {
            Ok(()) => {
                let _contacts = self.run.contacts();
                self.last = done_at(scene, self.run.now());
                write_reached(out, &self.run)?;
                Ok(self.last)
            }
            Err(end) => {
                self.last = Some(Last::Passed(end));
                write_end(out, &Last::Passed(end))?;
                Ok(self.last)
            }
        }
    }

    /// The number of the state that the run has reached; what it tells besides holds of every run.
    pub fn now(&self) -> u32
        ensures value { result ≡ self.now.course.state.step }
        ensures course { IsOnCourse self.now.scene self.now.drift self.now.course }
        ensures held { HoldsRight self.now.scene self.now.course }
    {
        let _contacts = self.run.contacts();
        self.run.now()
    }

    /// Whether the run goes on.
    #[tactic(auto, unfolding(dem_model::specs::World::is_open))]
    pub fn is_open(&self) -> bool
        ensures { result ≡ is_open_of self.now.course }
    {
        self.last.is_none()
    }

    /// How the run has ended, where it has.
    pub fn last(&self) -> Option<Last>
        ensures { result ≡ self.now.course.last }
    {
        self.last
    }

    /// The pairs of the list then in use, summed over the steps begun.
    pub fn tests_made(&self) -> u64
        ensures { result ≡ self.now.course.tests }
    {
        self.tests
    }

    /// The body of a clump.
    pub fn body(&self, clump: u32) -> Body
        requires { clump < length self.now.scene.clumps }
        ensures { slice_get self.now.course.state.bodies clump ≡ Some result }
    {
        self.run.body(clump)
    }
}

//! The world of turns: a run on lists, and the exchange that brings them, on one thread.

ghost use Rattle.std.specs.Prelude.{◌≡◌, ◌+◌, ◌<◌, ◌≤◌, true, false, length, slice_get, Ok, Some, IfOk};
ghost use Rattle.dem_model.specs.World.{enabled, next_turn as next_turn_of, turn_text, turn_rows, rows_text, is_open};
ghost use Rattle.dem_core.specs.Courses.{IsOnCourse, HoldsRight};
ghost use Rattle.dem_model.specs.declared.state.Turn.TheVariants.{Post, Take, Deliver, Collect, Step};
ghost use Rattle.dem_bins.specs.Bins.{IsGridOf};
ghost use Rattle.dem_step.specs.Stepper.{IsSnapshotOfRun};
ghost use Rattle.dem_core.specs.Worlds.{HasParcel, Turns, NoPut, Gains, HasCount, HasFaults, BeginsWorld, HasEnded, GoesOn, most_of_turn};

use crate::course::Course;
use crate::did::{Did, WorldStop};
use crate::parcel::{Parcel, Place};
use dem_bins::Grid;
use dem_frame::WriteFault;
use dem_list::PairList;
use dem_model::{Body, Last, OutOfMemory, Steps, Turn};
use dem_outside::Sink;
use dem_shape::{Shapes, Snapshot};
use std::alloc::Global;
use std::marker::Model;
use std::sync::ledger::Ledger;

/// A run of a scene on lists of near pairs, and a parcel that goes out with a snapshot and comes back with its list: seen as
/// the scene, the drift limit, the world of its turns, and whether a failed put has stopped it.
#[derive(Drop)]
pub struct World<'s> {
    alloc: Global,
    shapes: &'s Shapes<'s>,
    grid: &'s Grid,
    course: Course<'s>,
    parcel: Parcel,
    stopped: bool,
}

impl<'s> Model for World<'s> {
    ghost use Rattle.dem_core.specs.Worlds.{Turning, world_of, IsKept};

    ghost Value = { Turning };

    ghost view = { λ a. world_of a.course a.grid.now.bin a.parcel.place a.parcel.snap a.stopped };

    ghost invariant = { λ a. IsKept a.shapes.now a.grid.now a.course a.parcel };
}

impl<'s> World<'s> {
    /// The world of a scene at its first state, without a list, the parcel at home; the grid makes its lists, and says how old one
    /// may be, in steps. Writes the first frame, and the end row where the scene has no steps.
    pub fn new<K: Sink>(
        alloc: Global,
        shapes: &'s Shapes<'s>,
        grid: &'s Grid,
        out: &mut K,
    ) -> Result<World<'s>, WorldStop>
        requires { IsGridOf shapes.now grid.now }
        ensures { BeginsWorld shapes.now grid.now (K.held out.old) (K.held out.new) (K.faults out.old) (K.faults out.new) result }
    {
        let clumps = shapes.scene().clumps.len() as u32;
        let parcel = Parcel::new(alloc, clumps)?;
        match Course::new(alloc, shapes, grid.drift(), out) {
            Ok(course) => Ok(World {
                alloc,
                shapes,
                grid,
                course,
                parcel,
                stopped: false,
            }),
            Err(stop) => {
                drop(parcel);
                Err(stop)
            }
        }
    }

    /// Makes one turn, if the world may take it. Post, Take and Step take no memory; Deliver and Collect may be refused it, and
    /// then the world is as before. Only Step writes to `out`, only Collect to `note`; a failed put stops the world.
    pub fn turn<K: Sink, N: Sink, L: Ledger>(
        &mut self,
        t: Turn,
        out: &mut K,
        note: &mut N,
        tests: &mut Steps<L>,
    ) -> Result<Did, WorldStop>
        requires { self.old.stopped ≡ false }
        ensures turned { Turns self.old self.new t result }
        ensures written { Gains (turn_text self.old.scene self.old.drift self.old.world t) (K.held out.old) (K.held out.new) result }
        ensures noted { Gains (rows_text (turn_rows self.old.scene self.old.drift self.old.world t)) (N.held note.old) (N.held note.new) result }
        ensures faults { HasFaults (K.faults out.old) (K.faults out.new) (N.faults note.old) (N.faults note.new) result }
        ensures counted { tests.new ≤ tests.old + most_of_turn self.old t }
    {
        if !self.may(t) {
            return Ok(Did::Idle);
        }
        match t {
            Turn::Post => Ok(self.post()),
            Turn::Take => Ok(self.take()),
            Turn::Deliver => self.deliver(tests),
            Turn::Collect => self.collect(note),
            Turn::Step => self.step(out, tests),
        }
    }

    /// Makes the turns that are left: a step while one may be made, and else the exchange. Answers how the run ended, at once
    /// where it has; then all that the world has written is the output. After a refusal of memory the turns before the refused
    /// one were made.
    pub fn finish<K: Sink, N: Sink, L: Ledger>(
        &mut self,
        out: &mut K,
        note: &mut N,
        tests: &mut Steps<L>,
    ) -> Result<Last, WorldStop>
        requires { self.old.stopped ≡ false }
        ensures goes_on { GoesOn self.old self.new (K.held out.old) (K.held out.new) (N.held note.old) (N.held note.new) tests.old tests.new result }
        ensures ends { IfOk result (HasEnded self.new) }
        ensures faults { HasFaults (K.faults out.old) (K.faults out.new) (N.faults note.old) (N.faults note.new) result }
    {
        loop {
            let _now = self.now();
            if let Some(last) = self.course.last() {
                return Ok(last);
            }
            let t = self.next_turn();
            self.turn(t, out, note, tests)?;
        }
    }

    /// Whether a failed put has stopped the world.
    pub fn stopped(&self) -> bool
        ensures { result ≡ self.now.stopped }
    {
        self.stopped
    }

    /// The number of the state that the world has reached; what it tells besides holds of every world.
    pub fn now(&self) -> u32
        ensures value { result ≡ self.now.world.course.state.step }
        ensures course { IsOnCourse self.now.scene self.now.drift self.now.world.course }
        ensures held { HoldsRight self.now.scene self.now.world.course }
        ensures parcel { HasParcel self.now.scene self.now.world.course self.now.world.parcel }
    {
        self.course.now()
    }

    /// The pairs of the list then in use, summed over the steps begun.
    pub fn tests_made(&self) -> u64
        ensures { result ≡ self.now.world.course.tests }
    {
        self.course.tests_made()
    }

    /// The body of a clump.
    pub fn body(&self, clump: u32) -> Body
        requires { clump < length self.now.scene.clumps }
        ensures { slice_get self.now.world.course.state.bodies clump ≡ Some result }
    {
        self.course.body(clump)
    }

    /// Copies the number and the bodies of the state that the world has reached into a snapshot with a body for each clump; they
    /// are sound for the scene.
    pub fn snapshot_into(&self, snap: &mut Snapshot)
        requires { length snap.old.bodies ≡ length self.now.scene.clumps }
        ensures value { snap.new ≡ record { step = self.now.world.course.state.step; bodies = self.now.world.course.state.bodies } }
        ensures of_run { IsSnapshotOfRun self.now.scene snap.new }
    {
        self.course.post_into(snap);
    }

    // Whether the world may take this turn.
    fn may(&self, t: Turn) -> bool
        ensures { result ≡ enabled self.now.scene self.now.drift self.now.world t }
    {
        match t {
            Turn::Post => self.course.can_post() && self.parcel.place.is_home(),
            Turn::Take => self.course.is_open() && self.parcel.place.is_posted(),
            Turn::Deliver => self.course.is_open() && self.parcel.place.is_taken(),
            Turn::Collect => self.course.is_open() && self.parcel.place.is_delivered(),
            Turn::Step => self.course.can_step(),
        }
    }

    // The turn with which an open world goes on by itself.
    fn next_turn(&self) -> Turn
        requires { is_open self.now.world.course ≡ true }
        ensures { result ≡ next_turn_of self.now.scene self.now.drift self.now.world }
    {
        if self.course.can_step() {
            return Turn::Step;
        }
        match self.parcel.place {
            Place::Home => Turn::Post,
            Place::Posted => Turn::Take,
            Place::Taken => Turn::Deliver,
            Place::Delivered => Turn::Collect,
        }
    }

    // Copies the state into the parcel.
    fn post(&mut self) -> Did
        requires going { self.old.stopped ≡ false }
        requires may { enabled self.old.scene self.old.drift self.old.world Post ≡ true }
        ensures { Turns self.old self.new Post (Ok result) }
    {
        let _now = self.course.now();
        self.course.post_into(&mut self.parcel.snap);
        self.parcel.place = Place::Posted;
        Did::Moved
    }

    // Kinematics takes the parcel.
    fn take(&mut self) -> Did
        requires going { self.old.stopped ≡ false }
        requires may { enabled self.old.scene self.old.drift self.old.world Take ≡ true }
        ensures { Turns self.old self.new Take (Ok result) }
    {
        self.parcel.place = Place::Taken;
        Did::Moved
    }

    // Kinematics makes the list of the snapshot, in the buffer of the list before the last.
    fn deliver<L: Ledger>(&mut self, tests: &mut Steps<L>) -> Result<Did, WorldStop>
        requires going { self.old.stopped ≡ false }
        requires may { enabled self.old.scene self.old.drift self.old.world Deliver ≡ true }
        ensures turned { Turns self.old self.new Deliver result }
        ensures no_put { NoPut result }
        ensures counted { tests.new ≤ tests.old + most_of_turn self.old Deliver }
    {
        let buffer = std::mem::replace(&mut self.parcel.list, PairList::empty(self.alloc));
        match self
            .grid
            .build(self.alloc, self.shapes, &self.parcel.snap, buffer, tests)
        {
            Ok(list) => {
                self.parcel.list = list;
                self.parcel.place = Place::Delivered;
                Ok(Did::Moved)
            }
            Err((buffer, OutOfMemory)) => {
                self.parcel.list = buffer;
                Err(WorldStop::OutOfMemory)
            }
        }
    }

    // Takes the list of the parcel into use; the one before it is the next buffer.
    fn collect<N: Sink>(&mut self, note: &mut N) -> Result<Did, WorldStop>
        requires going { self.old.stopped ≡ false }
        requires may { enabled self.old.scene self.old.drift self.old.world Collect ≡ true }
        ensures turned { Turns self.old self.new Collect result }
        ensures noted { Gains (rows_text (turn_rows self.old.scene self.old.drift self.old.world Collect)) (N.held note.old) (N.held note.new) result }
        ensures count { HasCount (N.faults note.old) (N.faults note.new) result }
    {
        let list = std::mem::replace(&mut self.parcel.list, PairList::empty(self.alloc));
        match self.course.collect(list, note) {
            Ok(buffer) => {
                self.parcel.list = buffer;
                self.parcel.place = Place::Home;
                Ok(Did::Moved)
            }
            Err((buffer, WorldStop::WriteFault)) => {
                self.parcel.list = buffer;
                self.parcel.place = Place::Home;
                self.stopped = true;
                Err(WorldStop::WriteFault)
            }
            Err((list, WorldStop::OutOfMemory)) => {
                self.parcel.list = list;
                Err(WorldStop::OutOfMemory)
            }
        }
    }

    // Makes a step.
    fn step<K: Sink, L: Ledger>(
        &mut self,
        out: &mut K,
        tests: &mut Steps<L>,
    ) -> Result<Did, WorldStop>
        requires going { self.old.stopped ≡ false }
        requires may { enabled self.old.scene self.old.drift self.old.world Step ≡ true }
        ensures turned { Turns self.old self.new Step result }
        ensures written { Gains (turn_text self.old.scene self.old.drift self.old.world Step) (K.held out.old) (K.held out.new) result }
        ensures count { HasCount (K.faults out.old) (K.faults out.new) result }
        ensures counted { tests.new ≤ tests.old + length self.old.world.course.pairs }
    {
        match self.course.step(out, tests) {
            Ok(Some(last)) => Ok(Did::Closed(last)),
            Ok(None) => Ok(Did::Moved),
            Err(WriteFault) => {
                self.stopped = true;
                Err(WorldStop::WriteFault)
            }
        }
    }
}

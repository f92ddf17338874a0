//! A run that steps on lists of near pairs.

ghost use Rattle.std.specs.Prelude.{◌≡◌, ◌+◌, ◌<◌, ◌≤◌, ◌↔◌, true, length, slice_get, Some, IfOk, IfErr, OnOk, OnErr, IfSome};
ghost use Rattle.dem_num.specs.Vectors.{widened};
ghost use Rattle.dem_model.specs.Carry.{Agrees};
ghost use Rattle.dem_model.specs.Centers.{body_at};
ghost use Rattle.dem_model.specs.Plain.{plain_at};
ghost use Rattle.dem_model.specs.Sound.{IsBodyOf};
ghost use Rattle.dem_model.specs.Step.{clump_at};
ghost use Rattle.dem_model.specs.declared.limits.TheConstants.{MAX_DRIFT};
ghost use Rattle.dem_margin.specs.NearList.{IsNearListOf};
ghost use Rattle.dem_voxel.specs.Voxel.{packed};
ghost use Rattle.dem_step.specs.Contacts.{AreContacts, held_by, IsHeldIn};
ghost use Rattle.dem_step.specs.Stepper.{
  IsSnapshotOfRun,
  IsListOfRun,
  IsInTime,
  IsInUse,
  CanStep,
  Begins,
  TakesList,
  StepsOnList,
};

use crate::advancing::advance_all;
use crate::ahead::hand_on;
use crate::marks::Marks;
use crate::meeting::{meet_uncounted, meet_unless};
use crate::prepared::Prepared;
use crate::room::make_room;
use crate::split::SplitRoom;
use crate::stored::StoredBodies;
use dem_force::no_loads;
use dem_hist::Contacts;
use dem_list::PairList;
use dem_model::{Body, End, Load, OutOfMemory, Steps};
use dem_num::Vec3;
use dem_shape::{Shapes, Snapshot};
use dem_voxel::VoxelPos;
use std::alloc::Global;
use std::marker::{Brand, Model};
use std::sync::ledger::{Blank, Ledger};

mod splitting;

/// A run of a scene on lists of near pairs, seen as the scene, the drift limit, the plain state that it has reached, the
/// step of the list in use, and what is held of each of its pairs. The room of a step is made before it. `met` says that the
/// loads and the fresh entries are already those of the list in use where the run stands.
#[derive(Drop)]
pub struct Dyn<'s> {
    shapes: &'s Shapes<'s>,
    drift: u32,
    step: u32,
    listed: bool,
    bodies: StoredBodies,
    contacts: Contacts,
    marks: Marks,
    prepared: Prepared,
    loads: Vec<Load>,
    next: StoredBodies,
    fresh: Vec<Option<Vec3>>,
    spare: Vec<Option<Vec3>>,
    met: bool,
    split: SplitRoom,
}

impl<'s> Model for Dyn<'s> {
    ghost use Rattle.dem_step.specs.Stepper.{Stepper, state_at};
    ghost use Rattle.dem_step.specs.Ahead.{IsMetAhead};
    ghost use Rattle.dem_step.specs.Inside.{IsStepper, HasRoom, from_of};
    ghost use Rattle.dem_step.specs.Marks.{StayMarked};
    ghost use Rattle.dem_step.specs.Prepared.{CanPrepare};
    ghost use Rattle.std.specs.Prelude.{◌+◌, ◌≡◌, true};

    ghost Value = { Stepper };

    ghost view = { λ a. record { scene = a.shapes.now; drift = a.drift; state = state_at a.shapes.now a.step; from = from_of a.listed a.contacts.list.from; contacts = a.contacts } };

    ghost invariant = { λ a. IsStepper a.shapes.now a.drift a.step a.listed a.bodies a.contacts × HasRoom a.shapes.now a.loads.items a.next a.contacts.list.pairs a.fresh.items × CanPrepare a.shapes.now a.bodies a.prepared × StayMarked a.shapes.now a.step (a.contacts.list.from + a.drift) a.contacts.list.pairs a.marks × (a.met ≡ true → IsMetAhead a.shapes.now a.listed a.bodies a.contacts a.loads.items a.fresh.items) };
}

impl<'s> Dyn<'s> {
    /// The run of a scene at its first state, without a list; `drift` is the greatest age of a list, in steps.
    pub fn new(alloc: Global, shapes: &'s Shapes<'s>, drift: u32) -> Result<Dyn<'s>, OutOfMemory>
        requires { drift ≤ MAX_DRIFT }
        ensures { IfOk result (Begins shapes.now drift) }
    {
        let _scene = shapes.scene();
        Ok(Dyn {
            shapes,
            drift,
            step: 0,
            listed: false,
            bodies: StoredBodies::new(alloc, shapes)?,
            contacts: Contacts::new(alloc),
            marks: Marks::new(alloc),
            prepared: Prepared::new(alloc, shapes)?,
            loads: no_loads(alloc, shapes)?,
            next: StoredBodies::new(alloc, shapes)?,
            fresh: Vec::new(alloc),
            spare: Vec::new(alloc),
            met: false,
            split: SplitRoom::new(alloc),
        })
    }

    /// Takes a list of near pairs into use, from a step that lies no farther back than the drift limit. The old list comes
    /// back; after a refusal nothing has changed and the very list comes back.
    pub fn adopt(&mut self, list: PairList) -> Result<PairList, (PairList, OutOfMemory)>
        requires near { IsListOfRun self.old.scene self.old.drift list }
        requires in_time { IsInTime self.old list.from }
        ensures taken { OnOk result (TakesList self.old list self.new) }
        ensures kept { OnOk result (Agrees self.old.scene self.old.state (held_by self.new.contacts)) }
        ensures old_list { IfOk result (λ old. old ≡ self.old.contacts.list) }
        ensures unchanged { OnErr result (self.new ≡ self.old) }
        ensures new_list { IfErr result (λ refused. refused.0 ≡ list) }
    {
        if let Err(fault) = make_room(&mut self.spare, None, list.len()) {
            return Err((list, fault));
        }
        if let Err(fault) = self.marks.forget(list.len()) {
            return Err((list, fault));
        }
        match self.contacts.carry(list) {
            Ok(old) => {
                let drift = self.drift;
                self.prepared.make(self.shapes, &self.bodies);
                hand_on(
                    self.met,
                    self.loads.as_mut_slice(),
                    &mut self.fresh,
                    &mut self.spare,
                    &old,
                    drift,
                    self.shapes,
                    &self.prepared.spheres,
                    self.prepared.unpacked.as_slice(),
                    &self.contacts,
                );
                self.listed = true;
                Ok(old)
            }
            Err(refused) => Err(refused),
        }
    }

    /// Makes ahead most of the next step: where all spheres are, how they move, and what the pairs of the list in use come to.
    /// The next list, if one is taken before the step, keeps what its pairs came to. The run is as it was.
    pub fn prepare(&mut self)
        ensures { self.new ≡ self.old }
    {
        self.prepared.make(self.shapes, &self.bodies);
        if self.met {
            return;
        }
        if !self.listed {
            return;
        }
        self.marks.clear();
        let blank = Blank::new(1);
        meet_uncounted::<Brand>(
            self.loads.as_mut_slice(),
            self.fresh.as_mut_slice(),
            self.shapes,
            &self.prepared.spheres,
            self.prepared.unpacked.as_slice(),
            &self.contacts,
            &self.marks,
            blank,
        );
        self.met = true;
    }

    /// Makes one step on the list in use, or tells the limit that it passes; then nothing has changed. It counts a test per
    /// pair that it looks at: at most as many as the list has.
    pub fn step<L: Ledger>(&mut self, tests: &mut Steps<L>) -> Result<(), End>
        requires { CanStep self.old }
        ensures step { StepsOnList self.old self.new result }
        ensures counted { tests.new ≤ tests.old + length self.old.contacts.list.pairs }
    {
        self.prepared.make(self.shapes, &self.bodies);
        let left = steps_left(self.contacts.list().from(), self.step, self.drift);
        self.marks.renew_unless(
            self.met,
            self.shapes,
            &self.prepared.spheres.centers,
            self.contacts.list(),
            left,
        );
        meet_unless(
            self.met,
            self.loads.as_mut_slice(),
            self.fresh.as_mut_slice(),
            self.shapes,
            &self.prepared.spheres,
            self.prepared.unpacked.as_slice(),
            &self.contacts,
            &self.marks,
            tests,
        );
        match advance_all(
            &mut self.next,
            self.shapes,
            &self.bodies,
            self.prepared.unpacked.as_slice(),
            &self.prepared.spheres.matrices,
            self.loads.as_slice(),
            self.step + 1,
        ) {
            Ok(()) => {
                std::mem::swap(&mut self.bodies, &mut self.next);
                self.contacts.exchange(&mut self.fresh);
                self.prepared.ready = false;
                self.met = false;
                self.step += 1;
                Ok(())
            }
            Err(end) => Err(end),
        }
    }

    /// Copies the number of the step and the bodies into a snapshot.
    pub fn snapshot_into(&self, snap: &mut Snapshot)
        requires { length snap.old.bodies ≡ length self.now.scene.clumps }
        ensures value { snap.new ≡ record { step = self.now.state.step; bodies = self.now.state.bodies } }
        ensures of_run { IsSnapshotOfRun self.now.scene snap.new }
    {
        snap.step = self.step;
        self.bodies.unpack_into(&mut snap.bodies);
    }

    /// The number of the state that the run has reached; what it tells besides holds of every run.
    pub fn now(&self) -> u32
        ensures value { result ≡ self.now.state.step }
        ensures plain { plain_at self.now.scene self.now.state.step ≡ Some self.now.state }
    {
        self.step
    }

    /// The greatest age of a list, in steps.
    pub fn drift(&self) -> u32
        ensures value { result ≡ self.now.drift }
        ensures small { result ≤ MAX_DRIFT }
    {
        self.drift
    }

    /// Lends the table of the spheres of the scene.
    pub fn shapes(&self) -> &'s Shapes<'s>
        ensures { result.now ≡ self.now.scene }
    {
        self.shapes
    }

    /// Whether a step may be made: a list is in use, it isn't older than the drift limit, and not all steps are made.
    pub fn can_step(&self) -> bool
        ensures { (result ≡ true) ↔ CanStep self.now }
    {
        match self.list_from() {
            Some(from) => {
                is_in_time(from, self.now(), self.drift())
                    && self.now() < self.shapes().scene().steps
            }
            None => false,
        }
    }

    /// Whether a list isn't from later than where the run stands, and not older than the drift limit.
    pub fn can_adopt(&self, list: &PairList) -> bool
        ensures { (result ≡ true) ↔ IsInTime self.now list.now.from }
    {
        is_in_time(list.from(), self.now(), self.drift())
    }

    /// The near list of a snapshot of the plain run may be taken into use while it is in time. A law: it does nothing.
    pub fn list_of_run(&self, snap: &Snapshot, list: &PairList)
        requires snapshot { IsSnapshotOfRun self.now.scene snap.now }
        requires near { IsNearListOf self.now.scene self.now.drift snap.now list.now }
        ensures { IsListOfRun self.now.scene self.now.drift list.now }
    {}

    /// The step that the list in use was made from; None where none was taken into use.
    pub fn list_from(&self) -> Option<u32>
        ensures value { result ≡ self.now.from }
        ensures in_use { IfSome result (IsInUse self.now) }
    {
        if self.listed {
            Some(self.contacts.list().from())
        } else {
            None
        }
    }

    /// The body of a clump, sound for it.
    pub fn body(&self, clump: u32) -> Body
        requires { clump < length self.now.scene.clumps }
        ensures value { slice_get self.now.state.bodies clump ≡ Some result }
        ensures sound { IsBodyOf self.now.scene (clump_at self.now.scene clump) result }
    {
        self.bodies.get(clump as usize)
    }

    /// The stored position of a clump: that of its body.
    pub fn voxel(&self, clump: u32) -> VoxelPos
        requires { clump < length self.now.scene.clumps }
        ensures { result ≡ packed (widened (body_at self.now.state.bodies clump).p) }
    {
        self.bodies.voxel(clump as usize)
    }

    /// Lends the list in use and what is held of its pairs.
    pub fn contacts(&self) -> &Contacts
        ensures value { result.now ≡ self.now.contacts }
        ensures sound { AreContacts self.now.scene self.now.contacts }
        ensures agrees { Agrees self.now.scene self.now.state (held_by self.now.contacts) }
        ensures only { IsHeldIn self.now.state (held_by self.now.contacts) }
    {
        &self.contacts
    }
}

/// Whether a step isn't later than now, and no farther back than so many steps.
fn is_in_time(from: u32, now: u32, drift: u32) -> bool
    ensures { (result ≡ true) ↔ (from ≤ now × now ≤ from + drift) }
{
    from <= now && now - from <= drift
}

/// How many steps a list may be used yet, after the one from here.
pub fn steps_left(from: u32, now: u32, drift: u32) -> u32
    requires past { from ≤ now }
    requires young { now ≤ from + drift }
    ensures value { now + result ≡ from + drift }
    ensures size { result ≤ drift }
{
    drift - (now - from)
}

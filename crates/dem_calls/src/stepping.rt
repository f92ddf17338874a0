//! Steps on one list, and where they lead.

ghost use Rattle.std.specs.Prelude.{◌≡◌, IfOk};
ghost use Rattle.dem_step.specs.Stepper.{IsListOfRun};

use dem_list::PairList;
use dem_margin::build_all;
use dem_model::{Body, Held, OutOfMemory, Steps};
use dem_num::Vec3;
use dem_shape::Snapshot;
use dem_step::Dyn;
use dem_voxel::VoxelPos;
use std::alloc::Global;
use std::fmt::{self, Display, Formatter};
use std::sync::ledger::Ledger;
use std::thread::Threads;

/// Where a run stands.
#[derive(Drop)]
pub struct Stand {
    step: u32,
    list_from: Option<u32>,
    bodies: Vec<Body>,
    stored: Vec<VoxelPos>,
    held: Vec<Held>,
}

/// Takes the near list of the state of a run into use, and makes all steps that may be made on it: split ones where threads are given.
pub fn go_on_one_list<R: Threads + Sync, L: Ledger>(
    alloc: Global,
    threads: Option<&R>,
    run: &mut Dyn,
    tests: &mut Steps<L>,
) -> Result<(), OutOfMemory> {
    let list = near_list(alloc, run)?;
    if !run.can_adopt(&list) {
        return Ok(());
    }
    if let Err((_, fault)) = run.adopt(list) {
        return Err(fault);
    }
    for _ in 0..run.shapes().scene().steps {
        if !run.can_step() {
            break;
        }
        let is_made = match threads {
            Some(rt) => run.step_split(rt).is_ok(),
            None => run.step(tests).is_ok(),
        };
        if !is_made {
            break;
        }
    }
    Ok(())
}

/// The list of the near pairs of a run's state, every pair tested.
fn near_list(alloc: Global, run: &Dyn) -> Result<PairList, OutOfMemory>
    ensures { IfOk result (IsListOfRun run.now.scene run.now.drift) }
{
    let shapes = run.shapes();
    let mut snap = Snapshot::new(alloc, shapes.scene().clumps.len() as u32)?;
    run.snapshot_into(&mut snap);
    match build_all(alloc, shapes, &snap, run.drift(), PairList::empty(alloc)) {
        Ok(list) => {
            run.list_of_run(&snap, &list);
            Ok(list)
        }
        Err((_, fault)) => Err(fault),
    }
}

impl Stand {
    /// Where this run stands.
    pub fn of(alloc: Global, run: &Dyn) -> Result<Stand, OutOfMemory> {
        Ok(Stand {
            step: run.now(),
            list_from: run.list_from(),
            bodies: bodies_of(alloc, run)?,
            stored: stored_in(alloc, run)?,
            held: held_in(alloc, run)?,
        })
    }
}

/// The bodies of a run.
fn bodies_of(alloc: Global, run: &Dyn) -> Result<Vec<Body>, OutOfMemory> {
    let mut bodies = Vec::new(alloc);
    for k in 0..run.shapes().scene().clumps.len() {
        if bodies.push(run.body(k as u32)).is_err() {
            return Err(OutOfMemory);
        }
    }
    Ok(bodies)
}

/// The stored positions of a run.
fn stored_in(alloc: Global, run: &Dyn) -> Result<Vec<VoxelPos>, OutOfMemory> {
    let mut stored = Vec::new(alloc);
    for k in 0..run.shapes().scene().clumps.len() {
        if stored.push(run.voxel(k as u32)).is_err() {
            return Err(OutOfMemory);
        }
    }
    Ok(stored)
}

/// The displacements that a run holds of the pairs in use.
fn held_in(alloc: Global, run: &Dyn) -> Result<Vec<Held>, OutOfMemory> {
    let mut held = Vec::new(alloc);
    let contacts = run.contacts();
    for i in 0..contacts.list().len() {
        if let Some(h) = contacts.held(i) {
            let pair = contacts.list().get(i);
            if held.push(Held { pair, h }).is_err() {
                return Err(OutOfMemory);
            }
        }
    }
    Ok(held)
}

impl Display for Stand {
    fn fmt<W: fmt::Write>(&self, f: &mut Formatter<W>) -> fmt::Result {
        write!(f, "on one list: at step {}", self.step)?;
        if let Some(from) = self.list_from {
            write!(f, ", its list from step {from}")?;
        }
        for body in self.bodies.as_slice() {
            write_body(body, f)?;
        }
        for at in self.stored.as_slice() {
            write_stored(at, f)?;
        }
        for held in self.held.as_slice() {
            write_held(held, f)?;
        }
        Ok(())
    }
}

/// Writes where a body is, and how it moves.
fn write_body<W: fmt::Write>(body: &Body, f: &mut Formatter<W>) -> fmt::Result {
    f.write_str("; at ")?;
    write_vector(body.p, f)?;
    f.write_str(" by ")?;
    write_vector(body.v, f)
}

/// Writes a stored position.
fn write_stored<W: fmt::Write>(at: &VoxelPos, f: &mut Formatter<W>) -> fmt::Result {
    write!(f, "; in voxel {} at ", at.id)?;
    write!(f, "{} {} {}", at.ox, at.oy, at.oz)
}

/// Writes what is held of a pair.
fn write_held<W: fmt::Write>(held: &Held, f: &mut Formatter<W>) -> fmt::Result {
    write!(f, "; {} {} held ", held.pair.a, held.pair.b)?;
    write_vector(held.h, f)
}

/// Writes the three numbers of a vector.
fn write_vector<W: fmt::Write>(v: Vec3, f: &mut Formatter<W>) -> fmt::Result {
    write!(f, "{} {} {}", v.x, v.y, v.z)
}

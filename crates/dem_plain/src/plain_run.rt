//! The plain run of a scene, step by step.

ghost use Rattle.std.specs.Prelude.{◌≡◌, ◌<◌, ◌≤◌, length, IfOk, Some, true, false};
ghost use Rattle.dem_model.specs.Fit.{IsFit};
ghost use Rattle.dem_model.specs.Motion.{AreInside, AreSound};
ghost use Rattle.dem_model.specs.Plain.{first_state, plain_at};
ghost use Rattle.dem_model.specs.Centers.{centers_of};
ghost use Rattle.dem_force.specs.Sides.{AreSides};
ghost use Rattle.dem_force.specs.Stored.{AreStored};
ghost use Rattle.dem_plain.specs.Run.{Run, StepsPlain};
ghost use Rattle.dem_plain.specs.Inside.{IsAfter, IsRun};

use crate::advancing::advanced;
use crate::met::all_met;
use crate::stop::Stop;
use dem_force::Spheres;
use dem_model::{List, OutOfMemory, Scene, State};
use dem_shape::{Shapes, first_bodies};
use std::alloc::Global;
use std::marker::Model;

/// A run of a scene, seen as the scene, the state that it has reached, and whether it began at the first state.
#[derive(Drop)]
pub struct PlainRun<'s> {
    alloc: Global,
    shapes: Shapes<'s>,
    spheres: Spheres,
    state: State,
    from_first: bool,
}

impl<'s> Model for PlainRun<'s> {
    ghost Value = { Run };

    ghost view = { λ a. record { scene = a.shapes; state = a.state; from_first = a.from_first } };

    ghost invariant = { λ a. IsRun a.shapes a.spheres a.state a.from_first };
}

impl<'s> PlainRun<'s> {
    /// The run of a scene at its first state: the plain run. The only error is refused memory.
    pub fn new(alloc: Global, scene: &'s Scene) -> Result<PlainRun<'s>, OutOfMemory>
        ensures { IfOk result (λ run. run ≡ record { scene = scene.now; state = first_state scene.now; from_first = true }) }
    {
        let shapes = Shapes::new(alloc, scene)?;
        let _scene = shapes.scene();
        let state = State {
            step: 0,
            bodies: first_bodies(alloc, scene)?,
            held: List::new(alloc),
        };
        PlainRun::at(alloc, shapes, state, true)
    }

    /// The run of a scene that goes on from a state that is fit for it. The only error is refused memory.
    pub fn resume(
        alloc: Global,
        scene: &'s Scene,
        state: State,
    ) -> Result<PlainRun<'s>, OutOfMemory>
        requires fit { IsFit scene.now state }
        ensures { IfOk result (λ run. run ≡ record { scene = scene.now; state = state; from_first = false }) }
    {
        let shapes = Shapes::new(alloc, scene)?;
        PlainRun::at(alloc, shapes, state, false)
    }

    /// The run of a scene that stands at a state.
    fn at(
        alloc: Global,
        shapes: Shapes<'s>,
        state: State,
        from_first: bool,
    ) -> Result<PlainRun<'s>, OutOfMemory>
        requires sound { AreSound shapes state.bodies }
        requires stored { AreStored state.held }
        requires plain { from_first ≡ true → plain_at shapes state.step ≡ Some state }
        ensures { IfOk result (λ run. run ≡ record { scene = shapes.entry; state = state; from_first = from_first }) }
    {
        let _scene = shapes.scene();
        let spheres = Spheres::new(alloc, &shapes)?;
        Ok(PlainRun {
            alloc,
            shapes,
            spheres,
            state,
            from_first,
        })
    }

    /// Makes one step, or tells the limit that it passes. After a refusal the state is as before.
    pub fn step(&mut self) -> Result<(), Stop>
        requires { self.old.state.step < self.old.scene.steps }
        ensures { StepsPlain self.old self.new result }
    {
        self.spheres
            .fill(&self.shapes, self.state.bodies.as_slice());
        match stepped(self.alloc, &self.shapes, &self.spheres, &self.state) {
            Ok(next) => {
                self.state = next;
                Ok(())
            }
            Err(stop) => Err(stop),
        }
    }

    /// The state that the run has reached, with sound bodies, and displacements within their range; that of the plain run, where this began as that.
    pub fn state(&self) -> &State
        ensures value { result.now ≡ self.now.state }
        ensures plain { self.now.from_first ≡ true → plain_at self.now.scene self.now.state.step ≡ Some self.now.state }
        ensures sound { AreSound self.now.scene self.now.state.bodies }
        ensures stored { AreStored self.now.state.held }
        ensures bodies { length result.now.bodies ≤ 16384 }
    {
        let _scene = self.shapes.scene();
        &self.state
    }
}

/// The state after a state, or the limit that its step passes.
fn stepped(alloc: Global, shapes: &Shapes, spheres: &Spheres, state: &State) -> Result<State, Stop>
    requires sound { AreSound shapes.now state.now.bodies }
    requires centers { spheres.now.centers ≡ centers_of shapes.now state.now.bodies }
    requires sides { AreSides shapes.now state.now.bodies spheres.now.sides }
    requires stored { AreStored state.now.held }
    requires goes_on { state.now.step < shapes.now.steps }
    ensures { IsAfter shapes.now state.now result }
{
    let _scene = shapes.scene();
    let bodies = state.bodies.as_slice();
    let met = all_met(alloc, shapes, spheres, bodies, state.held.as_slice())?;
    let step = state.step + 1;
    match advanced(alloc, shapes, bodies, met.loads.as_slice(), step) {
        Ok(bodies) => Ok(State {
            step,
            bodies,
            held: met.held,
        }),
        Err(stop) => Err(stop),
    }
}

//! A saved frame, read and checked against the scene.
ghost use Rattle.std.specs.Prelude.{◌≡◌, ◌≤◌, ◌<◌, length, IfOk, IfSome};
ghost use Rattle.dem_model.specs.Fit.{IsFit};
ghost use Rattle.dem_save.specs.Loaded.{Gives, checked_of, is_pair as is_pair_of, loaded_of, stray_in as stray_of, unsound_in as unsound_of};

use crate::bodies::is_sound;
use crate::fault::SaveFault;
use dem_frame::{FrameFault, read_frame};
use dem_model::{Body, Held, Pair, State};
use dem_shape::{Shapes, is_apart};
use std::alloc::Global;

/// Reads one frame of the scene to the end of the bytes, which are at most 268,435,456, and checks it: its step is none after the
/// last, each body is within the limits and the box, and each pair is one that may touch. Positions are in u, velocities in u per
/// step times 2^16, quaternions and spins times 2^30, displacements in u times 2^16.
pub fn load(alloc: Global, shapes: &Shapes, bytes: &[u8]) -> Result<State, SaveFault>
    requires size { length bytes.now ≤ 268435456 }
    ensures value { Gives result (loaded_of shapes.now bytes.now) }
    ensures fit { IfOk result (IsFit shapes.now) }
{
    let clumps = shapes.scene().clumps.len() as u32;
    match read_frame(alloc, bytes, clumps) {
        Ok(state) => checked(shapes, state),
        Err(FrameFault::Bad { row }) => Err(SaveFault::Bad { row }),
        Err(FrameFault::Short { rows }) => Err(SaveFault::Short { rows }),
        Err(FrameFault::OutOfMemory) => Err(SaveFault::OutOfMemory),
    }
}

// A state, where a run of the scene may go on from it; or what is wrong first.
#[tactic(auto, unfolding(crate::specs::Loaded::checked_of))]
fn checked(shapes: &Shapes, state: State) -> Result<State, SaveFault>
    requires count { length state.bodies ≡ length shapes.now.clumps }
    requires few { length state.held ≤ 268435456 }
    ensures { result ≡ checked_of shapes.now state }
{
    if state.step > shapes.scene().steps {
        return Err(SaveFault::Step);
    }
    if let Some(clump) = unsound(shapes, state.bodies.as_slice()) {
        return Err(SaveFault::Body {
            clump: clump as u32,
        });
    }
    if let Some(place) = stray(shapes, state.held.as_slice()) {
        return Err(SaveFault::Held {
            place: place as u32,
        });
    }
    Ok(state)
}

// The first clump whose body isn't sound for it.
#[tactic(auto, unfolding(crate::specs::Loaded::unsound_in))]
fn unsound(shapes: &Shapes, bodies: &[Body]) -> Option<usize>
    requires { length bodies.now ≡ length shapes.now.clumps }
    ensures value { result ≡ unsound_of shapes.now bodies.now }
    ensures within { IfSome result (λ k. k < length shapes.now.clumps) }
{
    (0..bodies.len()).find(|k| !is_sound(shapes, bodies, *k))
}

// The first place of what is held, from 0, whose pair may not touch.
#[tactic(auto, unfolding(crate::specs::Loaded::stray_in))]
fn stray(shapes: &Shapes, held: &[Held]) -> Option<usize>
    ensures value { result ≡ stray_of shapes.now held.now }
    ensures within { IfSome result (λ i. i < length held.now) }
{
    held.iter().position(|e| !is_pair(shapes, e.pair))
}

// Whether a pair is one of all pairs that may touch.
#[tactic(auto, unfolding(crate::specs::Loaded::is_pair, dem_model::specs::Pairs::apart, dem_model::specs::Pairs::limit_of))]
fn is_pair(shapes: &Shapes, pair: Pair) -> bool
    ensures { result ≡ is_pair_of shapes.now pair }
{
    let _scene = shapes.scene();
    let limit = shapes.spheres() + shapes.walls();
    pair.a < shapes.spheres() && pair.b < limit && pair.a < pair.b && is_apart(shapes, pair)
}

//! How much the clumps move.
ghost use Rattle.std.specs.Prelude.{◌≡◌, ◌<◌, ◌≤◌, ◌*◌, ◌^◌, length};
ghost use Rattle.dem_num.specs.Vectors.{widened, norm2_of};
ghost use Rattle.dem_model.specs.Advance.{mass_of};
ghost use Rattle.dem_model.specs.Centers.{body_at};
ghost use Rattle.dem_model.specs.Look.{motion_of, kinetic_of};
ghost use Rattle.dem_model.specs.Motion.{AreSound};
ghost use Rattle.dem_model.specs.Step.{clump_at};
ghost use Rattle.dem_model.specs.declared.limits.TheConstants.{MAX_MASS};

use dem_model::State;
use dem_num::{norm2, widen};
use dem_shape::Shapes;

/// Twice the kinetic energy of all clumps, without their spin: mass times u^2 per step^2, rounded down for each clump.
pub(crate) fn kinetic(shapes: &Shapes, state: &State) -> u128
    requires sound { AreSound shapes.now state.now.bodies }
    ensures value { result ≡ kinetic_of shapes.now state.now }
    ensures size { result < 2 ^ 107 }
{
    let mut sum = 0;
    for clump in 0..shapes.scene().clumps.len() {
        sum += motion(shapes, state, clump as u32);
    }
    sum
}

/// Twice the kinetic energy of one clump.
#[tactic(auto, unfolding(dem_model::specs::Look::motion_of))]
fn motion(shapes: &Shapes, state: &State, clump: u32) -> u128
    requires there { clump < length shapes.now.clumps }
    requires sound { AreSound shapes.now state.now.bodies }
    ensures value { result ≡ motion_of shapes.now state.now clump }
    ensures size { result ≤ 3 * 2 ^ 88 }
{
    mass(shapes, clump) as u128 * squared_speed(shapes, state, clump) / (1 << 32)
}

/// The mass of a clump.
#[tactic(auto, unfolding(dem_model::specs::Advance::mass_of))]
fn mass(shapes: &Shapes, clump: u32) -> u64
    requires { clump < length shapes.now.clumps }
    ensures value { result ≡ mass_of shapes.now.templates (clump_at shapes.now clump).t }
    ensures size { result ≤ MAX_MASS }
{
    let scene = shapes.scene();
    let template = scene.clumps.get(clump as usize).t;
    scene.templates.get(template as usize).mass
}

/// The square of a clump's speed, in (u per step times 2^16) squared.
fn squared_speed(shapes: &Shapes, state: &State, clump: u32) -> u128
    requires there { clump < length shapes.now.clumps }
    requires sound { AreSound shapes.now state.now.bodies }
    ensures value { result ≡ norm2_of (widened (body_at state.now.bodies clump).v) }
    ensures size { result ≤ 3 * 2 ^ 80 }
{
    let _scene = shapes.scene();
    norm2(widen(state.bodies.get(clump as usize).v))
}

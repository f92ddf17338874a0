//! How what follows a state belongs to the whole output.
ghost use Rattle.dem_output.specs.Running.{EndsAlike, GoesOnAlike};

use dem_model::Scene;

/// What follows a frame of the output is what the run from the state of that frame writes, and both end alike: a law for those who
/// call, which does nothing.
pub fn rest_law(scene: &Scene)
    ensures ends { EndsAlike scene.now }
    ensures rest { GoesOnAlike scene.now }
{}

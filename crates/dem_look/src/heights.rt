//! How high the bodies are.
ghost use Rattle.std.specs.Prelude.{◌≡◌};
ghost use Rattle.dem_model.specs.Look.{top_of};

use dem_model::Body;

/// The greatest height of a body, in u; none in the box is below zero.
#[tactic(auto, unfolding(dem_model::specs::Look::top_of, dem_model::specs::Look::higher))]
pub(crate) fn highest(bodies: &[Body]) -> i64
    ensures { result ≡ top_of bodies.now }
{
    let mut top: i64 = 0;
    for body in bodies {
        top = top.max(body.p.z);
    }
    top
}

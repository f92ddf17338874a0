//! The extent of a template.
ghost use Rattle.std.specs.Prelude.{◌≡◌, ◌≤◌, ◌<◌, ◌^◌, All, length};
ghost use Rattle.dem_model.specs.Cells.{extent_of, reach_of};
ghost use Rattle.dem_pack.specs.Layouts.{IsSized};

use dem_model::Ball;

// How far a sphere reaches from its clump's position.
#[tactic(auto, unfolding(dem_model::specs::Cells::reach_of))]
fn reach(ball: &Ball) -> u64
    requires { IsSized ball.now }
    ensures value { result ≡ reach_of ball.now }
    ensures few { result ≤ 2 ^ 27 }
    ensures some { 1 ≤ result }
{
    let at = ball.at;
    let x: u64 = at.x.unsigned_abs();
    x.max(at.y.unsigned_abs()).max(at.z.unsigned_abs()) + u64::from(ball.r)
}

/// The extent of a template of these spheres.
pub(crate) fn extent(balls: &[Ball]) -> u64
    requires some { 1 ≤ length balls.now }
    requires sized { All IsSized balls.now }
    ensures value { result ≡ extent_of balls.now }
    ensures few { result ≤ 2 ^ 27 }
    ensures some { 1 ≤ result }
{
    let mut extent: u64 = 0;
    for ball in balls {
        extent = extent.max(reach(ball));
    }
    extent
}

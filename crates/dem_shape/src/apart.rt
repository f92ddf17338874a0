//! Which pairs may touch at all: a sphere, and a wall or a later sphere of a clump that the first's may meet.

ghost use Rattle.std.specs.Prelude.{◌≡◌, ◌<◌, ◌↔◌};
ghost use Rattle.std.specs.List.{Contains};
ghost use Rattle.dem_model.specs.Motion.{IsPair};
ghost use Rattle.dem_model.specs.Pairs.{sphere_count, apart, all_pairs};

use crate::shapes::Shapes;
use dem_model::Pair;

/// Whether the second of a pair is later than the first, and a wall or a sphere of another clump whose family isn't off with that of the first.
#[tactic(auto, unfolding(dem_model::specs::Pairs::apart))]
pub fn is_apart(shapes: &Shapes, pair: Pair) -> bool
    requires first { pair.a < sphere_count shapes.now }
    requires later { pair.a < pair.b }
    ensures { result ≡ apart shapes.now pair }
{
    if pair.b < shapes.spheres() {
        shapes.clumps_meet(pair.a, pair.b)
    } else {
        true
    }
}

/// The list of all pairs has each pair that may touch, and no other: a law for those who call, which does nothing.
pub fn all_pairs_law(shapes: &Shapes, pair: Pair)
    ensures { Contains (all_pairs shapes.now) pair ↔ IsPair shapes.now pair }
{}

//! How far a sphere's center may be from its clump's position, and how far it may swing in a step.

ghost use Rattle.std.specs.Prelude.{◌≡◌, ◌+◌, ◌*◌, ◌^◌, ◌<◌, ◌≤◌};
ghost use Rattle.dem_num.specs.Vectors.{widened, Within};
ghost use Rattle.dem_num.specs.Rotations.{arm_of, swing_limit_of};

use crate::still::is_zero;
use dem_num::{Vec3, norm2, root, widen};

/// The arm of a sphere: more than its distance from the clump's position in u, and 0 where it has none.
#[tactic(auto, unfolding(dem_num::specs::Rotations::arm_of))]
pub fn arm(o: Vec3) -> u64
    requires { Within (widened o) (2 ^ 26) }
    ensures value { result ≡ arm_of (widened o) }
    ensures size { result ≤ 2 ^ 27 }
{
    if is_zero(o) {
        0
    } else {
        root(norm2(widen(o))) + 1
    }
}

/// How far a sphere on an arm may swing in one step per axis, in u, at a spin of at most `spin` per axis.
#[tactic(auto, unfolding(dem_num::specs::Rotations::swing_limit_of))]
pub fn swing_limit(spin: u64, arm: u64) -> u64
    requires spin_small { spin ≤ 2 ^ 28 }
    requires arm_small { arm ≤ 2 ^ 27 }
    ensures value { result ≡ swing_limit_of spin arm }
    ensures size { result ≤ 2 ^ 27 }
{
    2 * spin * arm / (1 << 30) + arm / (1 << 24) + 8
}

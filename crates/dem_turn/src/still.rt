//! Vectors of zeros, which no rotation turns.

ghost use Rattle.std.specs.Prelude.{◌≡◌};
ghost use Rattle.dem_num.specs.Vectors.{widened, is_zero};

use dem_num::Vec3;

/// Whether each component is zero: such a vector is the same in all axes.
pub fn is_zero(a: Vec3) -> bool
    ensures { result ≡ is_zero (widened a) }
{
    a.x == 0 && a.y == 0 && a.z == 0
}

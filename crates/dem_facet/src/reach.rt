//! The box about a facet: whether a place is within a reach of it.

ghost use Rattle.std.specs.Prelude.{◌≡◌, true, pos, ◌+◌, ◌^◌, ◌<◌, ◌≤◌, ◌+ℤ◌, ◌-ℤ◌, int_le, unsigned_abs};
ghost use Rattle.dem_num.specs.Numbers.{AtMost};
ghost use Rattle.dem_num.specs.Vectors.{widened, Within};
ghost use Rattle.dem_model.specs.Facet.{
  least_of,
  greatest_of,
  facet_good,
  is_beside,
  facet_reaches,
  facet_near,
};

use crate::sides::{greatest, least};
use dem_num::{Vec3, add_short, sub_short};

/// Whether a sphere is near a facet, where it may move at most `extra` u per axis.
#[tactic(auto, unfolding(dem_model::specs::Facet::facet_near))]
pub fn facet_near(a: Vec3, b: Vec3, c: Vec3, s: Vec3, r: u32, extra: u64) -> bool
    requires good { facet_good a b c ≡ true }
    requires a_small { Within (widened a) (2 ^ 36) }
    requires b_small { Within (widened b) (2 ^ 36) }
    requires c_small { Within (widened c) (2 ^ 36) }
    requires center_small { Within (widened s) (2 ^ 36) }
    requires radius_small { r ≤ 2 ^ 26 }
    requires extra_small { extra ≤ 2 ^ 37 }
    ensures { result ≡ facet_near a b c s r extra }
{
    reaches(a, b, c, s, r as u64 + extra)
}

/// Whether a place is within a reach of the box about a facet.
#[tactic(auto, unfolding(dem_model::specs::Facet::facet_reaches))]
pub fn reaches(a: Vec3, b: Vec3, c: Vec3, s: Vec3, reach: u64) -> bool
    requires a_small { Within (widened a) (2 ^ 36) }
    requires b_small { Within (widened b) (2 ^ 36) }
    requires c_small { Within (widened c) (2 ^ 36) }
    requires reach_small { reach ≤ 2 ^ 38 }
    ensures { result ≡ facet_reaches a b c s reach }
{
    if !is_beside(a.x, b.x, c.x, reach, s.x) {
        return false;
    }
    if !is_beside(a.y, b.y, c.y, reach, s.y) {
        return false;
    }
    is_beside(a.z, b.z, c.z, reach, s.z)
}

/// Whether a number is within a reach of the least and the greatest of three.
#[tactic(auto, unfolding(dem_model::specs::Facet::is_beside))]
fn is_beside(x: i64, y: i64, z: i64, reach: u64, w: i64) -> bool
    requires x_small { AtMost x (2 ^ 36) }
    requires y_small { AtMost y (2 ^ 36) }
    requires z_small { AtMost z (2 ^ 36) }
    requires reach_small { reach ≤ 2 ^ 38 }
    ensures { result ≡ is_beside x y z reach w }
{
    let low = lowest(x, y, z, reach);
    let high = highest(x, y, z, reach);
    low <= w && w <= high
}

/// The least of three numbers, less a reach.
fn lowest(x: i64, y: i64, z: i64, reach: u64) -> i64
    requires x_small { AtMost x (2 ^ 36) }
    requires y_small { AtMost y (2 ^ 36) }
    requires z_small { AtMost z (2 ^ 36) }
    requires reach_small { reach ≤ 2 ^ 38 }
    ensures { result ≡ least_of x y z -ℤ pos reach }
{
    sub_short(least(x, y, z), reach as i64)
}

/// The greatest of three numbers and a reach.
fn highest(x: i64, y: i64, z: i64, reach: u64) -> i64
    requires x_small { AtMost x (2 ^ 36) }
    requires y_small { AtMost y (2 ^ 36) }
    requires z_small { AtMost z (2 ^ 36) }
    requires reach_small { reach ≤ 2 ^ 38 }
    ensures { result ≡ greatest_of x y z +ℤ pos reach }
{
    add_short(greatest(x, y, z), reach as i64)
}

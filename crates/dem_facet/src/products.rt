//! The products of two sides of a facet with the ways from its corners to a place: by them the nearest point is found.

ghost use Rattle.std.specs.Prelude.{◌≡◌, true, pos, ◌+◌, ◌*◌, ◌^◌, ◌<◌, ◌≤◌, ◌+ℤ◌, ◌*ℤ◌, unsigned_abs};
ghost use Rattle.dem_num.specs.Numbers.{AtMost};
ghost use Rattle.dem_num.specs.Vectors.{widened, Within, dot_of};
ghost use Rattle.dem_model.specs.Facet.{way, facet_good};
ghost use Rattle.dem_facet.specs.Beside.{IsBeside, AreProducts, AreFit};

use crate::sides::{short_side, side};
use dem_num::{Vec3, add_short, mul_short};

/// The side from `a` to `b` and the one from `a` to `c`, each times the way from `a`, from `b` and from `c` to a place.
#[derive(Clone, Copy)]
pub struct Products {
    pub d1: i64,
    pub d2: i64,
    pub d3: i64,
    pub d4: i64,
    pub d5: i64,
    pub d6: i64,
}

/// The products of a facet's sides with the ways to a place beside it.
pub fn products_at(a: Vec3, b: Vec3, c: Vec3, s: Vec3) -> Products
    requires good { facet_good a b c ≡ true }
    requires beside { IsBeside a b c s }
    ensures value { AreProducts (way a b) (way a c) (way a s) (way b s) (way c s) result }
    ensures fit { AreFit result }
{
    products_of(
        short_side(a, b),
        short_side(a, c),
        side(a, s),
        side(b, s),
        side(c, s),
    )
}

/// The products of two sides with three ways.
fn products_of(ab: Vec3, ac: Vec3, from_a: Vec3, from_b: Vec3, from_c: Vec3) -> Products
    requires ab_small { Within (widened ab) (2 ^ 26) }
    requires ac_small { Within (widened ac) (2 ^ 26) }
    requires a_close { Within (widened from_a) (2 ^ 27) }
    requires b_close { Within (widened from_b) (2 ^ 27) }
    requires c_close { Within (widened from_c) (2 ^ 27) }
    ensures { AreProducts (widened ab) (widened ac) (widened from_a) (widened from_b) (widened from_c) result }
{
    Products {
        d1: along(ab, from_a),
        d2: along(ac, from_a),
        d3: along(ab, from_b),
        d4: along(ac, from_b),
        d5: along(ab, from_c),
        d6: along(ac, from_c),
    }
}

/// The product of a side and a way.
#[tactic(auto, unfolding(dem_num::specs::Vectors::dot_of))]
pub fn along(side: Vec3, way: Vec3) -> i64
    requires first { Within (widened side) (2 ^ 26) }
    requires second { Within (widened way) (2 ^ 27) }
    ensures { result ≡ dot_of (widened side) (widened way) }
{
    let x = product(side.x, way.x);
    let y = product(side.y, way.y);
    let z = product(side.z, way.z);
    add_short(add_short(x, y), z)
}

/// The product of a component of a side and one of a way.
fn product(a: i64, b: i64) -> i64
    requires first { AtMost a (2 ^ 26) }
    requires second { AtMost b (2 ^ 27) }
    ensures value { result ≡ a *ℤ b }
    ensures size { AtMost result (2 ^ 53) }
{
    mul_short(a, b)
}

//! The nearest points on the sides of a facet.

ghost use Rattle.std.specs.Prelude.{◌≡◌, true, pos, ◌+◌, ◌*◌, ◌^◌, ◌<◌, ◌≤◌, ◌+ℤ◌, ◌-ℤ◌, ◌*ℤ◌, ◌<ℤ◌, ◌≤ℤ◌, unsigned_abs};
ghost use Rattle.dem_num.specs.Numbers.{AtMost, quotient};
ghost use Rattle.dem_num.specs.Vectors.{widened, Within};
ghost use Rattle.dem_model.specs.Facet.{way, edge_point, past_ab, past_ac, past_bc};
ghost use Rattle.dem_facet.specs.Beside.{AreFit};

use crate::products::Products;
use crate::sides::short_side;
use dem_num::{Vec3, Wide3, add, add_short, mul, narrow, sub_short, tdiv};

/// The point on the side from `a` to `b` that is nearest to a place beyond it.
pub fn ab_point(a: Vec3, b: Vec3, p: Products) -> Wide3
    requires a_small { Within (widened a) (2 ^ 36) }
    requires close { Within (way a b) (2 ^ 26) }
    requires fit { AreFit p }
    requires past { past_ab p.d1 p.d2 p.d3 p.d4 ≡ true }
    ensures value { result ≡ edge_point a (way a b) p.d1 (p.d1 -ℤ p.d3) }
    ensures size { Within result (2 ^ 37) }
{
    edge_point(a, short_side(a, b), p.d1, sub_short(p.d1, p.d3))
}

/// The point on the side from `a` to `c` that is nearest to a place beyond it.
pub fn ac_point(a: Vec3, c: Vec3, p: Products) -> Wide3
    requires a_small { Within (widened a) (2 ^ 36) }
    requires close { Within (way a c) (2 ^ 26) }
    requires fit { AreFit p }
    requires past { past_ac p.d1 p.d2 p.d5 p.d6 ≡ true }
    ensures value { result ≡ edge_point a (way a c) p.d2 (p.d2 -ℤ p.d6) }
    ensures size { Within result (2 ^ 37) }
{
    edge_point(a, short_side(a, c), p.d2, sub_short(p.d2, p.d6))
}

/// The point on the side from `b` to `c` that is nearest to a place beyond it.
pub fn bc_point(b: Vec3, c: Vec3, p: Products) -> Wide3
    requires b_small { Within (widened b) (2 ^ 36) }
    requires close { Within (way b c) (2 ^ 26) }
    requires fit { AreFit p }
    requires past { past_bc p.d3 p.d4 p.d5 p.d6 ≡ true }
    ensures value { result ≡ edge_point b (way b c) (p.d4 -ℤ p.d3) ((p.d4 -ℤ p.d3) +ℤ (p.d5 -ℤ p.d6)) }
    ensures size { Within result (2 ^ 37) }
{
    let part = sub_short(p.d4, p.d3);
    edge_point(
        b,
        short_side(b, c),
        part,
        add_short(part, sub_short(p.d5, p.d6)),
    )
}

/// A point on a side: from its start, the part of the side that these two numbers give.
#[tactic(auto, unfolding(dem_model::specs::Facet::edge_point))]
fn edge_point(from: Vec3, edge: Vec3, part: i64, whole: i64) -> Wide3
    requires from_small { Within (widened from) (2 ^ 36) }
    requires edge_small { Within (widened edge) (2 ^ 26) }
    requires some { pos 0 <ℤ whole }
    requires low { pos 0 ≤ℤ part }
    requires high { part ≤ℤ whole }
    ensures value { result ≡ edge_point from (widened edge) part whole }
    ensures size { Within result (2 ^ 37) }
{
    Wide3 {
        x: component(from.x, edge.x, part, whole),
        y: component(from.y, edge.y, part, whole),
        z: component(from.z, edge.z, part, whole),
    }
}

/// A component of a point on a side.
fn component(from: i64, edge: i64, part: i64, whole: i64) -> i128
    requires from_small { AtMost from (2 ^ 36) }
    requires edge_small { AtMost edge (2 ^ 26) }
    requires some { pos 0 <ℤ whole }
    requires low { pos 0 ≤ℤ part }
    requires high { part ≤ℤ whole }
    ensures value { result ≡ from +ℤ quotient (part *ℤ edge) whole }
    ensures size { AtMost result (2 ^ 37) }
{
    add(from as i128, moved(edge, part, whole))
}

/// How far a point on a side is from its start, on one axis.
fn moved(edge: i64, part: i64, whole: i64) -> i128
    requires edge_small { AtMost edge (2 ^ 26) }
    requires some { pos 0 <ℤ whole }
    requires low { pos 0 ≤ℤ part }
    requires high { part ≤ℤ whole }
    ensures value { result ≡ quotient (part *ℤ edge) whole }
    ensures size { AtMost result (2 ^ 26) }
{
    tdiv(mul(part as i128, edge as i128), whole as i128)
}

//! Where a place is about a facet: beyond a corner, beyond a side, told by six products.

ghost use Rattle.std.specs.Prelude.{◌≡◌, pos, ◌+◌, ◌*◌, ◌^◌, ◌<◌, ◌≤◌, ◌-ℤ◌, ◌*ℤ◌, ◌&&◌, int_le, unsigned_abs};
ghost use Rattle.dem_num.specs.Numbers.{AtMost};
ghost use Rattle.dem_num.specs.Vectors.{turn_product};
ghost use Rattle.dem_model.specs.Facet.{past_a, past_b, past_c, past_ab, past_ac, past_bc};
ghost use Rattle.dem_facet.specs.Beside.{AreFit};

use crate::products::Products;
use dem_num::{mul, sub, sub_short};

/// Whether the place is beyond the corner `a`.
pub fn past_a(p: Products) -> bool
    requires fit { AreFit p }
    ensures { result ≡ past_a p.d1 p.d2 }
{
    beyond_a(p.d1, p.d2)
}

/// Whether the place is beyond the corner `a`, by two products.
#[tactic(auto, unfolding(dem_model::specs::Facet::past_a))]
fn beyond_a(d1: i64, d2: i64) -> bool
    ensures { result ≡ past_a d1 d2 }
{
    d1 <= 0 && d2 <= 0
}

/// Whether the place is beyond the corner `b`.
pub fn past_b(p: Products) -> bool
    requires fit { AreFit p }
    ensures { result ≡ past_b p.d3 p.d4 }
{
    beyond_b(p.d3, p.d4)
}

/// Whether the place is beyond the corner `b`, by two products.
#[tactic(auto, unfolding(dem_model::specs::Facet::past_b))]
fn beyond_b(d3: i64, d4: i64) -> bool
    ensures { result ≡ past_b d3 d4 }
{
    0 <= d3 && d4 <= d3
}

/// Whether the place is beyond the corner `c`.
pub fn past_c(p: Products) -> bool
    requires fit { AreFit p }
    ensures { result ≡ past_c p.d5 p.d6 }
{
    beyond_c(p.d5, p.d6)
}

/// Whether the place is beyond the corner `c`, by two products.
#[tactic(auto, unfolding(dem_model::specs::Facet::past_c))]
fn beyond_c(d5: i64, d6: i64) -> bool
    ensures { result ≡ past_c d5 d6 }
{
    0 <= d6 && d5 <= d6
}

/// Whether the place is beyond the side from `a` to `b`.
pub fn past_ab(p: Products) -> bool
    requires fit { AreFit p }
    ensures { result ≡ past_ab p.d1 p.d2 p.d3 p.d4 }
{
    beyond_ab(p.d1, p.d2, p.d3, p.d4)
}

/// Whether the place is beyond the side from `a` to `b`, by four products.
#[tactic(auto, unfolding(dem_model::specs::Facet::past_ab))]
fn beyond_ab(d1: i64, d2: i64, d3: i64, d4: i64) -> bool
    requires first { AtMost d1 (2 ^ 55) }
    requires second { AtMost d2 (2 ^ 55) }
    requires third { AtMost d3 (2 ^ 55) }
    requires fourth { AtMost d4 (2 ^ 55) }
    ensures { result ≡ past_ab d1 d2 d3 d4 }
{
    is_outward(d1, d4, d3, d2) && 0 <= d1 && d3 <= 0
}

/// Whether the place is beyond the side from `a` to `c`.
pub fn past_ac(p: Products) -> bool
    requires fit { AreFit p }
    ensures { result ≡ past_ac p.d1 p.d2 p.d5 p.d6 }
{
    beyond_ac(p.d1, p.d2, p.d5, p.d6)
}

/// Whether the place is beyond the side from `a` to `c`, by four products.
#[tactic(auto, unfolding(dem_model::specs::Facet::past_ac))]
fn beyond_ac(d1: i64, d2: i64, d5: i64, d6: i64) -> bool
    requires first { AtMost d1 (2 ^ 55) }
    requires second { AtMost d2 (2 ^ 55) }
    requires fifth { AtMost d5 (2 ^ 55) }
    requires sixth { AtMost d6 (2 ^ 55) }
    ensures { result ≡ past_ac d1 d2 d5 d6 }
{
    is_outward(d5, d2, d1, d6) && 0 <= d2 && d6 <= 0
}

/// Whether the place is beyond the side from `b` to `c`.
pub fn past_bc(p: Products) -> bool
    requires fit { AreFit p }
    ensures { result ≡ past_bc p.d3 p.d4 p.d5 p.d6 }
{
    beyond_bc(p.d3, p.d4, p.d5, p.d6)
}

/// Whether the place is beyond the side from `b` to `c`, by four products.
#[tactic(auto, unfolding(dem_model::specs::Facet::past_bc))]
fn beyond_bc(d3: i64, d4: i64, d5: i64, d6: i64) -> bool
    requires third { AtMost d3 (2 ^ 55) }
    requires fourth { AtMost d4 (2 ^ 55) }
    requires fifth { AtMost d5 (2 ^ 55) }
    requires sixth { AtMost d6 (2 ^ 55) }
    ensures { result ≡ past_bc d3 d4 d5 d6 }
{
    if !is_outward(d3, d6, d5, d4) {
        return false;
    }
    neither_below(sub_short(d4, d3), sub_short(d5, d6))
}

/// Whether neither of two numbers is below zero.
fn neither_below(e: i64, f: i64) -> bool
    ensures { result ≡ (int_le (pos 0) e && int_le (pos 0) f) }
{
    0 <= e && 0 <= f
}

/// Whether the first product less the second isn't greater than zero: whether the place is on the outer side of an edge.
fn is_outward(a: i64, b: i64, c: i64, d: i64) -> bool
    requires a_small { AtMost a (2 ^ 55) }
    requires b_small { AtMost b (2 ^ 55) }
    requires c_small { AtMost c (2 ^ 55) }
    requires d_small { AtMost d (2 ^ 55) }
    ensures { result ≡ int_le (turn_product a b c d) (pos 0) }
{
    turned(a, b, c, d) <= 0
}

/// The first product less the second.
#[tactic(auto, unfolding(dem_num::specs::Vectors::turn_product))]
fn turned(a: i64, b: i64, c: i64, d: i64) -> i128
    requires a_small { AtMost a (2 ^ 55) }
    requires b_small { AtMost b (2 ^ 55) }
    requires c_small { AtMost c (2 ^ 55) }
    requires d_small { AtMost d (2 ^ 55) }
    ensures { result ≡ turn_product a b c d }
{
    sub(product(a, b), product(c, d))
}

/// The product of two of the six products.
fn product(a: i64, b: i64) -> i128
    requires first { AtMost a (2 ^ 55) }
    requires second { AtMost b (2 ^ 55) }
    ensures value { result ≡ a *ℤ b }
    ensures size { AtMost result (2 ^ 110) }
{
    mul(a as i128, b as i128)
}

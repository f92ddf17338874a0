//! The nearest point of a facet, where it is on a corner or on a side.

ghost use Rattle.std.specs.Prelude.{◌≡◌, true, ◌^◌, IfSome};
ghost use Rattle.dem_num.specs.Vectors.{widened, Within};
ghost use Rattle.dem_model.specs.Facet.{facet_good, nearest_by, nearest_of};
ghost use Rattle.dem_facet.specs.Beside.{IsBeside, IsPoint, AreFit};

use crate::edges::{ab_point, ac_point, bc_point};
use crate::past::{past_a, past_ab, past_ac, past_b, past_bc, past_c};
use crate::products::{Products, products_at};
use dem_num::{Vec3, Wide3, widen};

/// The point of a facet that is nearest to a place beside it; None where that is on the face.
#[tactic(auto, unfolding(dem_model::specs::Facet::nearest_of))]
pub fn nearest_point(a: Vec3, b: Vec3, c: Vec3, s: Vec3) -> Option<Wide3>
    requires good { facet_good a b c ≡ true }
    requires a_small { Within (widened a) (2 ^ 36) }
    requires b_small { Within (widened b) (2 ^ 36) }
    requires c_small { Within (widened c) (2 ^ 36) }
    requires beside { IsBeside a b c s }
    ensures value { result ≡ nearest_of a b c s }
    ensures size { IfSome result IsPoint }
{
    nearest_by(a, b, c, products_at(a, b, c, s))
}

/// The nearest point by the six products; None where it is on the face.
#[tactic(auto, unfolding(dem_model::specs::Facet::nearest_by))]
fn nearest_by(a: Vec3, b: Vec3, c: Vec3, p: Products) -> Option<Wide3>
    requires good { facet_good a b c ≡ true }
    requires a_small { Within (widened a) (2 ^ 36) }
    requires b_small { Within (widened b) (2 ^ 36) }
    requires c_small { Within (widened c) (2 ^ 36) }
    requires fit { AreFit p }
    ensures value { result ≡ nearest_by a b c p.d1 p.d2 p.d3 p.d4 p.d5 p.d6 }
    ensures size { IfSome result IsPoint }
{
    if past_a(p) {
        Some(widen(a))
    } else if past_b(p) {
        Some(widen(b))
    } else if past_ab(p) {
        Some(ab_point(a, b, p))
    } else if past_c(p) {
        Some(widen(c))
    } else if past_ac(p) {
        Some(ac_point(a, c, p))
    } else if past_bc(p) {
        Some(bc_point(b, c, p))
    } else {
        None
    }
}

//! What touches a facet after moving was near it before, as a law that callers may cite.

ghost use Rattle.std.specs.Prelude.{◌≡◌, ℕ, true, is_some};
ghost use Rattle.dem_num.specs.declared.vector.Vec3.{Vec3};
ghost use Rattle.dem_num.specs.Vectors.{widened, difference_of, Within};
ghost use Rattle.dem_model.specs.Facet.{facet_touch, facet_near};

/// A sphere that touches a facet was near it wherever it was at most `extra` u away on each axis.
pub fn facet_covers()
    ensures { (a b c now from : Vec3) (r extra : ℕ) → Within (difference_of (widened now) (widened from)) extra → is_some (facet_touch a b c now r) ≡ true → facet_near a b c from r extra ≡ true }
{}

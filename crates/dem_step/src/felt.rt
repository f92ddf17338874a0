//! Which clumps the pairs of a part push: the sums of all others are nothing.

ghost use Rattle.std.specs.Prelude.{ℕ, ◌≡◌, ◌≢◌, true, is_some};
ghost use Rattle.dem_model.specs.Motion.{IsPair};
ghost use Rattle.dem_step.specs.Felt.{IsOutside, IsUnpushed};

use dem_model::Pair;
use dem_num::Vec3;
use dem_shape::Shapes;

/// How many pairs of a part touch, and the first and the last clump that they push; where none is pushed the first is past the last.
#[derive(Clone, Copy)]
pub struct Felt {
    pub touching: u32,
    pub first: u32,
    pub last: u32,
}

impl Felt {
    /// No clump is pushed.
    pub fn nothing() -> Felt
        ensures { (c : ℕ) → IsOutside result c }
    {
        Felt {
            touching: 0,
            first: u32::MAX,
            last: 0,
        }
    }

    /// With what a pair came to: where it touches, the clumps of both.
    pub fn after(self, entry: &Option<Vec3>, shapes: &Shapes, pair: Pair) -> Felt
        requires { IsPair shapes.now pair }
        ensures { (c : ℕ) → IsOutside result c → IsOutside self c × (is_some entry.now ≡ true → IsUnpushed shapes.now pair c) }
    {
        if entry.is_none() {
            return self;
        }
        let felt = self.touched().with_clump(shapes.clump_of(pair.a));
        if pair.b < shapes.spheres() {
            felt.with_clump(shapes.clump_of(pair.b))
        } else {
            felt
        }
    }

    /// With one more pair that touches.
    fn touched(self) -> Felt
        ensures { (c : ℕ) → IsOutside result c → IsOutside self c }
    {
        Felt {
            touching: self.touching.saturating_add(1),
            first: self.first,
            last: self.last,
        }
    }

    /// With one more clump that is pushed.
    fn with_clump(self, clump: u32) -> Felt
        ensures { (c : ℕ) → IsOutside result c → IsOutside self c × (clump ≢ c) }
    {
        Felt {
            touching: self.touching,
            first: self.first.min(clump),
            last: self.last.max(clump),
        }
    }

    /// Both what this part feels and what another does.
    pub fn both(self, other: Felt) -> Felt
        ensures { (c : ℕ) → IsOutside result c → IsOutside self c × IsOutside other c }
    {
        Felt {
            touching: self.touching.saturating_add(other.touching),
            first: self.first.min(other.first),
            last: self.last.max(other.last),
        }
    }
}

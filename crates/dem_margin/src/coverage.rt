//! A list of near pairs holds each pair that touches, for as long as it may be used; and which of its pairs can't touch.

ghost use Rattle.std.specs.Prelude.{ℕ, ◌≡◌, false, None, List};
ghost use Rattle.dem_num.specs.declared.vector.Vec3.{Vec3};
ghost use Rattle.dem_model.specs.Centers.{touch_of};
ghost use Rattle.dem_model.specs.Motion.{IsPair};
ghost use Rattle.dem_model.specs.Near.{HasDrifted, Covers};
ghost use Rattle.dem_model.specs.declared.state.Pair.{Pair};
ghost use Rattle.dem_margin.specs.Marks.{may_touch};

use dem_shape::Shapes;

/// Every pair that touches is near at centers from which no sphere has moved farther than it may in `drift` steps.
pub fn covers(shapes: &Shapes)
    ensures { (drift : ℕ) (from now : List Vec3) → HasDrifted shapes.now drift from now → Covers shapes.now drift from now }
{
    let _scene = shapes.scene();
}

/// A pair that may not touch within so many steps after some centers doesn't, at centers to which no sphere has moved farther
/// than it may in them.
pub fn parts(shapes: &Shapes)
    ensures { (steps : ℕ) (from now : List Vec3) (p : Pair) → HasDrifted shapes.now steps from now → IsPair shapes.now p → may_touch shapes.now steps from p ≡ false → touch_of shapes.now now p ≡ None }
{
    let _scene = shapes.scene();
}

//! No run ends by a swing: a law that callers may cite, which does nothing.

ghost use Rattle.std.specs.Prelude.{ℕ, ◌≢◌, IfSome};
ghost use Rattle.dem_model.specs.Plain.{end_at};

use dem_model::EndKind;
use dem_shape::Shapes;

/// No state of a run passes the swing limit in its step.
pub fn never_swings(shapes: &Shapes)
    ensures { (n : ℕ) → IfSome (end_at shapes.now n) (λ e. e.kind ≢ EndKind.Swing) }
{
    let _scene = shapes.scene();
}

//! What holds of each state of a scene's run, as laws that callers may cite: each call does nothing.
ghost use Rattle.std.specs.Prelude.{ℕ, ◌≡◌, ◌≤◌, List, Ok, Some, length};
ghost use Rattle.dem_model.specs.declared.state.State.{State as StateValue};
ghost use Rattle.dem_model.specs.Fit.{IsFit};
ghost use Rattle.dem_model.specs.Frames.{state_text};
ghost use Rattle.dem_model.specs.Plain.{run_after, plain_at};
ghost use Rattle.dem_frame.specs.PartialFrames.{frame_of};
ghost use Rattle.dem_save.specs.Loaded.{loaded_of};

use dem_model::Scene;

/// Each state of the run from a fit state is fit, and so each state of the plain run.
pub fn fit_law(scene: &Scene)
    ensures run { (n : ℕ) (beginning st : StateValue) → IsFit scene.now beginning → run_after scene.now beginning n ≡ Some st → IsFit scene.now st }
    ensures plain { (n : ℕ) (st : StateValue) → plain_at scene.now n ≡ Some st → IsFit scene.now st }
{
    let _steps = scene.steps;
}

/// The frame of a fit state loads as that state.
pub fn load_law(scene: &Scene)
    ensures { (st : StateValue) → IsFit scene.now st → loaded_of scene.now (state_text st) ≡ Ok st }
{
    let _steps = scene.steps;
}

/// What rows load as that are a frame of a fit state: that state, however they are written.
pub fn rows_law(scene: &Scene)
    ensures { (bytes : List ℕ) (st : StateValue) → frame_of (length scene.now.clumps) bytes ≡ Ok st → IsFit scene.now st → loaded_of scene.now bytes ≡ Ok st }
{
    let _steps = scene.steps;
}

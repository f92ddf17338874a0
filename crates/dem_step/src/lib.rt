//! The step on a list of near pairs, which makes exactly the plain step.
//!
//! `Dyn` is a run that takes lists into use, each from a step that lies at most the drift limit back, and steps on them.
//! Means: `Stepper` and `Contacts` of specs, over the plain run of dem_model. Callers rest on: where `can_step` says so a
//! step is the plain step or its end, and after an end nothing has changed; it counts at most as many tests as its list has pairs;
//! the near list of a snapshot may be taken into use while `can_adopt` says so, and then each pair that touches has its
//! displacement. It stores positions by voxel (`Stored`), may make ahead what a step needs of the bodies (`Prepared`), and marks the pairs that
//! may touch before their list is too old (`Marks`).
//! `Dyn::step_split` makes the same step with its contacts computed by several threads.
//! Takes memory: `Dyn::new`, `Dyn::adopt` and `Dyn::step_split`, never `Dyn::step`. Not here: which pairs are near (dem_margin), touch, law and advance (dem_force), carrying (dem_hist).
#![tactic(auto)]

mod adding;
mod advancing;
mod ahead;
mod felt;
mod marks;
mod meeting;
mod prepared;
mod room;
mod split;
mod stepper;
mod stored;

pub use split::SplitStop;
pub use stepper::Dyn;

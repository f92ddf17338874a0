//! The plain run: one thread, every pair tested at every step. It defines what each other way of running must write.
//!
//! `PlainRun` makes the steps of a scene, one at a time, from its first state on or from one that is fit for it. Means: `Step`,
//! `Plain` and `Fit` of dem_model. Callers rest on: `step` is the plain step or its end, both ways; where the run began at the
//! first state, its state is that of the plain run of its number; a refusal changes nothing. Takes memory: `new`, `resume` and
//! `step`. Short and dull on purpose: nothing here is tuned.
//! Not here: touch, law and advance (dem_force), lists of near pairs, what is written (dem_frame, dem_top).
#![tactic(auto)]

mod advancing;
mod meeting;
mod met;
mod plain_run;
mod stop;

pub use plain_run::PlainRun;
pub use stop::Stop;

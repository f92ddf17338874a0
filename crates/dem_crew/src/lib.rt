//! The two threads of a run: kinematics finds pairs while dynamics steps on an older list.
//!
//! `run_two` starts `kinematics` in a thread of its own beside `dynamics`, or makes all turns itself where no thread can be started.
//! Means: `Running` of specs, over the rows and turns of dem_model. Callers rest on: on Ok the output is that of the plain run, the
//! notes have a row for each list that was taken into use and one for the tests, and the rows are ones that a run may have, in every
//! order of the two threads; on a fault both are prefixes of such, and the stop is raised. Take memory and may wait: all three.
//! Not here: the rule of the exchange (dem_swap), what a run does on its own state (dem_core), which pairs are near (dem_bins).
#![tactic(auto)]

mod alone;
mod crew;
mod finding;
mod pace;
mod ran;
mod rest;
mod side;
mod work;

pub use crew::run_two;
pub use dem_output::RunFault;
pub use finding::kinematics;
pub use ran::Ran;
pub use side::dynamics;

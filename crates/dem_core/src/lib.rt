//! The world of turns: the output of a scene, made on lists of near pairs, for every order of the turns.
//!
//! `Course` is what the engine does on its own state: it tells when a snapshot may be posted, takes a list into use, and makes
//! steps. `World` is a course and a parcel, which brings it lists; its `turn` makes one of five turns, its `finish` all that are
//! left. Means: `World` and `TakenRows` of dem_model. Callers rest on: a call turns the world as defined, `out` gains exactly
//! the turn's text and `note` its taken rows; a world that has ended has written the whole output; a refusal changes nothing.
//! Takes memory: `new`, `collect`, and the turns Deliver and Collect. Not here: which pairs are near (dem_margin), the step (dem_step).
#![tactic(auto)]

mod course;
mod did;
mod frame;
mod law;
mod parcel;
mod world;

pub use course::Course;
pub use did::{Did, WorldStop};
pub use law::{comes_by, plays};
pub use world::World;

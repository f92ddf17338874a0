//! The table of spheres of a scene, the centers of all spheres in a state, and the bodies of a step.
//!
//! `Shapes` numbers the spheres through all clumps in order and answers each one's clump, template sphere, arm and
//! movement bound in constant time, each clump's family and motion, and each plane's unit normal; `is_apart` and `meets` tell which pairs may touch at all; `Centers` holds a center per sphere,
//! `Snapshot` the bodies of a step, `Pose` one clump's matrix, `Matrices` those of all. Means: `Spheres`, `Families`, `Pairs`, `Centers`, `Motion` of dem_model. Callers rest on: a Shapes
//! is seen as its scene, a Centers as the list of centers; `fill` makes them those of the bodies, `put`
//! those of one clump. Takes memory: the four `new`, `first_bodies`. Not here: touch (dem_force), rotations (dem_turn).
#![tactic(auto)]

mod apart;
mod centers;
mod entry;
mod families;
mod matrices;
mod pose;
mod shapes;
mod snapshot;
mod start;

pub use apart::{all_pairs_law, is_apart};
pub use centers::Centers;
pub use matrices::Matrices;
pub use pose::{Pose, sphere_center};
pub use shapes::Shapes;
pub use snapshot::Snapshot;
pub use start::first_bodies;

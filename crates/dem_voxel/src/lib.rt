//! Positions in their stored form: the number of a voxel, and how far past its beginning.
//!
//! `pack` and `unpack` go from a position to its stored form and back, `moved` moves a stored form. Means: `Voxel` of specs, over
//! `Position` of dem_model. Callers rest on: a packed position unpacks to itself; what was moved is the stored form of the
//! sum, and there is none exactly where the sum lies outside the box. Takes no memory and refuses nothing.
//! Not here: which positions a run has (dem_step).
#![tactic(auto)]

mod moving;
mod position;

pub use moving::moved;
pub use position::{VoxelPos, pack, unpack};

//! Whether and how a pair touches.

pub mod pairs;
pub mod spheres;

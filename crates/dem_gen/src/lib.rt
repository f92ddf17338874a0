//! Made scenes: a large valid scene from a seed and a number of clumps, the same at each run.
//!
//! `made_scene` fills a cube of cells above a plane with spheres of four radii, by the words of SplitMix64. Means: `made_of` of
//! dem_model. Callers rest on: the scene is that of the seed and the count. Takes memory: `made_scene`. Not here: what the
//! program prints of its run (dem_top).
#![tactic(auto)]

mod clump;
mod cube;
mod scene;
mod template;
mod words;

pub use scene::made_scene;

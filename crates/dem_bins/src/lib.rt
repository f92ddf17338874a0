//! Bins: the list of the near pairs of a snapshot, found without testing every pair.
//!
//! `Grid` cuts space into cubes of one side, a sphere meets the few that its reach touches, and only spheres that meet a
//! common bin are tested; walls are tested with every sphere. Means: `Bins` of specs, over `Near` of dem_model. Callers rest
//! on: the list is exactly that of all pairs tested (dem_margin); the tests are at most one per pair and common bin, and one
//! per sphere and wall. Takes memory: `build`. Not here: which pairs are near (dem_margin).
#![tactic(auto)]

mod blocks;
mod building;
mod facing;
mod grid;
mod keys;
mod walking;
mod walling;

pub use grid::{BinTooSmall, Grid};

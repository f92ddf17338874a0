//! Packings: many clumps of one template at rest in a region, none of them touching another.
//!
//! `read_ask` reads what is asked, and `pack` answers it. Means: `Cells`, `Stands` and `Packing` of dem_model, `Rows` and
//! `Asks` here. Callers rest on: the stands are the first cells; each sphere lies with its whole radius in the region; no two
//! spheres of different stands touch, and the gap is between them; each refusal exactly where it is told. Takes memory:
//! `pack`. Not here: scene texts (dem_scene).
#![tactic(auto)]

mod ask;
mod extent;
mod layout;
mod packing;
mod place;
mod read;
mod rise;

pub use ask::{Ask, Kind, PackFault};
pub use packing::pack;
pub use read::read_ask;

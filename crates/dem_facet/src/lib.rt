//! Triangle facets: which triangles are good, and when a sphere touches one or is near it, how deep, and along what.
//!
//! `facet_good` tests a triangle, `facet_unit` is its unit normal, `facet_touch` the touch of a sphere and a facet, `facet_near`
//! whether it may touch soon, `facet_covers` the law that what touches after moving was near. Means: `Facet` of dem_model.
//! Callers rest on: a touch is its definition, its normal and its overlap within their ranges. Takes no memory and refuses nothing.
//! Not here: planes and cylinders (dem_wall), what a touch does (dem_force). No scene has facets yet.
#![tactic(auto)]

mod covering;
mod edges;
mod nearest;
mod past;
mod products;
mod reach;
mod sides;
mod touching;
mod unit;

pub use covering::facet_covers;
pub use reach::facet_near;
pub use sides::facet_good;
pub use touching::facet_touch;
pub use unit::facet_unit;

//! Walls: when a sphere touches a plane or the inside of a cylinder, how deep, and along what.
//!
//! `unit` is a plane's unit normal, `wall_normal` a wall's; `wall_touch` is the touch of a sphere and a wall, `wall_near` whether it may
//! touch soon, and `wall_touch_by` and `wall_near_by` are these from a normal that is at hand.
//! Means: `Touch` and `Near` of dem_model, `Normal` here. Callers rest on: a touch is its definition, its normal and its overlap within their
//! ranges. Takes no memory and refuses nothing. Not here: two spheres (dem_force), what a touch does (dem_force).
#![tactic(auto)]

mod cylinder;
mod plane;
mod touching;

pub use plane::unit;
pub use touching::{wall_near, wall_near_by, wall_normal, wall_touch, wall_touch_by};

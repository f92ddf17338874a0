//! The step of one clump under its load, and the limits that it may pass.

pub mod body;
pub mod clump;
pub mod limits;
pub mod speeds;
pub mod unswung;

//! Rotations by a quaternion: its matrix, vectors turned there and back, one step of spin, arms and swing limits.
//!
//! Means: `Rotations` of dem_num. Callers rest on: each call is its definition; entries are at most 2^30 in size;
//! a step keeps the quaternion's length between a half and twice that of one, and each offset within its swing limit.
//! Takes no memory and refuses nothing.
//! Not here: the motion of a body (dem_force).
#![tactic(auto)]

mod laws;
mod rows;
mod stepping;
mod still;
mod swing;
mod turning;

pub use dem_num::Rows;
pub use laws::{exact_turn_law, length_law, product_law, swing_law, truncation_law, turn_law};
pub use rows::matrix;
pub use stepping::turn_step;
pub use still::is_zero;
pub use swing::{arm, swing_limit};
pub use turning::{turned, turned_back, turned_spin};

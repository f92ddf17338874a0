//! Whole-number arithmetic: vectors, quaternions, rounded quotients, floors of shifts, clamps, whole roots.
//!
//! Means: the definitions of this crate's `specs`, over whole numbers without width: `Numbers`, `Vectors`, `Rotations`.
//! Callers rest on: each call is its definition, within the stated size. Takes no memory and refuses nothing.
//! Not here: the rotation calls (dem_turn), the contact law (dem_force).
#![tactic(auto)]

mod axes;
mod dividing;
mod guess;
mod operators;
mod products;
mod rounded;
mod shares;
mod small;
mod starts;
#[cfg(test)]
mod tests;
mod vector;
mod whole_root;

pub use axes::{add3, cl3, narrow3, negated3, place_difference, scale3, sh3, sub3, tdiv3, widen};
pub use dividing::reciprocal;
pub use operators::{add, mul, narrow, negated, sub};
pub use products::{cross, dot, norm2, quat_norm2};
pub use rounded::{cl, sh, tdiv, tdiv_by};
pub use shares::share;
pub use small::{add_short, add3_short, mul_short, sh_short, short, short3, sub_short, sub3_short};
pub use vector::{Quat, Rows, Vec3, WIDE_ZERO, Wide3, ZERO};
pub use whole_root::root;

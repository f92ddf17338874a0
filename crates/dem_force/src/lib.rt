//! The contact law and the motion of one clump: what two touching things do to each other, and where a clump is next.
//!
//! `touch` tests a pair, `side_of` and `wall_side` are the sides of a contact, `mix` joins two materials, `contact` is the
//! push of one contact, `pair_contact` that of a pair from its two bodies, `Spheres` the centers and sides of all, `pushed` and `push_at` what a pair does by them,
//! `advance` the step of one clump, or the first limit that it passes, `advance_by` the same from its matrix; `never_swings` says that no run passes the swing limit.
//! Means: `Touch`, `Mixing`, `Law`, `Families`, `Advance` of dem_model. Callers rest on: each call is its definition, a push is within
//! the sizes that sums are bounded by, and a clump that advances is sound. Takes memory: `Spheres::new`, `no_loads`.
//! Not here: walls (dem_wall), sums over contacts (dem_plain).
#![tactic(auto)]

mod advancing;
mod pushing;
mod sums;
mod touching;

pub use advancing::clump::{advance, advance_by};
pub use advancing::limits::in_box;
pub use advancing::unswung::never_swings;
pub use dem_model::{Law, Push, Side, Touch};
pub use pushing::law::contact;
pub use pushing::meeting::{push_at, pushed};
pub use pushing::mixing::{mix, wall_side};
pub use pushing::pairwise::{pair_contact, pushed_uncounted};
pub use pushing::side_list::{Sides, push_from};
pub use pushing::sides::{law_between, side_of};
pub use pushing::spheres::Spheres;
pub use sums::loads::{add_push, no_loads};
pub use touching::pairs::{center, touch, wall_beside};

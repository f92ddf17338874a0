//! Margins: which pairs may touch before their list is too old, and why no other pair does.
//!
//! `reach` is how far a sphere may reach, `near` the test of a pair, `build_all` the near list of a snapshot, `add_near` its
//! step for one pair, `covers` the law that makes such a list safe. Means: `Near` of dem_model, `IsNearListOf`. Callers rest
//! on: a list has exactly the near pairs, ascending, and says from which step; every pair that touches is near at centers
//! from which no sphere has moved farther than it may. Takes memory: `build_all`, `add_near`. Not here: bins (the list tests every pair), what is held of a pair (dem_hist).
#![tactic(auto)]

mod building;
mod coverage;
mod margin;
mod marking;

pub use building::{add_near, build_all, emptied};
pub use coverage::{covers, parts};
pub use margin::{near, reach, tested};
pub use marking::may_touch;

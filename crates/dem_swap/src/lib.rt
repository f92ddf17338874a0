//! The exchange of one parcel between dynamics and kinematics, without a lock and without waiting.
//!
//! A `Swap` has a turn word, a stop word and one slot. `DynSeat` and `KinSeat` are the two sides' rights to step there, and a
//! `Parcel` goes round: a snapshot out, the list of its near pairs back. Means: `Exchange` and its neighbours in specs, whose
//! rule `Follows` holds between any two atomic steps, in any order of the sides (`exchange_law`). Callers rest on: `collect`
//! gives the snapshot posted last with its near list, or with that list refused; None and `stopped` are by the one look
//! that the seat's view counts. Takes memory: `Swap::new`. Not here: which pairs are near (dem_margin), threads (dem_crew).
#![tactic(auto)]

mod known;
mod laws;
mod opening;
mod parcel;
mod plays;
mod seats;
mod swap;

pub use laws::exchange_law;
pub use parcel::Parcel;
pub use seats::{DynSeat, KinSeat};
pub use swap::Swap;

//! Displacements beside a list of pairs, and carrying them from one list to the next.
//!
//! `Contacts` has a sorted list of pairs and an entry by place: the displacement held of the pair, or None. `carry` takes
//! the next list in one walk of both. Means: `Carry` of dem_model, `HeldByPlace` of specs.
//! Callers rest on: a pair in both lists keeps its entry, a pair only in the new one has None, the old list comes back.
//! Takes memory: `Contacts::carry`. Not here: which pairs are listed (dem_list), what is held of a pair (dem_force).
#![tactic(auto)]

mod carry;
mod contacts;

pub use carry::are_same;
pub use contacts::Contacts;

//! Sorted lists of pairs, and the unsorted lists that they are made from.
//!
//! `PairList` is strictly ascending and says from which step it was made; `RawPairs` takes pairs in any order and settles
//! into a `PairList` of exactly these, each once. Means: `Ascending` of specs; a pair is that of dem_model.
//! Callers rest on: both are seen as a step and a list of pairs; `place` finds a pair exactly where it is; a buffer goes
//! round from one to the other; to gather moves pairs alone. Takes memory: `RawPairs::add`, `gather`. Not here: which pairs are near, displacements (dem_hist).
#![tactic(auto)]

mod gathering;
mod order;
mod pair_list;
mod raw_pairs;

pub use order::is_before;
pub use pair_list::PairList;
pub use raw_pairs::RawPairs;

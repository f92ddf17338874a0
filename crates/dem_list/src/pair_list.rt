//! A strictly ascending list of pairs, with the step that it was made from.

ghost use Rattle.std.specs.Prelude.{◌≡◌, ◌<◌, ◌^◌, [], length, slice_get, Some, MatchOption, vec_len};
ghost use Rattle.std.specs.List.{Contains};
ghost use Rattle.dem_list.specs.Ascending.{Pairs, IsAscending};

use crate::order::key;
use crate::raw_pairs::RawPairs;
use dem_model::Pair;
use std::alloc::Global;
use std::marker::Model;

/// Pairs in strictly ascending order of `(a, b)`, fewer than 2^32, and the step that they were made from.
#[derive(Drop)]
pub struct PairList {
    pub(crate) step: u32,
    pub(crate) pairs: Vec<Pair>,
}

impl Model for PairList {
    ghost Value = { Pairs };

    ghost view = { λ l. record { from = l.step; pairs = l.pairs.items } };

    ghost invariant = { λ l. IsAscending l.pairs.items × (vec_len l.pairs < 2 ^ 32) };
}

impl PairList {
    /// The list of no pairs, from step 0; it keeps `alloc` and takes no memory.
    pub fn empty(alloc: Global) -> PairList
        ensures { result ≡ record { from = 0; pairs = [] } }
    {
        PairList {
            step: 0,
            pairs: Vec::new(alloc),
        }
    }

    /// The step that the list was made from.
    pub fn from(&self) -> u32
        ensures { result ≡ self.now.from }
    {
        self.step
    }

    /// The number of pairs; what it tells besides holds of every list.
    pub fn len(&self) -> u32
        ensures value { result ≡ length self.now.pairs }
        ensures ascending { IsAscending self.now.pairs }
    {
        self.pairs.len() as u32
    }

    /// The pair at place `i`.
    pub fn get(&self, i: u32) -> Pair
        requires { i < length self.now.pairs }
        ensures { slice_get self.now.pairs i ≡ Some result }
    {
        self.pairs[i as usize]
    }

    /// The place of a pair, found by bisection; None exactly where the pair isn't in the list.
    pub fn place(&self, p: Pair) -> Option<u32>
        ensures { MatchOption result (Contains self.now.pairs p → ⊥) (λ i. slice_get self.now.pairs i ≡ Some p) }
    {
        match self.pairs.as_slice().binary_search_by_key(&key(&p), key) {
            Ok(i) => Some(i as u32),
            Err(_) => None,
        }
    }

    /// Keeps the buffer, drops the pairs, and begins a list from another step.
    pub fn raw(self, from: u32) -> RawPairs
        ensures { result ≡ record { from = from; pairs = [] } }
    {
        let mut pairs = self.pairs;
        pairs.clear();
        RawPairs { step: from, pairs }
    }
}

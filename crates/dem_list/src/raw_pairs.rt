//! Pairs in the order in which they were found, on the way to a sorted list.

ghost use Rattle.std.specs.Prelude.{◌≡◌, ◌+◌, ◌<◌, ◌^◌, ◌++◌, [], ◌∷◌, length, OnOk, OnErr, IsPermutation, vec_len};
ghost use Rattle.dem_list.specs.Ascending.{Pairs, IsAscending, HasSamePairs};

use crate::gathering::gather;
use crate::order::key;
use crate::pair_list::PairList;
use dem_model::{OutOfMemory, Pair};
use std::alloc::Global;
use std::marker::Model;

/// Pairs in any order, with repetitions, fewer than 2^32, and the step that they were made from.
#[derive(Drop)]
pub struct RawPairs {
    pub(crate) step: u32,
    pub(crate) pairs: Vec<Pair>,
}

impl Model for RawPairs {
    ghost Value = { Pairs };

    ghost view = { λ l. record { from = l.step; pairs = l.pairs.items } };

    ghost invariant = { λ l. vec_len l.pairs < 2 ^ 32 };
}

impl RawPairs {
    /// Appends a pair; after a refusal all is as before. A list holds fewer than 2^32 pairs.
    pub fn add(&mut self, p: Pair) -> Result<(), OutOfMemory>
        requires { length self.old.pairs + 1 < 2 ^ 32 }
        ensures ok { OnOk result (self.new ≡ record { from = self.old.from; pairs = self.old.pairs ++ p ∷ [] }) }
        ensures err { OnErr result (self.new ≡ self.old) }
    {
        match self.pairs.push(p) {
            Ok(()) => Ok(()),
            Err(_) => Err(OutOfMemory),
        }
    }

    /// Brings the pairs close to their order, so that settling them takes little time where all first numbers are below `firsts`.
    /// The pairs stay the same, after a refusal too.
    pub fn gather(&mut self, alloc: Global, firsts: u32) -> Result<(), OutOfMemory>
        ensures from { self.new.from ≡ self.old.from }
        ensures moved { IsPermutation self.old.pairs self.new.pairs }
    {
        gather(alloc, self.pairs.as_mut_slice(), firsts)
    }

    /// The added pairs, each once, in ascending order; sorted in place, without memory.
    pub fn settle(self) -> PairList
        ensures from { result.from ≡ self.from }
        ensures ascending { IsAscending result.pairs }
        ensures added { HasSamePairs self.pairs result.pairs }
    {
        let mut pairs = self.pairs;
        pairs.sort_unstable_by_key(key);
        pairs.dedup();
        PairList {
            step: self.step,
            pairs,
        }
    }
}

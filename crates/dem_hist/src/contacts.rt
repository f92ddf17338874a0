//! A list in use, and what is held of each of its pairs.

ghost use Rattle.std.specs.Prelude.{◌≡◌, ◌<◌, ◌≤◌, [], length, take, slice_get, slice_set, Some, OnOk, OnErr, IfOk, IfErr};
ghost use Rattle.dem_model.specs.Carry.{carried};
ghost use Rattle.dem_hist.specs.Carrying.{HeldByPlace};

use crate::carry::{are_same, fill};
use dem_list::PairList;
use dem_model::OutOfMemory;
use dem_num::Vec3;
use std::alloc::Global;
use std::marker::Model;

/// A sorted list of pairs, and an entry beside each: its tangential displacement in u times 2^16, or None.
#[derive(Drop)]
pub struct Contacts {
    pairs: PairList,
    entries: Vec<Option<Vec3>>,
    spare: Vec<Option<Vec3>>,
}

impl Model for Contacts {
    ghost Value = { HeldByPlace };

    ghost view = { λ c. record { list = c.pairs; entries = c.entries.items } };

    ghost invariant = { λ c. length c.entries.items ≡ length c.pairs.pairs };
}

impl Contacts {
    /// The list of no pairs, from step 0; it keeps `alloc` and takes no memory.
    pub fn new(alloc: Global) -> Contacts
        ensures { result ≡ record { list = record { from = 0; pairs = [] }; entries = [] } }
    {
        Contacts {
            pairs: PairList::empty(alloc),
            entries: Vec::new(alloc),
            spare: Vec::new(alloc),
        }
    }

    /// Lends the list in use; there is an entry for each of its pairs.
    pub fn list(&self) -> &PairList
        ensures value { result.now ≡ self.now.list }
        ensures as_many { length self.now.entries ≡ length self.now.list.pairs }
    {
        &self.pairs
    }

    /// What is held of the pair at place `i`.
    pub fn held(&self, i: u32) -> Option<Vec3>
        requires { i < length self.now.list.pairs }
        ensures { slice_get self.now.entries i ≡ Some result }
    {
        self.entries[i as usize]
    }

    /// Puts what is held of the pair at place `i`, and changes no other entry.
    pub fn set(&mut self, i: u32, h: Option<Vec3>)
        requires { i < length self.old.list.pairs }
        ensures { self.new ≡ record { list = self.old.list; entries = slice_set self.old.entries i h } }
    {
        self.entries[i as usize] = h;
    }

    /// Takes as many of these entries into use as there are pairs, and gives back those that were in use; both by place.
    pub fn exchange(&mut self, entries: &mut Vec<Option<Vec3>>)
        requires { length self.old.list.pairs ≤ length entries.old.items }
        ensures taken { self.new ≡ record { list = self.old.list; entries = take (length self.old.list.pairs) entries.old.items } }
        ensures given { entries.new.items ≡ self.old.entries }
    {
        entries.truncate(self.entries.len());
        std::mem::swap(&mut self.entries, entries);
    }

    /// Takes the next list into use: a pair in both keeps its entry, a pair only in the new one has None.
    /// The old list comes back; after a refusal nothing has changed and the very list `new` comes back. Where both have the same pairs,
    /// no entry is touched.
    pub fn carry(&mut self, new: PairList) -> Result<PairList, (PairList, OutOfMemory)>
        ensures carried { OnOk result (self.new ≡ record { list = new; entries = carried self.old.list.pairs self.old.entries new.pairs }) }
        ensures old_list { IfOk result (λ list. list ≡ self.old.list) }
        ensures unchanged { OnErr result (self.new ≡ self.old) }
        ensures new_list { IfErr result (λ refused. refused.0 ≡ new) }
    {
        let _pairs = self.pairs.len();
        if are_same(&self.pairs, &new) {
            return Ok(std::mem::replace(&mut self.pairs, new));
        }
        match fill(&mut self.spare, &self.pairs, self.entries.as_slice(), &new) {
            Ok(()) => {
                std::mem::swap(&mut self.entries, &mut self.spare);
                Ok(std::mem::replace(&mut self.pairs, new))
            }
            Err(fault) => Err((new, fault)),
        }
    }
}

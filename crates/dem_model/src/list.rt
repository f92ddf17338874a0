//! A growing list that contracts see as a list, and the answer of a call that found no memory.

ghost use Rattle.std.specs.Prelude.{◌≡◌, ◌<◌, ◌++◌, [], ◌∷◌, length, slice_get, slice_set, OnOk, OnErr, Some};

use std::alloc::Global;
use std::marker::Model;

/// A call wanted memory that wasn't there.
#[derive(Clone, Copy, PartialEq, Debug)]
pub struct OutOfMemory;

/// A list of values in the order in which they were pushed.
#[derive(Drop)]
pub struct List<T> {
    items: Vec<T>,
}

impl<T> Model for List<T> {
    ghost use Rattle.std.specs.Prelude.{List as Seq};

    ghost Value = { Seq T };

    ghost view = { λ a. a.items.items };
}

impl<T> List<T> {
    /// The empty list.
    pub fn new(alloc: Global) -> List<T>
        ensures { result ≡ [] }
    {
        List {
            items: Vec::new(alloc),
        }
    }

    /// The number of values.
    pub fn len(&self) -> usize
        ensures { result ≡ length self.now }
    {
        self.items.len()
    }

    /// Lends the value at place `i`.
    pub fn get(&self, i: usize) -> &T
        requires { i < length self.now }
        ensures { slice_get self.now i ≡ Some result.now }
    {
        &self.items[i]
    }

    /// Lends all values, in order.
    pub fn as_slice(&self) -> &[T]
        ensures { result.now ≡ self.now }
    {
        self.items.as_slice()
    }
}

impl<T: Drop> List<T> {
    /// Drops the value at place `i` and puts `value` there.
    pub fn set(&mut self, i: usize, value: T)
        requires { i < length self.old }
        ensures { self.new ≡ slice_set self.old i value }
    {
        self.items[i] = value;
    }

    /// Drops all values.
    pub fn clear(&mut self)
        ensures { self.new ≡ [] }
    {
        self.items.clear();
    }

    /// Appends the value; after a refusal the list is as before and the value is dropped.
    pub fn push(&mut self, value: T) -> Result<(), OutOfMemory>
        ensures ok { OnOk result (self.new ≡ self.old ++ value ∷ []) }
        ensures err { OnErr result (self.new ≡ self.old) }
    {
        match self.items.push(value) {
            Ok(()) => Ok(()),
            Err(_) => Err(OutOfMemory),
        }
    }
}

//! A sink over memory of a fixed room, with puts that fail.
ghost use Rattle.std.specs.Prelude.{◌≡◌, ◌==◌, ◌≤◌, ◌↔◌, [], find, Some, IsOk, IfOk, OnOk, OnErr};
ghost use Rattle.dem_outside.specs.Faults.{Counts};
ghost use Rattle.dem_outside.specs.Known.{PutAppends};

use crate::failed::{Failed, count_one};
use crate::sink::Sink;
use dem_model::{List, OutOfMemory};
use std::alloc::Global;
use std::marker::Model;

/// A put that fails: its number, from 1, and the most bytes that it takes before.
#[derive(Clone, Copy, Debug, PartialEq, Eq)]
pub struct Fail {
    pub call: u64,
    pub take: u32,
}

/// Holds at most `room` bytes; the puts whose numbers are listed fail, and so does one that has too little room.
#[derive(Drop)]
pub struct MemSink {
    bytes: Vec<u8>,
    room: u32,
    fails: List<Fail>,
    made: u64,
    faults: u64,
}

impl Model for MemSink {
    ghost use Rattle.std.specs.Prelude.{◌≤◌, vec_len, vec_capacity};
    ghost use Rattle.dem_outside.specs.MemSinkValue.{MemSinkValue};

    ghost Value = { MemSinkValue };

    ghost view = { λ s. record { held = s.bytes.items; room = s.room; fails = s.fails; made = s.made; faults = s.faults } };

    ghost invariant = { λ s. (vec_len s.bytes ≤ s.room) × (s.room ≤ vec_capacity s.bytes) };
}

impl MemSink {
    ghost use Rattle.dem_outside.specs.MemSinkValue.{MemSinkValue};

    /// An empty sink of this room, before its first put. It takes the memory for its room here.
    pub fn new(alloc: Global, room: u32, fails: List<Fail>) -> Result<MemSink, OutOfMemory>
        ensures { IfOk result (λ s. s ≡ record { held = []; room = room; fails = fails; made = 0; faults = 0 }) }
    {
        match Vec::with_capacity(alloc, room as usize) {
            Ok(bytes) => Ok(MemSink {
                bytes,
                room,
                fails,
                made: 0,
                faults: 0,
            }),
            Err(_) => Err(OutOfMemory),
        }
    }

    /// The bytes that the sink holds.
    pub fn held(&self) -> &[u8]
        ensures { result.now ≡ self.now.held }
    {
        self.bytes.as_slice()
    }
}

impl Sink for MemSink {
    ghost use Rattle.dem_outside.specs.MemSinkValue.{MemSinkValue, TakesNext, after_put, after_fault};

    ghost held = { λ s. Some s.held };

    ghost faults = { λ s. s.faults };

    fn put(&mut self, piece: &[u8]) -> Result<(), Failed>
        ensures count { Counts self.old.faults self.new.faults result }
        ensures appended { PutAppends (Some self.old.held) (Some self.new.held) result piece.now }

        // It fails where it was told to or has too little room, and nowhere else.
        ensures taken { IsOk result ↔ TakesNext self.old piece.now }
        ensures after { OnOk result (self.new ≡ after_put self.old piece.now) }
        ensures after_fault { OnErr result (self.new ≡ after_fault self.old piece.now) }
    {
        count_one(&mut self.made);
        let left = self.room as usize - self.bytes.len();
        match find_failure(self.fails.as_slice(), self.made) {
            Some(failure) => {
                let count = piece.len().min(failure.take as usize).min(left);
                self.bytes.extend_from_slice(&piece[..count]).unwrap();
                count_one(&mut self.faults);
                Err(Failed)
            }
            None if piece.len() > left => {
                count_one(&mut self.faults);
                Err(Failed)
            }
            None => {
                self.bytes.extend_from_slice(piece).unwrap();
                Ok(())
            }
        }
    }
}

// The first entry for the put of this number.
fn find_failure(fails: &[Fail], number: u64) -> Option<Fail>
    ensures { result ≡ find (λ f. f.call == number) fails.now }
{
    for f in fails {
        if f.call == number {
            return Some(*f);
        }
    }
    None
}

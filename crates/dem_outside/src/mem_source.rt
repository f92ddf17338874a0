//! A source over bytes in memory, with small reads and reads that fail.
ghost use Rattle.std.specs.Prelude.{◌≡◌, ◌<◌, ◌≤◌, ◌↔◌, length, take, min, Some, IsErr, IfOk, OnErr};
ghost use Rattle.std.specs.Io.KnownBytes.{ReadConsumes};
ghost use Rattle.dem_outside.specs.Faults.{Counts};

use crate::failed::{Failed, count_one};
use crate::source::Source;
use dem_model::List;
use std::marker::Model;

/// Gives its bytes in pieces of at most `piece`; the reads whose numbers, from 1, are listed fail.
#[derive(Drop)]
pub struct MemSource {
    bytes: Vec<u8>,
    at: usize,
    piece: u32,
    fails: List<u64>,
    made: u64,
    faults: u64,
}

impl Model for MemSource {
    ghost use Rattle.std.specs.Prelude.{◌<◌, ◌≤◌, drop, vec_len};
    ghost use Rattle.dem_outside.specs.MemSourceValue.{MemSourceValue};

    ghost Value = { MemSourceValue };

    ghost view = { λ s. record { left = drop s.at s.bytes.items; piece = s.piece; fails = s.fails; made = s.made; faults = s.faults } };

    ghost invariant = { λ s. (s.at ≤ vec_len s.bytes) × (0 < s.piece) };
}

impl MemSource {
    ghost use Rattle.dem_outside.specs.MemSourceValue.{MemSourceValue};

    /// A source of these bytes, before its first read.
    pub fn new(bytes: Vec<u8>, piece: u32, fails: List<u64>) -> MemSource
        requires { 0 < piece }
        ensures { result ≡ record { left = bytes.items; piece = piece; fails = fails; made = 0; faults = 0 } }
    {
        MemSource {
            bytes,
            at: 0,
            piece,
            fails,
            made: 0,
            faults: 0,
        }
    }
}

impl Source for MemSource {
    ghost use Rattle.dem_outside.specs.MemSourceValue.{MemSourceValue, FailsNext, given_of, after_read, after_fault};

    ghost left = { λ s. Some s.left };

    ghost faults = { λ s. s.faults };

    fn read(&mut self, buf: &mut [u8]) -> Result<usize, Failed>
        requires { 0 < length buf.old }
        ensures count { Counts self.old.faults self.new.faults result }
        ensures within { IfOk result (λ n. n ≤ length buf.old) }
        ensures taken { ReadConsumes (Some self.old.left) (Some self.new.left) result buf.new }

        // It fails where it was told to, and nowhere else.
        ensures failed { IsErr result ↔ FailsNext self.old }
        ensures given { IfOk result (λ n. n ≡ given_of self.old (length buf.old)) }
        ensures after { IfOk result (λ n. self.new ≡ after_read self.old n) }
        ensures after_fault { OnErr result (self.new ≡ after_fault self.old) }
    {
        count_one(&mut self.made);
        if self.fails.as_slice().contains(&self.made) {
            count_one(&mut self.faults);
            return Err(Failed);
        }
        let count = give(&self.bytes[self.at..], self.piece as usize, buf);
        self.at += count;
        Ok(count)
    }
}

// Copies the first of these bytes, at most `most`, to the beginning of `buf`, and answers how many.
fn give(bytes: &[u8], most: usize, buf: &mut [u8]) -> usize
    ensures count { result ≡ min (min (length bytes.now) (length buf.old)) most }
    ensures first { take result buf.new ≡ take result bytes.now }
{
    let count = bytes.len().min(buf.len()).min(most);
    buf[..count].copy_from_slice(&bytes[..count]);
    count
}

//! A sink that compares what it gets with a text, and fails at the first row that differs.
ghost use Rattle.std.specs.Prelude.{◌≡◌, ◌≤◌, ◌<◌, ◌+◌, ◌⊎◌, ℕ, List as Seq, [], ◌∷◌, ◌++◌, true, false, length, take, slice_get, Some, IfOk};
ghost use Rattle.dem_outside.specs.Faults.{Counts};
ghost use Rattle.dem_outside.specs.Known.{PutAppends};
ghost use Rattle.dem_check.specs.Comparisons.{AreBytes, Comparison, held_of, marked};
ghost use Rattle.dem_check.specs.Verdicts.{Checks};

use crate::bytes::{common, line_len};
use crate::rows::{last_row, row};
use crate::verdict::Verdict;
use dem_model::OutOfMemory;
use dem_outside::{Failed, Sink};
use std::alloc::Global;
use std::marker::Model;

/// What was put so far is the text up to `at`, and then `rest`: the row that differs, from the byte at which it does.
#[derive(Drop)]
pub(crate) struct Comparing<'t> {
    text: &'t [u8],
    at: usize,
    rest: Vec<u8>,
    whole: bool,
    short: bool,
    faults: u64,
}

impl<'t> Model for Comparing<'t> {
    ghost use Rattle.dem_check.specs.Comparisons.{Comparison, IsComparison};

    ghost Value = { Comparison };

    ghost view = { λ c. record { text = c.text.now; at = c.at; rest = c.rest.items; whole = c.whole; short = c.short; faults = c.faults } };

    ghost invariant = { λ c. IsComparison (record { text = c.text.now; at = c.at; rest = c.rest.items; whole = c.whole; short = c.short; faults = c.faults }) };
}

impl<'t> Comparing<'t> {
    /// Nothing was put yet.
    pub(crate) fn new(alloc: Global, text: &'t [u8]) -> Comparing<'t>
        ensures { result ≡ record { text = text.entry.now; at = 0; rest = []; whole = false; short = false; faults = 0 } }
    {
        Comparing {
            text,
            at: 0,
            rest: Vec::new(alloc),
            whole: false,
            short: false,
            faults: 0,
        }
    }

    /// Whether there was no memory for the row that differs.
    pub(crate) fn is_short(&self) -> bool
        ensures value { result ≡ self.now.short }
        ensures bytes { AreBytes self.now.text }
        ensures stops { (self.now.faults ≡ 0) ⊎ ((self.now.whole ≡ true) ⊎ (self.now.short ≡ true)) }
    {
        self.short
    }

    // Passes over the bytes of a piece that are the text's; answers how many.
    fn pass(&mut self, piece: &[u8]) -> usize
        ensures within { result ≤ length piece.now }
        ensures moved { self.new ≡ record self.old { at = self.old.at + result } }
        ensures held { marked self.new ≡ marked self.old ++ take result piece.now }
        ensures parts { result < length piece.now → self.new.rest ≡ []
            → slice_get self.new.text self.new.at ≡ slice_get piece.now result → ⊥ }
    {
        if !self.rest.as_slice().is_empty() {
            return 0;
        }
        let n = common(&self.text[self.at..], piece);
        self.at += n;
        n
    }

    // Keeps what a piece has of the row that differs; fails once that row is ended.
    fn keep(&mut self, piece: &[u8]) -> Result<(), Failed>
        requires { self.old.rest ≡ [] → slice_get self.old.text self.old.at ≡ slice_get piece.now 0 → ⊥ }
        ensures count { Counts self.old.faults self.new.faults result }
        ensures appended { PutAppends (Some (marked self.old)) (Some (marked self.new)) result piece.now }
    {
        if self.whole {
            self.faults = self.faults.saturating_add(1);
            return Err(Failed);
        }
        let n = line_len(piece);
        let end = piece.len().min(n + 1);
        if let Err(_error) = self.rest.extend_from_slice(&piece[..end]) {
            self.short = true;
            self.faults = self.faults.saturating_add(1);
            return Err(Failed);
        }
        if n < piece.len() {
            self.whole = true;
            self.faults = self.faults.saturating_add(1);
            return Err(Failed);
        }
        Ok(())
    }

    /// The verdict on the text, where the output is what was put and then `more`, which is nothing unless the row that differs is ended.
    pub(crate) fn verdict(&self, alloc: Global) -> Result<Verdict, OutOfMemory>
        ensures { (more : Seq ℕ) → (more ≡ []) ⊎ (self.now.whole ≡ true)
            → IfOk result (Checks self.now.text (held_of self.now ++ more)) }
    {
        let rest = self.rest.as_slice();
        let left = self.text.len() - self.at;
        if left.saturating_add(rest.len()) == 0 {
            return Ok(Verdict::Same);
        }
        let cut = last_row(&self.text[..self.at]);
        let tail = &self.text[cut.start..self.at];
        let kept = row(alloc, tail, &self.text[self.at..])?;
        let found = row(alloc, tail, rest)?;
        Ok(Verdict::Differs {
            row: cut.rows as u64 + 1,
            kept,
            found,
        })
    }
}

impl Sink for Comparing<'_> {
    ghost held = { λ c. Some (marked c) };

    ghost faults = { λ c. c.faults };

    fn put(&mut self, piece: &[u8]) -> Result<(), Failed> {
        let n = self.pass(piece);
        if n == piece.len() {
            return Ok(());
        }
        self.keep(&piece[n..])
    }
}

//! A frame as far as it was read, and what a record adds to it.
ghost use Rattle.std.specs.Prelude.{◌≡◌, ◌<◌, ◌^◌, length, None, Some, IfOk, nat_lt, if◌then◌else◌};
ghost use Rattle.csv.specs.Records.{fields_of};

use crate::records::{read_clump, read_head, read_pair};
use csv::ByteRecord;
use dem_model::{Body, Held, List, OutOfMemory, State};
use std::alloc::Global;

/// Why a text is no frame.
#[derive(Clone, Copy, Debug, PartialEq, Eq)]
pub enum FrameFault {
    /// The record of this number, from 1, is the first that no good frame has there.
    Bad { row: u32 },
    /// All of so many records are good, and the head or a clump is missing.
    Short { rows: u32 },
    OutOfMemory,
}

/// What was read of a frame.
#[derive(Drop)]
pub(crate) struct PartialFrame {
    pub step: Option<u32>,
    pub bodies: List<Body>,
    pub held: List<Held>,
}

ghost use Rattle.dem_frame.specs.PartialFrames.{last_held};

// The last pair, if there is one.
fn last(held: &List<Held>) -> Option<Held>
    ensures { result ≡ last_held held.now }
{
    held.as_slice().last().copied()
}

impl PartialFrame {
    ghost use Rattle.dem_frame.specs.PartialFrames.{nothing_read, with_body, with_record, whole_frame};

    /// Nothing was read yet.
    pub(crate) fn new(alloc: Global) -> PartialFrame
        ensures { result ≡ nothing_read }
    {
        PartialFrame {
            step: None,
            bodies: List::new(alloc),
            held: List::new(alloc),
        }
    }

    // Whether a clump is missing.
    fn lacks_clumps(&self, clumps: u32) -> bool
        ensures { result ≡ nat_lt (length self.now.bodies) clumps }
    {
        self.bodies.len() < clumps as usize
    }

    // A clump's record while clumps are missing, and then a pair's.
    #[tactic(auto, unfolding(crate::specs::PartialFrames::with_body))]
    fn take_body(&mut self, row: &ByteRecord, clumps: u32) -> Result<bool, OutOfMemory>
        ensures { IfOk result (λ good. with_body clumps self.old (fields_of row.now) ≡ (if good then Some self.new else None)) }
    {
        if self.lacks_clumps(clumps) {
            let Some(body) = read_clump(row, self.bodies.len() as u32) else {
                return Ok(false);
            };
            self.bodies.push(body)?;
        } else {
            let Some(entry) = read_pair(row, last(&self.held)) else {
                return Ok(false);
            };
            self.held.push(entry)?;
        }
        Ok(true)
    }

    /// Adds what the record says, and answers whether a good frame has it there.
    #[tactic(auto, unfolding(crate::specs::PartialFrames::with_head))]
    pub(crate) fn take(&mut self, row: &ByteRecord, clumps: u32) -> Result<bool, OutOfMemory>
        ensures { IfOk result (λ good. with_record clumps self.old (fields_of row.now) ≡ (if good then Some self.new else None)) }
    {
        if self.step.is_some() {
            return self.take_body(row, clumps);
        }
        let Some(step) = read_head(row) else {
            return Ok(false);
        };
        self.step = Some(step);
        Ok(true)
    }

    /// The state, where neither the head nor a clump is missing.
    #[tactic(auto, unfolding(crate::specs::PartialFrames::whole_frame))]
    pub(crate) fn finish(self, clumps: u32) -> Option<State>
        ensures { result ≡ whole_frame clumps self }
    {
        if self.lacks_clumps(clumps) {
            return None;
        }
        let step = self.step?;
        Some(State {
            step,
            bodies: self.bodies,
            held: self.held,
        })
    }
}

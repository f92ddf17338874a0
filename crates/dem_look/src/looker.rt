//! What sees states one after the other: each by itself, and beside the one before it.
ghost use Rattle.std.specs.Prelude.{◌≡◌, IfOk, Option, None, Some, length, replicate};
ghost use Rattle.dem_model.specs.Fit.{IsFit};
ghost use Rattle.dem_model.specs.Look.{look_of};
ghost use Rattle.dem_model.specs.declared.state.State.{State as StateValue};
ghost use Rattle.dem_look.specs.Looker.{Shows};

use crate::contacts::{count_contacts, find_busiest};
use crate::heights::highest;
use crate::middle::{crossings, flag_lows};
use crate::motion::kinetic;
use dem_model::{LookRow, OutOfMemory, State};
use dem_shape::Shapes;
use std::alloc::Global;
use std::marker::Model;

/// A looker over the clumps of a scene: which of them were low in the state that it was shown last, where there was one, and
/// room for the flags and the counts of the next.
#[derive(Drop)]
pub struct Looker {
    seen: bool,
    low: Vec<bool>,
    next: Vec<bool>,
    counts: Vec<u32>,
}

impl Model for Looker {
    ghost use Rattle.std.specs.Prelude.{length, Some, None, if◌then◌else◌};
    ghost use Rattle.dem_look.specs.Looker.{LookerValue, HasRoom};

    ghost Value = { LookerValue };

    ghost view = { λ a. record { clumps = length a.counts.items; lows = if a.seen then Some a.low.items else None } };

    ghost invariant = { λ a. HasRoom a.low.items a.next.items a.counts.items };
}

impl Looker {
    /// A looker for these shapes, which was shown no state yet.
    pub fn new(alloc: Global, shapes: &Shapes) -> Result<Looker, OutOfMemory>
        ensures made { IfOk result (λ looker. looker.clumps ≡ length shapes.now.clumps) }
        ensures shows { IfOk result (λ looker. Shows shapes.now looker None) }
    {
        let clumps = shapes.scene().clumps.len();
        Ok(Looker {
            seen: false,
            low: filled(alloc, clumps, false)?,
            next: filled(alloc, clumps, false)?,
            counts: filled(alloc, clumps, 0)?,
        })
    }

    /// What is seen of a state, beside the state that was shown before it. Takes no memory.
    pub fn see(&mut self, shapes: &Shapes, state: &State) -> LookRow
        requires made { self.old.clumps ≡ length shapes.now.clumps }
        requires fit { IsFit shapes.now state.now }
        ensures value { (before : Option StateValue) → Shows shapes.now self.old before → result ≡ look_of shapes.now before state.now }
        ensures shows { Shows shapes.now self.new (Some state.now) }
        ensures made { self.new.clumps ≡ self.old.clumps }
    {
        let _scene = shapes.scene();
        flag_lows(self.next.as_mut_slice(), shapes, state);
        count_contacts(self.counts.as_mut_slice(), shapes, state.held.as_slice());
        let crossed = crossings(self.seen, self.low.as_slice(), self.next.as_slice());
        let contacts = find_busiest(self.counts.as_slice());
        std::mem::swap(&mut self.low, &mut self.next);
        self.seen = true;
        LookRow {
            step: state.step,
            top: highest(state.bodies.as_slice()),
            kin: kinetic(shapes, state),
            up: crossed.up,
            down: crossed.down,
            most: contacts.most,
            clump: contacts.clump,
        }
    }
}

/// A list of this value, so many times.
fn filled<T: Copy>(alloc: Global, count: usize, value: T) -> Result<Vec<T>, OutOfMemory>
    ensures { IfOk result (λ items. items.items ≡ replicate count value) }
{
    let mut items = Vec::new(alloc);
    for _ in 0..count {
        if items.push(value).is_err() {
            return Err(OutOfMemory);
        }
    }
    Ok(items)
}

//! A frame: the head, the clumps and the pairs of a state.
ghost use Rattle.std.specs.Prelude.{◌≤◌, ◌^◌, length};
ghost use Rattle.dem_outside.specs.Faults.{Counts};
ghost use Rattle.dem_outside.specs.Known.{PutAppends};
ghost use Rattle.dem_model.specs.Frames.{state_text, clumps_text, pairs_text};

use crate::row::WriteFault;
use crate::rows::{write_clump, write_head, write_pair};
use dem_model::{Body, Held, State};
use dem_outside::Sink;

/// Writes the frame of a state.
#[tactic(auto, unfolding(dem_model::specs::Frames::state_text))]
pub fn write_state<K: Sink>(out: &mut K, s: &State) -> Result<(), WriteFault>
    requires { length s.now.bodies ≤ 16384 }
    ensures count { Counts (K.faults out.old) (K.faults out.new) result }
    ensures written { PutAppends (K.held out.old) (K.held out.new) result (state_text s.now) }
{
    write_head(out, s.step)?;
    write_clumps(out, s.bodies.as_slice())?;
    write_pairs(out, s.held.as_slice())
}

// Writes the rows of the clumps, numbered from 0.
fn write_clumps<K: Sink>(out: &mut K, bodies: &[Body]) -> Result<(), WriteFault>
    requires { length bodies.now ≤ 16384 }
    ensures count { Counts (K.faults out.old) (K.faults out.new) result }
    ensures written { PutAppends (K.held out.old) (K.held out.new) result (clumps_text 0 bodies.now) }
{
    let mut i = 0;
    for b in bodies {
        write_clump(out, i, b)?;
        i += 1;
    }
    Ok(())
}

// Writes the rows of the pairs.
fn write_pairs<K: Sink>(out: &mut K, held: &[Held]) -> Result<(), WriteFault>
    ensures count { Counts (K.faults out.old) (K.faults out.new) result }
    ensures written { PutAppends (K.held out.old) (K.held out.new) result (pairs_text held.now) }
{
    for entry in held {
        write_pair(out, entry.pair, entry.h)?;
    }
    Ok(())
}

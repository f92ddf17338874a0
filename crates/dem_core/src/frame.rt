//! The frame of a run on lists, written from its bodies and from what is held of the pairs in use.

ghost use Rattle.std.specs.Prelude.{◌≡◌};
ghost use Rattle.dem_outside.specs.Faults.{Counts};
ghost use Rattle.dem_outside.specs.Known.{PutAppends};
ghost use Rattle.dem_model.specs.Carry.{kept_of};
ghost use Rattle.dem_model.specs.Frames.{state_text, clumps_text, pairs_text};
ghost use Rattle.dem_model.specs.Output.{due_text};
ghost use Rattle.dem_model.specs.World.{done_at as done_at_of, reached_text};
ghost use Rattle.dem_core.specs.Rows.{entry_text};

use dem_frame::{WriteFault, write_clump, write_end, write_head, write_pair};
use dem_hist::Contacts;
use dem_model::{Last, Pair, Scene};
use dem_num::Vec3;
use dem_output::is_due;
use dem_outside::Sink;
use dem_step::Dyn;

/// How a run ends that reaches the state of this number, where that is the last.
#[tactic(auto, unfolding(dem_model::specs::World::done_at))]
pub fn done_at(scene: &Scene, step: u32) -> Option<Last>
    ensures { result ≡ done_at_of scene.now step }
{
    if step == scene.steps {
        Some(Last::Done { step })
    } else {
        None
    }
}

/// Writes what is written where a run reaches its state: the frame, where it is due, and behind that of the last the end row.
pub fn write_reached<K: Sink>(out: &mut K, run: &Dyn) -> Result<(), WriteFault>
    requires { kept_of run.now.contacts.list.pairs run.now.contacts.entries ≡ run.now.state.held }
    ensures count { Counts (K.faults out.old) (K.faults out.new) result }
    ensures written { PutAppends (K.held out.old) (K.held out.new) result (reached_text run.now.scene run.now.state) }
{
    write_due(out, run)?;
    match done_at(run.shapes().scene(), run.now()) {
        Some(last) => write_end(out, &last),
        None => Ok(()),
    }
}

// Writes the frame of the state, where it is due.
#[tactic(auto, unfolding(dem_model::specs::Output::due_text))]
fn write_due<K: Sink>(out: &mut K, run: &Dyn) -> Result<(), WriteFault>
    requires { kept_of run.now.contacts.list.pairs run.now.contacts.entries ≡ run.now.state.held }
    ensures count { Counts (K.faults out.old) (K.faults out.new) result }
    ensures written { PutAppends (K.held out.old) (K.held out.new) result (due_text run.now.scene run.now.state) }
{
    if is_due(run.shapes().scene(), run.now()) {
        write_frame(out, run)
    } else {
        Ok(())
    }
}

// Writes the frame of the state.
#[tactic(auto, unfolding(dem_model::specs::Frames::state_text))]
fn write_frame<K: Sink>(out: &mut K, run: &Dyn) -> Result<(), WriteFault>
    requires { kept_of run.now.contacts.list.pairs run.now.contacts.entries ≡ run.now.state.held }
    ensures count { Counts (K.faults out.old) (K.faults out.new) result }
    ensures written { PutAppends (K.held out.old) (K.held out.new) result (state_text run.now.state) }
{
    write_head(out, run.now())?;
    write_bodies(out, run)?;
    write_held(out, run.contacts())
}

// Writes the rows of the clumps.
fn write_bodies<K: Sink>(out: &mut K, run: &Dyn) -> Result<(), WriteFault>
    ensures count { Counts (K.faults out.old) (K.faults out.new) result }
    ensures written { PutAppends (K.held out.old) (K.held out.new) result (clumps_text 0 run.now.state.bodies) }
{
    let _step = run.now();
    for k in 0..run.shapes().scene().clumps.len() {
        write_clump(out, k as u32, &run.body(k as u32))?;
    }
    Ok(())
}

// Writes the rows of the pairs of which something is held.
fn write_held<K: Sink>(out: &mut K, contacts: &Contacts) -> Result<(), WriteFault>
    ensures count { Counts (K.faults out.old) (K.faults out.new) result }
    ensures written { PutAppends (K.held out.old) (K.held out.new) result (pairs_text (kept_of contacts.now.list.pairs contacts.now.entries)) }
{
    for i in 0..contacts.list().len() {
        write_entry(out, contacts.list().get(i), contacts.held(i))?;
    }
    Ok(())
}

// Writes the row of a pair, where something is held of it.
fn write_entry<K: Sink>(out: &mut K, pair: Pair, entry: Option<Vec3>) -> Result<(), WriteFault>
    ensures count { Counts (K.faults out.old) (K.faults out.new) result }
    ensures written { PutAppends (K.held out.old) (K.held out.new) result (entry_text pair entry) }
{
    match entry {
        Some(h) => write_pair(out, pair, h),
        None => Ok(()),
    }
}

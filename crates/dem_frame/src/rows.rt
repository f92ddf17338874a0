//! The rows by kind.
ghost use Rattle.std.specs.Prelude.{◌≡◌, ◌≤◌, length};
ghost use Rattle.dem_outside.specs.Faults.{Counts};
ghost use Rattle.dem_outside.specs.Known.{PutAppends};
ghost use Rattle.dem_model.specs.Frames.{end_name as end_name_of, head_text, clump_text, pair_text, last_text, taken_text, tests_text};

use crate::row::{WriteFault, put_count, put_row};
use dem_model::{Body, EndKind, Last, Pair, TakenRow};
use dem_num::Vec3;
use dem_outside::Sink;

/// Writes the head of the frame of state `step`.
#[tactic(auto, unfolding(dem_model::specs::Frames::head_text))]
pub fn write_head<K: Sink>(out: &mut K, step: u32) -> Result<(), WriteFault>
    ensures count { Counts (K.faults out.old) (K.faults out.new) result }
    ensures written { PutAppends (K.held out.old) (K.held out.new) result (head_text step) }
{
    put_row(out, b"frame", &[step as i64])
}

/// Writes the row of clump `i`.
pub fn write_clump<K: Sink>(out: &mut K, i: u32, b: &Body) -> Result<(), WriteFault>
    ensures count { Counts (K.faults out.old) (K.faults out.new) result }
    ensures written { PutAppends (K.held out.old) (K.held out.new) result (clump_text i b.now) }
{
    put_clump(out, i, *b)
}

// Puts the row of clump `i`.
#[tactic(auto, unfolding(dem_model::specs::Frames::clump_text))]
fn put_clump<K: Sink>(out: &mut K, i: u32, b: Body) -> Result<(), WriteFault>
    ensures count { Counts (K.faults out.old) (K.faults out.new) result }
    ensures written { PutAppends (K.held out.old) (K.held out.new) result (clump_text i b) }
{
    let Body { p, q, v, w } = b;
    let numbers = [
        i as i64, p.x, p.y, p.z, v.x, v.y, v.z, q.a, q.b, q.c, q.d, w.x, w.y, w.z,
    ];
    put_row(out, b"clump", &numbers)
}

/// Writes the row of a pair that touched, with its displacement.
#[tactic(auto, unfolding(dem_model::specs::Frames::pair_text))]
pub fn write_pair<K: Sink>(out: &mut K, p: Pair, h: Vec3) -> Result<(), WriteFault>
    ensures count { Counts (K.faults out.old) (K.faults out.new) result }
    ensures written { PutAppends (K.held out.old) (K.held out.new) result (pair_text p h) }
{
    put_row(out, b"pair", &[p.a as i64, p.b as i64, h.x, h.y, h.z])
}

/// Writes the end row.
#[tactic(auto, unfolding(dem_model::specs::Frames::last_text))]
pub fn write_end<K: Sink>(out: &mut K, last: &Last) -> Result<(), WriteFault>
    ensures count { Counts (K.faults out.old) (K.faults out.new) result }
    ensures written { PutAppends (K.held out.old) (K.held out.new) result (last_text last.now) }
{
    match *last {
        Last::Done { step } => put_row(out, b"end,done", &[step as i64]),
        Last::Passed(end) => put_row(
            out,
            end_name(end.kind),
            &[end.step as i64, end.clump as i64],
        ),
    }
}

/// Writes the row of a list that was taken into use.
#[tactic(auto, unfolding(dem_model::specs::Frames::taken_text))]
pub fn write_taken<K: Sink>(out: &mut K, row: &TakenRow) -> Result<(), WriteFault>
    ensures count { Counts (K.faults out.old) (K.faults out.new) result }
    ensures written { PutAppends (K.held out.old) (K.held out.new) result (taken_text row.now) }
{
    put_row(
        out,
        b"taken",
        &[row.from as i64, row.at as i64, row.pairs as i64],
    )
}

/// Writes the row of a count of tests.
#[tactic(auto, unfolding(dem_model::specs::Frames::tests_text))]
pub fn write_tests<K: Sink>(out: &mut K, n: u64) -> Result<(), WriteFault>
    ensures count { Counts (K.faults out.old) (K.faults out.new) result }
    ensures written { PutAppends (K.held out.old) (K.held out.new) result (tests_text n) }
{
    put_count(out, b"tests", n)
}

// How an end row names a limit.
fn end_name(kind: EndKind) -> &'static [u8]
    ensures name { result.now ≡ end_name_of kind }
    ensures short { length result.now ≤ 10 }
{
    match kind {
        EndKind::Speed => b"end,speed",
        EndKind::Spin => b"end,spin",
        EndKind::Domain => b"end,domain",
        EndKind::Swing => b"end,swing",
    }
}

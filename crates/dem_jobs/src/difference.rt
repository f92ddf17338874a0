//! What is written of a comparison.
ghost use Rattle.std.specs.Prelude.{◌≡◌, ◌++◌, codes, IfOk};
ghost use Rattle.dem_outside.specs.Faults.{Counts};
ghost use Rattle.dem_outside.specs.Known.{PutAppends};
ghost use Rattle.dem_jobs.specs.Compared.{shown, differs_text, verdict_text, verdict_outcome};

use crate::outcome::Outcome;
use arrayvec::ArrayVec;
use dem_check::{Line, Verdict};
use dem_outside::{Failed, Sink};
use itoa::Buffer;

/// The longest line of a difference has 29 bytes: `differs,`, a number of 20, and a newline.
const DIFFERS_ROOM: usize = 32;

/// Writes a verdict, and answers how the job ended.
pub(crate) fn write_verdict<K: Sink>(out: &mut K, verdict: &Verdict) -> Result<Outcome, Failed>
    ensures outcome { IfOk result (λ o. o ≡ verdict_outcome verdict.now) }
    ensures count { Counts (K.faults out.old) (K.faults out.new) result }
    ensures written { PutAppends (K.held out.old) (K.held out.new) result (verdict_text verdict.now) }
{
    match verdict {
        Verdict::Same => {
            out.put(b"same\n")?;
            Ok(Outcome::Reached)
        }
        Verdict::Differs { row, kept, found } => {
            write_difference(out, *row, kept, found)?;
            Ok(Outcome::Differs)
        }
    }
}

// Writes the number of a row that differs, and what each side has there.
fn write_difference<K: Sink>(
    out: &mut K,
    row: u64,
    kept: &Option<Line>,
    found: &Option<Line>,
) -> Result<(), Failed>
    ensures count { Counts (K.faults out.old) (K.faults out.new) result }
    ensures written { PutAppends (K.held out.old) (K.held out.new) result (differs_text row ++ (shown (codes "kept") kept.now ++ shown (codes "found") found.now)) }
{
    out.put(differs_line(row).as_slice())?;
    write_rows(out, kept, found)
}

// Writes what each side has.
fn write_rows<K: Sink>(out: &mut K, kept: &Option<Line>, found: &Option<Line>) -> Result<(), Failed>
    ensures count { Counts (K.faults out.old) (K.faults out.new) result }
    ensures written { PutAppends (K.held out.old) (K.held out.new) result (shown (codes "kept") kept.now ++ shown (codes "found") found.now) }
{
    write_row(out, b"kept", kept)?;
    write_row(out, b"found", found)
}

// Writes a row behind its name, or the name alone.
#[tactic(auto, unfolding(crate::specs::Compared::shown))]
fn write_row<K: Sink>(out: &mut K, name: &[u8], row: &Option<Line>) -> Result<(), Failed>
    ensures count { Counts (K.faults out.old) (K.faults out.new) result }
    ensures written { PutAppends (K.held out.old) (K.held out.new) result (shown name.now row.now) }
{
    match row {
        Some(line) => write_named(out, name, line.text.as_slice()),
        None => write_line(out, name),
    }
}

// Writes a name, and a text behind it.
fn write_named<K: Sink>(out: &mut K, name: &[u8], text: &[u8]) -> Result<(), Failed>
    ensures count { Counts (K.faults out.old) (K.faults out.new) result }
    ensures written { PutAppends (K.held out.old) (K.held out.new) result (name.now ++ (codes "," ++ (text.now ++ codes "\n"))) }
{
    out.put(name)?;
    write_behind(out, text)
}

// Writes a text behind a comma.
fn write_behind<K: Sink>(out: &mut K, text: &[u8]) -> Result<(), Failed>
    ensures count { Counts (K.faults out.old) (K.faults out.new) result }
    ensures written { PutAppends (K.held out.old) (K.held out.new) result (codes "," ++ (text.now ++ codes "\n")) }
{
    out.put(b",")?;
    write_line(out, text)
}

/// Writes a text and a newline.
pub(crate) fn write_line<K: Sink>(out: &mut K, text: &[u8]) -> Result<(), Failed>
    ensures count { Counts (K.faults out.old) (K.faults out.new) result }
    ensures written { PutAppends (K.held out.old) (K.held out.new) result (text.now ++ codes "\n") }
{
    out.put(text)?;
    out.put(b"\n")
}

// The line with the number of the row that differs.
#[tactic(auto, unfolding(crate::specs::Compared::differs_text))]
fn differs_line(row: u64) -> ArrayVec<u8, DIFFERS_ROOM>
    ensures { result.items ≡ differs_text row }
{
    let mut digits = Buffer::new();
    let mut line = ArrayVec::new();
    line.try_extend_from_slice(b"differs,").unwrap();
    line.try_extend_from_slice(digits.format(row).as_bytes())
        .unwrap();
    line.try_extend_from_slice(b"\n").unwrap();
    line
}

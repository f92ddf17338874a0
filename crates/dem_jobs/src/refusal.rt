//! Why words or an input are refused, and the line of each refusal.
ghost use Rattle.std.specs.Prelude.{◌≡◌, ◌≤◌, length};
ghost use Rattle.dem_outside.specs.Change.{change};
ghost use Rattle.dem_jobs.specs.Verdicts.{bin_text, numbered};
ghost use Rattle.dem_jobs.specs.Packed.{pack_text};
ghost use Rattle.dem_jobs.specs.Resumed.{save_text};
ghost use Rattle.dem_jobs.specs.Refusals.{refusal_text, refusal_status as refusal_status_of};
ghost use Rattle.dem_jobs.specs.Parts.{PutsLine};

use crate::status::WRITE_FAILED;
use arrayvec::ArrayVec;
use dem_outside::{Failed, Sink};
use dem_pack::PackFault;
use dem_save::SaveFault;
use dem_scene::{SceneFault, fault_line};
use itoa::Buffer;

/// Why words or an input are refused.
#[derive(Clone, Copy, PartialEq, Debug)]
pub enum Refusal {
    /// The words are no good.
    Usage,
    /// The scene text is refused.
    Scene(SceneFault),
    /// The bins are so small that a sphere might meet this many cells on an axis.
    Bin(u64),
    /// The input is longer than it may be.
    TooLong,
    /// The line between a scene and its rows is missing.
    NoFrames,
    /// The line between a scene and the row of a packing is missing.
    NoPack,
    /// The row of a packing is none.
    NoRow,
    /// The packing is refused.
    Pack(PackFault),
    /// The line between a scene and the frame to go on from is missing.
    NoFrame,
    /// The frame to go on from is refused.
    Frame(SaveFault),
}

const USAGE: &[u8] =
    b"usage: dem MODE [--drift N] [--bin N] [--turns T] [--seed N] [--count N] [--report] [--split]\n";

const TOO_LONG: &[u8] = b"input: longer than 268435456 bytes\n";

const NO_FRAMES: &[u8] = b"frames: missing\n";

const NO_PACK: &[u8] = b"pack: missing\n";

const NO_ROW: &[u8] = b"pack: row\n";

const NO_FRAME: &[u8] = b"frame: missing\n";

/// The longest line of a refused bin has 41 bytes: `bin: `, a number of 20, ` cells, limit 8` and a newline.
const BIN_ROOM: usize = 48;

// The line of bins that are too small.
#[tactic(auto, unfolding(crate::specs::Verdicts::bin_text))]
fn bin_line(cells: u64) -> ArrayVec<u8, BIN_ROOM>
    ensures { result.items ≡ bin_text cells }
{
    let mut digits = Buffer::new();
    let mut line = ArrayVec::new();
    line.try_extend_from_slice(b"bin: ").unwrap();
    line.try_extend_from_slice(digits.format(cells).as_bytes())
        .unwrap();
    line.try_extend_from_slice(b" cells, limit 8\n").unwrap();
    line
}

/// The longest line that ends with a number has 26 bytes: `frame: bad row `, a number of 10 and a newline.
const NUMBERED_ROOM: usize = 32;

// The line of this name that ends with a number.
#[tactic(auto, unfolding(crate::specs::Verdicts::numbered))]
fn numbered_line(name: &[u8], number: u32) -> ArrayVec<u8, NUMBERED_ROOM>
    requires { length name.now ≤ 16 }
    ensures { result.items ≡ numbered name.now number }
{
    let mut digits = Buffer::new();
    let mut line = ArrayVec::new();
    line.try_extend_from_slice(name).unwrap();
    line.try_extend_from_slice(digits.format(number).as_bytes())
        .unwrap();
    line.try_extend_from_slice(b"\n").unwrap();
    line
}

/// The status of a refusal.
pub(crate) fn refusal_status(refusal: Refusal) -> u8
    ensures { result ≡ refusal_status_of refusal }
{
    match refusal {
        Refusal::Usage => 1,
        Refusal::Scene(_) | Refusal::Bin(_) | Refusal::TooLong | Refusal::NoFrames => 2,
        Refusal::NoPack | Refusal::NoRow | Refusal::Pack(_) => 2,
        Refusal::NoFrame | Refusal::Frame(_) => 2,
    }
}

/// Puts the line of a refusal and gives its status, or that of a put that failed.
pub fn refuse<N: Sink>(refusal: Refusal, note: &mut N) -> u8
    ensures { PutsLine (refusal_status_of refusal) (refusal_text refusal) (change N.held N.faults note.old note.new) result }
{
    let status = refusal_status(refusal);
    match refusal {
        Refusal::Usage => put_line(USAGE, status, note),
        Refusal::Scene(fault) => put_line(fault_line(fault).as_slice(), status, note),
        Refusal::Bin(cells) => put_line(bin_line(cells).as_slice(), status, note),
        Refusal::TooLong => put_line(TOO_LONG, status, note),
        Refusal::NoFrames => put_line(NO_FRAMES, status, note),
        Refusal::NoPack => put_line(NO_PACK, status, note),
        Refusal::NoRow => put_line(NO_ROW, status, note),
        Refusal::Pack(fault) => refuse_packing(fault, status, note),
        Refusal::NoFrame => put_line(NO_FRAME, status, note),
        Refusal::Frame(fault) => refuse_frame(fault, status, note),
    }
}

// Puts the line of a packing that is refused, and gives this status.
fn refuse_packing<N: Sink>(fault: PackFault, status: u8, note: &mut N) -> u8
    ensures { PutsLine status (pack_text fault) (change N.held N.faults note.old note.new) result }
{
    match fault {
        PackFault::Index => put_line(b"pack: index\n", status, note),
        PackFault::Region => put_line(b"pack: region\n", status, note),
        PackFault::Shape => put_line(b"pack: shape\n", status, note),
        PackFault::Spheres => put_line(b"pack: spheres\n", status, note),
        PackFault::Room { cells } => put_numbered(b"pack: room ", cells, status, note),
        PackFault::OutOfMemory => put_line(b"", status, note),
    }
}

// Puts the line of a frame that is refused, and gives this status.
fn refuse_frame<N: Sink>(fault: SaveFault, status: u8, note: &mut N) -> u8
    ensures { PutsLine status (save_text fault) (change N.held N.faults note.old note.new) result }
{
    match fault {
        SaveFault::Bad { row } => put_numbered(b"frame: bad row ", row, status, note),
        SaveFault::Short { rows } => put_numbered(b"frame: short ", rows, status, note),
        SaveFault::Step => put_line(b"frame: step\n", status, note),
        SaveFault::Body { clump } => put_numbered(b"frame: body ", clump, status, note),
        SaveFault::Held { place } => put_numbered(b"frame: held ", place, status, note),
        SaveFault::OutOfMemory => put_line(b"", status, note),
    }
}

// Puts the line of this name that ends with a number.
fn put_numbered<N: Sink>(name: &[u8], number: u32, status: u8, note: &mut N) -> u8
    requires { length name.now ≤ 16 }
    ensures { PutsLine status (numbered name.now number) (change N.held N.faults note.old note.new) result }
{
    put_line(numbered_line(name, number).as_slice(), status, note)
}

/// Puts a line and gives this status, or that of a put that failed.
pub(crate) fn put_line<N: Sink>(line: &[u8], status: u8, note: &mut N) -> u8
    ensures { PutsLine status line.now (change N.held N.faults note.old note.new) result }
{
    match note.put(line) {
        Ok(()) => status,
        Err(Failed) => WRITE_FAILED,
    }
}

//! Where the last row of some bytes begins, and a row without its newline.
ghost use Rattle.std.specs.Prelude.{◌≡◌, ◌≤◌, ◌++◌, length, IfOk};
ghost use Rattle.dem_check.specs.Rows.{line_of};
ghost use Rattle.dem_check.specs.Verdicts.{line_at};
ghost use Rattle.dem_check.specs.Cuts.{IsCut, HasNoNewline};

use crate::bytes::line_len;
use crate::verdict::Line;
use dem_model::{List, OutOfMemory};
use std::alloc::Global;

/// Where a row begins, and how many rows are before it.
#[derive(Clone, Copy)]
pub(crate) struct Cut {
    pub(crate) start: usize,
    pub(crate) rows: usize,
}

/// Where the row begins that isn't ended, and how many rows are before it.
pub(crate) fn last_row(bytes: &[u8]) -> Cut
    ensures cut { IsCut bytes.now result.start result.rows (length bytes.now) }
    ensures few { result.rows ≤ length bytes.now }
{
    let mut start = 0;
    let mut rows = 0;
    for i in 0..bytes.len() {
        if bytes[i] == b'\n' {
            start = i + 1;
            rows += 1;
        }
    }
    Cut { start, rows }
}

/// The first row of two pieces, one behind the other, of which the first has no newline; none where both are empty.
#[tactic(auto, using(crate::proofs::LineFacts::no_row, crate::proofs::LineFacts::one_row))]
pub(crate) fn row(alloc: Global, tail: &[u8], more: &[u8]) -> Result<Option<Line>, OutOfMemory>
    requires { HasNoNewline tail.now }
    ensures { IfOk result (λ row. row ≡ line_at (tail.now ++ more.now) 0) }
{
    if tail.len().saturating_add(more.len()) == 0 {
        return Ok(None);
    }
    Ok(Some(line(alloc, tail, more)?))
}

// The first piece, and what stands before the first newline of the second.
fn line(alloc: Global, tail: &[u8], more: &[u8]) -> Result<Line, OutOfMemory>
    ensures { IfOk result (λ l. l.text ≡ tail.now ++ line_of more.now) }
{
    let mut text = List::new(alloc);
    push_all(&mut text, tail)?;
    push_all(&mut text, &more[..line_len(more)])?;
    Ok(Line { text })
}

// Pushes all bytes.
fn push_all(text: &mut List<u8>, bytes: &[u8]) -> Result<(), OutOfMemory>
    ensures { IfOk result (λ _. text.new ≡ text.old ++ bytes.now) }
{
    for &byte in bytes {
        text.push(byte)?;
    }
    Ok(())
}

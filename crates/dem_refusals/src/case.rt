//! One case: the words of a call, how its source, its sinks and its gate behave, and the text of the source.

ghost use Rattle.std.specs.Prelude.{◌<◌};

use crate::left::Left;
use dem_model::{List, OutOfMemory};
use dem_outside::{Fail, HoldGate, MemSink, MemSource, OpenGate, Point};
use dem_top::main_call;
use std::alloc::Global;
use std::sync::Wait;
use std::thread::Threads;

/// The room of each sink, in bytes.
const ROOM: u32 = 1 << 20;

/// The most bytes of a read.
const MOST: u64 = 4096;

/// What a call's gate does.
#[derive(Clone, Copy)]
pub enum Hold {
    /// All pass at once.
    Open,
    /// The third post is held for the third step, which dynamics makes itself: it waits in vain, and goes on.
    Vain,
    /// The fourth step and the delivery of the second list are held until both are there.
    Meet,
}

/// A call over memory.
#[derive(Clone, Copy)]
pub struct Case<'l> {
    /// The words of the command line, one space between two.
    pub words: &'l str,
    /// How many bytes a read gives at most.
    pub piece: u32,
    /// The number of the read that fails, 0 for none.
    pub read: u64,
    /// The put to the output that fails, of the number 0 for none, and how many bytes it takes before.
    pub put: Fail,
    /// The same of the puts to the notes.
    pub line: Fail,
    /// What the gate does.
    pub hold: Hold,
    /// What the source has, with a bar for each newline.
    pub text: &'l str,
}

impl<'l> Case<'l> {
    /// The case of a line: these seven in order, a bar between two; a put that takes bytes is its number, a plus sign, and how many
    /// it takes; the gate is `open`, `held` in vain, or `met`.
    pub fn of(line: &'l str) -> Option<Case<'l>> {
        let (words, rest) = line.split_once('|')?;
        let (piece, rest) = number(rest)?;
        let (read, rest) = number(rest)?;
        let (put, rest) = fail(rest)?;
        let (line, rest) = fail(rest)?;
        let (gate, text) = rest.split_once('|')?;
        Some(Case {
            words,
            piece: piece.min(MOST) as u32,
            read,
            put,
            line,
            hold: hold_named(gate),
            text,
        })
    }

    /// Makes the call.
    pub fn call<R: Threads + Wait + Sync>(
        &self,
        rt: &R,
        alloc: Global,
    ) -> Result<Left, OutOfMemory> {
        let words = words_of(alloc, self.words)?;
        let mut source = source(alloc, self.text, self.piece.max(1), self.read)?;
        let mut out = sink(alloc, self.put)?;
        let mut note = sink(alloc, self.line)?;
        let words = words.as_slice();
        let (status, met) = match self.hold {
            Hold::Open => {
                let gate = OpenGate;
                let status = main_call(rt, alloc, words, &mut source, &mut out, &mut note, &gate);
                (status, None)
            }
            Hold::Vain => {
                let gate = HoldGate::meet(Point::Post, 3, Point::Step, 3);
                held_call(rt, alloc, words, &mut source, &mut out, &mut note, &gate)
            }
            Hold::Meet => {
                let gate = HoldGate::meet(Point::Step, 4, Point::Deliver, 2);
                held_call(rt, alloc, words, &mut source, &mut out, &mut note, &gate)
            }
        };
        Ok(Left {
            status,
            out,
            note,
            met,
        })
    }
}

// The call through a gate that holds: its status, and whether both actions met there and none waited in vain.
fn held_call<R: Threads + Wait + Sync>(
    rt: &R,
    alloc: Global,
    words: &[String],
    source: &mut MemSource,
    out: &mut MemSink,
    note: &mut MemSink,
    gate: &HoldGate,
) -> (u8, Option<bool>) {
    let status = main_call(rt, alloc, words, source, out, note, gate);
    (status, Some(gate.arrived() && !gate.gave_up()))
}

// What a gate of this name does.
fn hold_named(gate: &str) -> Hold {
    match gate {
        "held" => Hold::Vain,
        "met" => Hold::Meet,
        _ => Hold::Open,
    }
}

// The number before the next bar, and what stands behind that.
fn number(text: &str) -> Option<(u64, &str)> {
    let (digits, rest) = text.split_once('|')?;
    match digits.parse::<u64>() {
        Ok(number) => Some((number, rest)),
        Err(_) => None,
    }
}

// The put before the next bar that fails, and what stands behind that.
fn fail(text: &str) -> Option<(Fail, &str)> {
    let (put, rest) = text.split_once('|')?;
    let (call, take) = put.split_once('+').unwrap_or((put, "0"));
    match (call.parse::<u64>(), take.parse::<u32>()) {
        (Ok(call), Ok(take)) => Some((Fail { call, take }, rest)),
        _ => None,
    }
}

// The words of a line.
fn words_of(alloc: Global, line: &str) -> Result<Vec<String>, OutOfMemory> {
    let mut words = Vec::new(alloc);
    for word in line.split(' ') {
        let Ok(word) = String::from_str(alloc, word) else {
            return Err(OutOfMemory);
        };
        if words.push(word).is_err() {
            return Err(OutOfMemory);
        }
    }
    Ok(words)
}

// A source of this text, of which this read fails.
fn source(alloc: Global, text: &str, piece: u32, read: u64) -> Result<MemSource, OutOfMemory>
    requires { 0 < piece }
{
    let bytes = bytes_of(alloc, text)?;
    let mut fails = List::new(alloc);
    fails.push(read)?;
    Ok(MemSource::new(bytes, piece, fails))
}

// The bytes of a text, with a newline for each bar.
fn bytes_of(alloc: Global, text: &str) -> Result<Vec<u8>, OutOfMemory> {
    let mut bytes = Vec::new(alloc);
    for &byte in text.as_bytes() {
        let byte = if byte == b'|' { b'\n' } else { byte };
        if bytes.push(byte).is_err() {
            return Err(OutOfMemory);
        }
    }
    Ok(bytes)
}

// A sink of which this put fails.
fn sink(alloc: Global, put: Fail) -> Result<MemSink, OutOfMemory> {
    let mut fails = List::new(alloc);
    fails.push(put)?;
    MemSink::new(alloc, ROOM, fails)
}

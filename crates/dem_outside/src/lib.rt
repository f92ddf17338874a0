//! The outside of the program: where its bytes come from, where its text goes, and what may fail there.
//!
//! `Gate` is what the two threads of a run pass before each action; `OpenGate` lets them pass and `HoldGate` lets two actions meet.
//! `Source` and `Sink` are the two traits of its streams; each counts its faults. `MemSource` and `MemSink` are fakes over memory that
//! fail where they are told to, `BlankSink` takes everything and keeps nothing, `RealSource` and `RealSink` stand over
//! std's readers and writers. Callers rest on: a failed read takes nothing, a failed put appends a prefix of its piece,
//! and a count rises in exactly the calls that answer Failed. Takes memory: `MemSink::new`. Not here: the rows (dem_frame).
#![tactic(auto)]

mod blank_sink;
mod failed;
mod gate;
mod hold_gate;
mod mem_sink;
mod mem_source;
mod real_sink;
mod real_source;
mod sink;
mod source;

pub use blank_sink::BlankSink;
pub use failed::Failed;
pub use gate::{Gate, OpenGate, Point};
pub use hold_gate::HoldGate;
pub use mem_sink::{Fail, MemSink};
pub use mem_source::MemSource;
pub use real_sink::RealSink;
pub use real_source::RealSource;
pub use sink::Sink;
pub use source::Source;

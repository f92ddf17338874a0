//! The program over a reader and two writers of std: the output is buffered, and passed on before the end.
ghost use Rattle.std.specs.Prelude.{◌≡◌, ◌⊎◌, [], IfSome, None};
ghost use Rattle.std.specs.Io.KnownBytes.{Keeps, append_known};
ghost use Rattle.std.specs.Io.Buffered.{writer_contents};
ghost use Rattle.dem_words.specs.Meaning.{words_of};
ghost use Rattle.dem_jobs.specs.Jobs.{job_meant};
ghost use Rattle.dem_top.specs.Streams.{passed, Serves};

use crate::top::main_call;
use dem_jobs::{OUT_OF_MEMORY, WRITE_FAILED};
use dem_outside::{Gate, RealSink, RealSource};
use std::alloc::Global;
use std::io::{BufWriter, Read, Write};
use std::sync::Wait;
use std::thread::Threads;

/// Two writers that a call is done with.
#[derive(Drop)]
pub struct Writers<W, E> {
    pub output: W,
    pub errors: E,
}

/// What a call over streams leaves.
#[derive(Drop)]
pub struct Served<W, E> {
    pub status: u8,
    /// None where there was no memory for the buffer of the output.
    pub writers: Option<Writers<W, E>>,
}

/// The top call over these streams; what the buffer of the output still holds is passed on at the end, and a failure there counts as one of a put.
pub fn stream_call<
    H: Threads + Wait + Sync,
    R: Read + Drop,
    W: Write + Drop,
    E: Write + Drop,
    G: Gate,
>(rt: &H, alloc: Global, words: &[String], input: R, output: W, errors: E, gate: &G) -> Served<W, E>
    ensures serves { IfSome result.writers (λ w. Serves (job_meant (words_of words.now)) (R.remaining input) (passed (W.contents output) (W.contents w.output))
        (passed (E.contents errors) (E.contents w.errors)) result.status) }
    ensures no_buffer { result.writers ≡ None → result.status ≡ 6 }
{
    let Ok(buffer) = BufWriter::new(alloc, output) else {
        return Served {
            status: OUT_OF_MEMORY,
            writers: None,
        };
    };
    let mut source = RealSource::new(input);
    let mut out = RealSink::new(buffer);
    let mut note = RealSink::new(errors);
    let answer = main_call(rt, alloc, words, &mut source, &mut out, &mut note, gate);
    let (status, output, _rest) = pass_on(out.into_writer(), answer);
    let errors = note.into_writer();
    Served {
        status,
        writers: Some(Writers { output, errors }),
    }
}

// Passes on what the buffer holds: this status, or that of a put that failed, the writer, and what didn't reach it.
fn pass_on<W: Write + Drop>(mut buffer: BufWriter<W>, status: u8) -> (u8, W, Vec<u8>)
    ensures passed { Keeps (writer_contents W.contents buffer) (append_known (W.contents result.1) result.2.items) }
    ensures whole { (result.0 ≡ 5) ⊎ ((result.0 ≡ status) × (result.2.items ≡ [])) }
{
    let status = match buffer.flush() {
        Ok(()) => status,
        Err(_) => WRITE_FAILED,
    };
    let (writer, rest) = buffer.into_parts();
    (status, writer, rest)
}

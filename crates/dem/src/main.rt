//! The program `dem`: the top call over the arguments and the streams of the process.
//!
//! The words are the arguments, the source is standard input, `out` is standard output, buffered, `note` is standard error,
//! and the gate is open. The process ends with the call's status. Not here: anything that the call does (dem_top).
#![tactic(auto)]

use dem_model::OutOfMemory;
use dem_outside::OpenGate;
use dem_top::stream_call;
use std::env;
use std::io::ErrorKind;
use std::process::ExitCode;
use std::rt::Env;

/// The status where there is no memory.
const OUT_OF_MEMORY: u8 = 6;

fn main(rt: HostRuntime) -> ExitCode {
    let status = match read_words(&rt) {
        Ok(words) => {
            stream_call(
                &rt,
                rt.alloc(),
                words.as_slice(),
                rt.stdin(),
                rt.stdout(),
                rt.stderr(),
                &OpenGate,
            )
            .status
        }
        Err(OutOfMemory) => OUT_OF_MEMORY,
    };
    ExitCode::from(status)
}

// The arguments. Where one isn't UTF-8 there are none, which is a faulty command line too.
fn read_words(rt: &(impl Env + AllocGlobal)) -> Result<Vec<String>, OutOfMemory> {
    match env::args(rt) {
        Ok(words) => words.collect(rt.alloc()).map_err(|_| OutOfMemory),
        Err(e) if e.kind() == ErrorKind::OutOfMemory => Err(OutOfMemory),
        Err(_) => Ok(Vec::new(rt.alloc())),
    }
}

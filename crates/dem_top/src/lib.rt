//! The top call: the words of a command line, a source and two sinks, and the status.
//!
//! `quiet_call` does what an order asks for, over any source and sinks; `main_call` reads the words and does the same;
//! `stream_call` is `main_call` over std's streams. Means: `Verdicts` and `Jobs` of dem_jobs, what each input of a job comes to.
//! Callers rest on `Answers` and `Serves`: a status that an input comes to comes with its whole text and nothing else, each
//! other status with its cause, and with prefixes; and on `resume_law`: what `resume` makes of a frame of a scene's output.
//! Takes memory: all calls but the law; may wait: `main_call` and `stream_call`. Not here: the words (dem_words), the jobs that
//! need no second thread (dem_jobs), the run by two threads itself (dem_crew).
#![tactic(auto)]

mod run;
mod streams;
mod threads;
mod top;

pub use dem_jobs::resume_law;
pub use streams::{Served, Writers, stream_call};
pub use top::{main_call, quiet_call};

//! The jobs of the program that need no second thread, and what a job comes to.
//!
//! `carry_out` does what an order of another mode than `run` asks for, over any source and sinks; `tell` puts the line of what a
//! job came to and gives its status. Means: `Verdicts` and `Jobs`, what each input of a job comes to. Callers rest on `Does` and
//! `Tells`, which `AnswerFacts` puts together to `Answers`; and on `resume_law`: what `resume` makes of a frame of a scene's
//! output. Takes memory: `carry_out` and `read_one_scene`. Not here: the words (dem_words), the run by two threads and the
//! top call (dem_top), the runs (dem_output, dem_core, dem_save), what is seen of them (dem_look), the packings (dem_pack).
#![tactic(auto)]

mod comparison;
mod difference;
mod looking;
mod made;
mod made_rows;
mod mark;
mod outcome;
mod packing;
mod plain;
mod quiet;
mod reading;
mod refusal;
mod resuming;
mod sched;
mod status;
mod summary;
mod turns;

pub use outcome::{NotDone, Outcome, tell};
pub use quiet::carry_out;
pub use reading::read_one_scene;
pub use refusal::{Refusal, refuse};
pub use resuming::resume_law;
pub use status::{OUT_OF_MEMORY, WRITE_FAILED};

//! The words of the command line, read by one simple command of `clap` and by the readers of its values.
//!
//! `read_words` gives the order that the words have, or says that they are no good. Means: `words_of` of specs, over what the
//! command makes of the words. Callers rest on: Ok has that very order, Usage comes exactly where there is none; each order
//! is within its ranges. Takes memory: `read_words`. Not here: what a mode does (dem_top).
#![tactic(auto)]

mod command;
mod order;
mod parsed;
mod value;
mod words;

pub use order::{Mode, Order, WordFault};
pub use words::read_words;

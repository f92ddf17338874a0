//! The reading of the words.
ghost use Rattle.clap.specs.Words.{found_of, rows_of};
ghost use Rattle.dem_words.specs.Meaning.{Reads, order_of, words_of};

use crate::command::parse;
use crate::order::{MAX_BIN, MAX_COUNT, MAX_DRIFT, Order, WordFault};
use crate::parsed::{has_flag, mode_at, number_at, turns_at};
use clap::ArgMatches;
use std::alloc::Global;

/// The order of the words of a command line, of which the first is the program's name and isn't read.
///
/// The words are a mode, the options `--drift`, `--bin`, `--turns`, `--seed` and `--count` with one value each, and the flags
/// `--report` and `--split`, in any order and each at most once. A number is one or more digits. What isn't given has its default: drift 20,
/// bin 0, no turns, seed 1, count 100. Words that the command refuses, help asked for and a value that is wrong are Usage.
#[tactic(auto, unfolding(crate::specs::Meaning::words_of))]
pub fn read_words(alloc: Global, words: &[String]) -> Result<Order, WordFault>
    ensures { Reads (words_of words.now) result }
{
    let matches = parse(alloc, words)?;
    order_from(alloc, &matches)
}

// The order of what the command matched.
#[tactic(auto, unfolding(crate::specs::Meaning::order_of))]
fn order_from(alloc: Global, matches: &ArgMatches) -> Result<Order, WordFault>
    ensures { Reads (order_of (rows_of (found_of matches.now))) result }
{
    let mode = mode_at(matches, "mode")?;
    let drift = number_at(matches, "drift", 0, MAX_DRIFT, 20)?;
    let bin = number_at(matches, "bin", 0, MAX_BIN, 0)?;
    let turns = turns_at(alloc, matches, "turns")?;
    let seed = number_at(matches, "seed", 0, u64::MAX, 1)?;
    let count = number_at(matches, "count", 1, MAX_COUNT, 100)?;
    Ok(Order {
        mode,
        drift: drift as u32,
        bin,
        turns,
        seed,
        count: count as u32,
        report: has_flag(matches, "report"),
        split: has_flag(matches, "split"),
    })
}

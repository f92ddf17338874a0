//! What is read of the command's matches: a mode, numbers, turns, flags.
ghost use Rattle.std.specs.Prelude.{◌≡◌, ◌≤◌, IfOk};
ghost use Rattle.clap.specs.Words.{found_of, rows_of};
ghost use Rattle.dem_words.specs.CommandLine.{has_flag as has_flag_of};
ghost use Rattle.dem_words.specs.Meaning.{Reads};
ghost use Rattle.dem_words.specs.Values.{mode_at as mode_of, number_at as number_of, turns_at as turns_of};

use crate::order::{Mode, WordFault};
use crate::value::{mode_from, number_from, turns_from};
use clap::ArgMatches;
use dem_model::{List, Turn};
use std::alloc::Global;

/// The mode that is named.
#[tactic(auto, using(crate::proofs::MatchFacts::first_value_is), unfolding(crate::specs::Values::mode_at))]
pub(crate) fn mode_at(matches: &ArgMatches, name: &str) -> Result<Mode, WordFault>
    ensures { Reads (mode_of name.now (rows_of (found_of matches.now))) result }
{
    match matches.get_str(name) {
        Some(text) => mode_from(text).ok_or(WordFault::Usage),
        None => Err(WordFault::Usage),
    }
}

/// The number of an option, from `low` to `high`, and the default where it isn't given.
#[tactic(auto, using(crate::proofs::MatchFacts::first_value_is), unfolding(crate::specs::Values::number_at))]
pub(crate) fn number_at(
    matches: &ArgMatches,
    name: &str,
    low: u64,
    high: u64,
    default: u64,
) -> Result<u64, WordFault>
    requires low { low ≤ default }
    requires high { default ≤ high }
    ensures value { Reads (number_of name.now low high default (rows_of (found_of matches.now))) result }
    ensures low { IfOk result (λ n. low ≤ n) }
    ensures high { IfOk result (λ n. n ≤ high) }
{
    match matches.get_str(name) {
        Some(text) => number_from(low, high, text).ok_or(WordFault::Usage),
        None => Ok(default),
    }
}

/// The turns of an option, and none where it isn't given.
#[tactic(auto, using(crate::proofs::MatchFacts::first_value_is), unfolding(crate::specs::Values::turns_at))]
pub(crate) fn turns_at(
    alloc: Global,
    matches: &ArgMatches,
    name: &str,
) -> Result<List<Turn>, WordFault>
    ensures { Reads (turns_of name.now (rows_of (found_of matches.now))) result }
{
    match matches.get_str(name) {
        Some(letters) => turns_from(alloc, letters),
        None => Ok(List::new(alloc)),
    }
}

/// Whether a flag is given.
#[tactic(auto, using(crate::proofs::MatchFacts::first_value_is), unfolding(crate::specs::CommandLine::has_flag))]
pub(crate) fn has_flag(matches: &ArgMatches, name: &str) -> bool
    ensures { result ≡ has_flag_of name.now (rows_of (found_of matches.now)) }
{
    match matches.get_str(name) {
        Some(text) => text == "true",
        None => false,
    }
}

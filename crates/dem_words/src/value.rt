//! The readers of values: numbers, turns, modes.
ghost use Rattle.std.specs.Prelude.{◌≡◌, ◌≤◌, ℕ, IfSome};
ghost use Rattle.dem_words.specs.Meaning.{Reads};
ghost use Rattle.dem_words.specs.Values.{is_numeral as is_numeral_of, mode_from as mode_of};
ghost use Rattle.dem_words.specs.Values.{number_from as number_of, turn_from as turn_of, turns_from as turns_of};

use crate::order::{Mode, WordFault};
use dem_model::{List, Turn};
use std::alloc::Global;

/// The number that a text of digits writes, where it is one from `low` to `high`.
#[tactic(auto, unfolding(crate::specs::Values::number_from))]
pub(crate) fn number_from(low: u64, high: u64, text: &str) -> Option<u64>
    ensures value { result ≡ number_of low high text.now }
    ensures low { IfSome result (λ n. low ≤ n) }
    ensures high { IfSome result (λ n. n ≤ high) }
{
    if !is_numeral(text.as_bytes()) {
        return None;
    }
    match text.parse::<u64>() {
        Ok(n) if low <= n && n <= high => Some(n),
        _ => None,
    }
}

// Whether a text is one or more digits, and nothing else.
fn is_numeral(text: &[u8]) -> bool
    ensures { result ≡ is_numeral_of text.now }
{
    !text.is_empty() && text.iter().all(|c| c.is_ascii_digit())
}

/// The turns of the letters, in their order.
pub(crate) fn turns_from(alloc: Global, letters: &str) -> Result<List<Turn>, WordFault>
    ensures { Reads (turns_of letters.now) result }
{
    let mut turns = List::new(alloc);
    for &letter in letters.as_bytes() {
        match turn_from(letter) {
            Some(turn) => turns.push(turn)?,
            None => return Err(WordFault::Usage),
        }
    }
    Ok(turns)
}

// The turn of a letter.
#[tactic(auto, unfolding(crate::specs::Values::turn_from))]
fn turn_from(letter: u8) -> Option<Turn>
    ensures { result ≡ turn_of letter }
{
    match letter {
        b'p' => Some(Turn::Post),
        b't' => Some(Turn::Take),
        b'd' => Some(Turn::Deliver),
        b'c' => Some(Turn::Collect),
        b's' => Some(Turn::Step),
        _ => None,
    }
}

/// The mode of a name.
#[tactic(auto, unfolding(crate::specs::Values::mode_from))]
pub(crate) fn mode_from(text: &str) -> Option<Mode>
    ensures { result ≡ mode_of text.now }
{
    match text {
        "plain" => Some(Mode::Plain),
        "sched" => Some(Mode::Sched),
        "run" => Some(Mode::Run),
        "check" => Some(Mode::Check),
        "gen" => Some(Mode::Gen),
        "resume" => Some(Mode::Resume),
        "look" => Some(Mode::Look),
        "pack" => Some(Mode::Pack),
        _ => None,
    }
}

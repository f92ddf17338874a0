//! The words that a made scene is drawn from.
ghost use Rattle.std.specs.Prelude.{◌≡◌};
ghost use Rattle.dem_model.specs.Made.{state_after, word_of};

use rand_core::utils::NextWord;
use rand_xoshiro::SplitMix64;

/// The next word.
#[tactic(auto, unfolding(dem_model::specs::Made::word_of, dem_model::specs::Made::state_after))]
pub(crate) fn draw(words: &mut SplitMix64) -> u64
    ensures word { result ≡ word_of words.old 0 }
    ensures after { words.new ≡ state_after words.old 1 }
{
    words.next_word()
}

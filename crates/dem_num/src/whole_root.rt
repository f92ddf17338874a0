//! The whole root of a number: a guess and a test.

ghost use Rattle.std.specs.Prelude.{◌≡◌, ◌+◌, ◌*◌, ◌<◌, ◌≤◌};
ghost use Rattle.dem_num.specs.Numbers.{IsRoot, root_of};

use crate::guess::{long_guess, short_guess, square};

/// The numbers below this one have a root of so few bits that the short guess finds it.
const SHORT: u128 = 1 << 62;

/// The roots below this one have a square of 64 bits.
const NARROW: u64 = 1 << 32;

/// The greatest number whose square is at most `x`.
#[tactic(auto, using(crate::proofs::RootFacts::root_of_from_is_root))]
pub fn root(x: u128) -> u64
    ensures is_root { IsRoot x result }
    ensures value { result ≡ root_of x }
{
    if x < SHORT {
        tested_short(x as u64, short_guess(x as u64))
    } else {
        tested(x, long_guess(x))
    }
}

/// The root of a number of 64 bits: quickly where the guess is the root or one less, and its square fits them too.
fn tested_short(x: u64, guess: u64) -> u64
    ensures { IsRoot x result }
{
    if guess < NARROW {
        let square = guess * guess;
        let double = 2 * guess;
        if square <= x {
            let rest = x - square;
            if rest <= double {
                return guess;
            }
            if rest - double <= double + 3 {
                return guess + 1;
            }
        }
    }
    found_slowly(x as u128)
}

/// The root: quickly where the guess is the root or one less.
fn tested(x: u128, guess: u64) -> u64
    ensures { IsRoot x result }
{
    let square = square(guess);
    let twice = 2 * guess as u128;
    if square <= x {
        let rest = x - square;
        if rest <= twice {
            return guess;
        }
        if rest - twice <= twice + 3 {
            return guess + 1;
        }
    }
    found_slowly(x)
}

/// The root, whatever was guessed.
#[cold]
#[inline(never)]
fn found_slowly(x: u128) -> u64
    ensures { IsRoot x result }
{
    x.isqrt() as u64
}

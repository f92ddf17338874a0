//! Quotients of whole numbers without sign: a guess by the divisor's reciprocal, and a test.

ghost use Rattle.std.specs.Prelude.{◌≡◌, ◌*◌, ◌/◌, ◌^◌, ◌<◌};

use crate::guess::high;
use crate::starts::start;

/// About 2^127 over a divisor, of which the leading zeros are cut. Nothing rests on it: what is guessed by it is tested.
pub fn reciprocal(whole: u64) -> u64 {
    let scaled = whole << (whole.leading_zeros() & 63);
    let root = start(scaled);
    let rough = root.wrapping_mul(root) << 3;
    refined(scaled, refined(scaled, rough))
}

/// One step of Newton. The small number taken away is to keep it below, in spite of the rounding.
fn refined(scaled: u64, reciprocal: u64) -> u64 {
    let share = 0u64.wrapping_sub(high(scaled, reciprocal));
    high(reciprocal, share.wrapping_sub(4)) << 1
}

/// The quotient of a number of up to 127 bits, where it fits 63 bits.
pub(crate) fn short_quotient(x: u128, y: u64) -> u64
    requires some { 0 < y }
    requires fits { x / y < 2 ^ 63 }
    ensures { result ≡ x / y }
{
    if x <= u64::MAX as u128 {
        x as u64 / y
    } else {
        near_quotient(x, y, guessed(x, y))
    }
}

/// About the quotient, where it fits 63 bits and the number doesn't fit 64.
fn guessed(x: u128, y: u64) -> u64 {
    let cut = x.leading_zeros() & 63;
    let top = ((x << cut) >> 64) as u64;
    let shift = cut.saturating_sub(y.leading_zeros()).saturating_sub(1);
    high(top, reciprocal(y)) >> (shift & 63)
}

/// The quotient: quickly where the guess is the quotient or one less.
#[tactic(auto, using(crate::proofs::QuotientFacts::quotient_is, crate::proofs::QuotientFacts::quotient_is_next))]
pub(crate) fn near_quotient(x: u128, y: u64, guess: u64) -> u64
    requires some { 0 < y }
    requires fits { x / y < 2 ^ 64 }
    ensures { result ≡ x / y }
{
    let y = y as u128;
    let part = guess as u128 * y;
    if part <= x {
        let rest = x - part;
        if rest < y {
            return guess;
        }
        if rest - y < y {
            return guess + 1;
        }
    }
    (x / y) as u64
}

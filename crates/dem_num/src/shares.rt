//! Shares of one whole, times 2^30: a guess by the whole's reciprocal, and a test.

ghost use Rattle.std.specs.Prelude.{◌≡◌, pos, ◌+◌, ◌*◌, ◌/◌, ◌^◌, ◌<◌, ◌≤◌, ◌*ℤ◌, unsigned_abs, true};
ghost use Rattle.dem_num.specs.Numbers.{AtMost, quotient};

use crate::dividing::near_quotient;
use crate::guess::high;

/// Half of what 64 bits hold.
const HALF: u64 = 1 << 63;

/// What a divisor of 64 bits and its reciprocal come to together.
const ONE: u128 = 1 << 127;

/// How far below that a near reciprocal's product may be.
const SLACK: u128 = 1 << 97;

/// The share of a part in a whole, times 2^30, rounded toward zero. The reciprocal only makes it quick.
#[tactic(auto, unfolding(crate::specs::Numbers::quotient))]
pub fn share(part: i128, whole: u64, reciprocal: u64) -> i64
    requires some { 0 < whole }
    requires part { AtMost part whole }
    ensures value { result ≡ quotient (pos (2 ^ 30) *ℤ part) (pos whole) }
    ensures size { unsigned_abs result ≡ 2 ^ 30 * unsigned_abs part / whole }
    ensures bound { AtMost result (2 ^ 30) }
{
    let size = size_share(part.unsigned_abs() as u64, whole, reciprocal);
    if part < 0 {
        -(size as i64)
    } else {
        size as i64
    }
}

/// The share of a part that has no sign: quickly where the reciprocal is near.
fn size_share(part: u64, whole: u64, reciprocal: u64) -> u64
    requires some { 0 < whole }
    requires part { part ≤ whole }
    ensures value { result ≡ 2 ^ 30 * part / whole }
    ensures bound { result ≤ 2 ^ 30 }
{
    let scale = scale_of(whole);
    if is_near(whole, scale, reciprocal) {
        near_share(part, whole, scale, reciprocal)
    } else {
        whole_share(part, whole)
    }
}

/// What brings a number to 64 bits. Nothing rests on it.
fn scale_of(whole: u64) -> u64 {
    1 << (whole.leading_zeros() & 63)
}

/// Whether a reciprocal is so near to 2^127 over the whole times the scale, and not above it, that no share by it is off by more than one.
fn is_near(whole: u64, scale: u64, reciprocal: u64) -> bool
    ensures half { result ≡ true → whole ≤ 2 ^ 63 }
    ensures fits { result ≡ true → whole * scale < 2 ^ 64 }
    ensures below { result ≡ true → reciprocal * (whole * scale) ≤ 2 ^ 127 }
    ensures close { result ≡ true → 2 ^ 127 ≤ reciprocal * (whole * scale) + 2 ^ 97 }
{
    let scaled = whole as u128 * scale as u128;
    whole <= HALF && scaled <= u64::MAX as u128 && is_close(reciprocal as u128 * scaled)
}

/// Whether a product of a divisor and its reciprocal is 2^127 or just below.
fn is_close(product: u128) -> bool
    ensures below { result ≡ true → product ≤ 2 ^ 127 }
    ensures close { result ≡ true → 2 ^ 127 ≤ product + 2 ^ 97 }
{
    product <= ONE && product + SLACK >= ONE
}

/// The share by a near reciprocal: what is guessed, or one more.
fn near_share(part: u64, whole: u64, scale: u64, reciprocal: u64) -> u64
    requires some { 0 < whole }
    requires part { part ≤ whole }
    requires half { whole ≤ 2 ^ 63 }
    requires fits { whole * scale < 2 ^ 64 }
    requires below { reciprocal * (whole * scale) ≤ 2 ^ 127 }
    requires close { 2 ^ 127 ≤ reciprocal * (whole * scale) + 2 ^ 97 }
    ensures value { result ≡ 2 ^ 30 * part / whole }
{
    completed(part, whole, guessed_share(part, whole, scale, reciprocal))
}

/// The share, or one less.
fn guessed_share(part: u64, whole: u64, scale: u64, reciprocal: u64) -> u64
    requires some { 0 < whole }
    requires part { part ≤ whole }
    requires fits { whole * scale < 2 ^ 64 }
    requires below { reciprocal * (whole * scale) ≤ 2 ^ 127 }
    requires close { 2 ^ 127 ≤ reciprocal * (whole * scale) + 2 ^ 97 }
    ensures below { result * whole ≤ 2 ^ 30 * part }
    ensures above { 2 ^ 30 * part < (result + 2) * whole }
    ensures size { result < 2 ^ 32 }
{
    high(part * scale, reciprocal) / (1 << 33)
}

/// The share, where it is this number or the next.
#[tactic(auto, using(crate::proofs::QuotientFacts::quotient_is, crate::proofs::QuotientFacts::quotient_is_next))]
fn completed(part: u64, whole: u64, guess: u64) -> u64
    requires some { 0 < whole }
    requires half { whole ≤ 2 ^ 63 }
    requires below { guess * whole ≤ 2 ^ 30 * part }
    requires above { 2 ^ 30 * part < (guess + 2) * whole }
    requires size { guess < 2 ^ 32 }
    ensures { result ≡ 2 ^ 30 * part / whole }
{
    let rest = ((1 << 30) * part as u128 - guess as u128 * whole as u128) as u64;
    if rest < whole { guess } else { guess + 1 }
}

/// The share by a plain division.
#[cold]
#[inline(never)]
fn whole_share(part: u64, whole: u64) -> u64
    requires some { 0 < whole }
    requires part { part ≤ whole }
    ensures value { result ≡ 2 ^ 30 * part / whole }
{
    near_quotient((1 << 30) * part as u128, whole, 0)
}

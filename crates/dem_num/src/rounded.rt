//! Quotients rounded toward zero, floors of shifts, and clamps.

ghost use Rattle.std.specs.Prelude.{◌≡◌, pos, ◌+◌, ◌-◌, ◌*◌, ◌/◌, ◌^◌, ◌<◌, ◌≤◌, ◌<ℤ◌, ◌≤ℤ◌, min, neg_ℤ, if◌then◌else◌, unsigned_abs};
ghost use Rattle.dem_num.specs.Numbers.{quotient, shifted, clamped};

use crate::dividing::{near_quotient, short_quotient};
use crate::guess::high;
use crate::operators::negated;

/// The quotient, rounded toward zero.
#[tactic(auto, unfolding(crate::specs::Numbers::quotient))]
pub fn tdiv(x: i128, y: i128) -> i128
    requires { pos 0 <ℤ y }
    ensures value { result ≡ quotient x y }
    ensures size { unsigned_abs result ≡ unsigned_abs x / unsigned_abs y }
{
    let size = x.unsigned_abs();
    if y <= u64::MAX as i128 && (size >> 63) < y as u128 {
        signed(x < 0, short_quotient(size, y as u64))
    } else {
        x / y
    }
}

/// The quotient by a number without sign, rounded toward zero. The reciprocal only makes it quick.
#[tactic(auto, unfolding(crate::specs::Numbers::quotient))]
pub fn tdiv_by(x: i128, whole: u64, reciprocal: u64) -> i128
    requires some { 0 < whole }
    ensures value { result ≡ quotient x (pos whole) }
    ensures size { unsigned_abs result ≡ unsigned_abs x / whole }
{
    let size = x.unsigned_abs();
    if size <= i64::MAX as u128 {
        signed(x < 0, quotient_by(size as u64, whole, reciprocal))
    } else {
        tdiv(x, whole as i128)
    }
}

/// The quotient of two numbers without sign, by a guess.
fn quotient_by(x: u64, whole: u64, reciprocal: u64) -> u64
    requires some { 0 < whole }
    requires small { x < 2 ^ 63 }
    ensures value { result ≡ x / whole }
    ensures size { result < 2 ^ 63 }
{
    let shift = 63u32.saturating_sub(whole.leading_zeros());
    near_quotient(x as u128, whole, high(x, reciprocal) >> (shift & 63))
}

/// The number of this size that is below zero or not.
fn signed(below: bool, size: u64) -> i128
    requires { size < 2 ^ 63 }
    ensures { result ≡ (if below then neg_ℤ (pos size) else pos size) }
{
    if below { -(size as i128) } else { size as i128 }
}

/// The floor of `x / 2^k`.
#[tactic(auto, unfolding(crate::specs::Numbers::shifted))]
pub fn sh(x: i128, k: u32) -> i128
    requires { k ≤ 126 }
    ensures value { result ≡ shifted x k }
    ensures size { unsigned_abs result ≤ (unsigned_abs x + 2 ^ k - 1) / 2 ^ k }
{
    x >> k
}

/// The number from `-m` to `m` that is nearest to `x`.
#[tactic(auto, unfolding(crate::specs::Numbers::clamped, crate::specs::Numbers::opposite))]
pub fn cl(x: i128, m: i128) -> i128
    requires { pos 0 ≤ℤ m }
    ensures value { result ≡ clamped x m }
    ensures size { unsigned_abs result ≡ min (unsigned_abs x) (unsigned_abs m) }
{
    negated(m).max(x.min(m))
}

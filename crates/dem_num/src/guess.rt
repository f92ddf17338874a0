//! A guess of the whole root, by steps of Newton on the reciprocal of the root.
//! Nothing rests on the guess: `whole_root` tests it.

ghost use Rattle.std.specs.Prelude.{◌≡◌, ◌*◌, ◌/◌, ◌%◌, ◌^◌, ◌<◌};

use crate::starts::start;

/// Where this many leading bits are zero, a root brought closer once has all of its bits.
const FEW_BITS: u32 = 20;

/// About the root of a number of 64 bits: for most below 2^62 it is the root or one less.
pub(crate) fn short_guess(x: u64) -> u64 {
    let even = x.leading_zeros() & 62;
    let scaled = x << even;
    high(scaled, reciprocal(scaled)) >> 31 >> (even / 2)
}

/// About the root of a number of 128 bits: for most it is the root or one less.
pub(crate) fn long_guess(x: u128) -> u64 {
    let even = x.leading_zeros() & 126;
    let scaled = x << even;
    let top = (scaled >> 64) as u64;
    let reciprocal = reciprocal(top);
    let rough = high(top, reciprocal) << 1;
    let better = closer(scaled, rough, reciprocal, 36);
    if even < FEW_BITS {
        closer(scaled, better, reciprocal, 8) >> (even / 2)
    } else {
        better >> (even / 2)
    }
}

/// A root brought closer by what its square leaves of the number, of which the lowest bits are cut.
fn closer(scaled: u128, root: u64, reciprocal: u64, cut: u32) -> u64
    requires some { 0 < cut }
    requires fits { cut < 64 }
{
    let rest = scaled.wrapping_sub(square(root)) >> cut;
    root.wrapping_add(high(low(rest), reciprocal) >> (64 - cut))
}

/// 2^63 over the root of a number from a quarter to one, which is given times 2^64: a start, and one step of Newton.
/// The small number taken away is to keep it below, in spite of the rounding.
fn reciprocal(scaled: u64) -> u64 {
    let near = start(scaled);
    let one = high(scaled, near.wrapping_mul(near) << 2);
    let share = ((3 << 62) - 8u64).wrapping_sub(one);
    high(near << 33, share) << 1
}

/// The higher half of a product.
pub(crate) fn high(a: u64, b: u64) -> u64
    ensures { result ≡ a * b / 2 ^ 64 }
{
    ((a as u128 * b as u128) >> 64) as u64
}

/// The lower half of a number.
fn low(x: u128) -> u64
    ensures { result ≡ x % 2 ^ 64 }
{
    (x & (u64::MAX as u128)) as u64
}

/// The square of a number.
pub(crate) fn square(s: u64) -> u128
    ensures { result ≡ s * s }
{
    s as u128 * s as u128
}

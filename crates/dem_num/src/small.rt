//! Sums, products and floors at 64 bits, each with the size that its callers bound theirs by, and wide numbers that fit 64 bits.

ghost use Rattle.std.specs.Prelude.{◌≡◌, ◌+◌, ◌-◌, ◌*◌, ◌/◌, ◌^◌, ◌<◌, ◌≤◌, ◌+ℤ◌, ◌-ℤ◌, ◌*ℤ◌, unsigned_abs};
ghost use Rattle.dem_num.specs.Numbers.{AtMost, shifted};
ghost use Rattle.dem_num.specs.Vectors.{widened, sum_of, difference_of, Within};

use crate::axes::{narrow3, widen};
use crate::operators::narrow;
use crate::vector::{Vec3, Wide3};

/// The product of two numbers.
pub fn mul_short(a: i64, b: i64) -> i64
    requires { unsigned_abs a * unsigned_abs b < 2 ^ 63 }
    ensures value { result ≡ a *ℤ b }
    ensures size { unsigned_abs result ≡ unsigned_abs a * unsigned_abs b }
{
    a * b
}

/// The sum of two numbers.
pub fn add_short(a: i64, b: i64) -> i64
    requires { unsigned_abs a + unsigned_abs b < 2 ^ 63 }
    ensures value { result ≡ a +ℤ b }
    ensures size { unsigned_abs result ≤ unsigned_abs a + unsigned_abs b }
{
    a + b
}

/// The first number less the second.
pub fn sub_short(a: i64, b: i64) -> i64
    requires { unsigned_abs a + unsigned_abs b < 2 ^ 63 }
    ensures value { result ≡ a -ℤ b }
    ensures size { unsigned_abs result ≤ unsigned_abs a + unsigned_abs b }
{
    a - b
}

/// The floor of `x / 2^k`.
#[tactic(auto, unfolding(crate::specs::Numbers::shifted))]
pub fn sh_short(x: i64, k: u32) -> i64
    requires { k ≤ 62 }
    ensures value { result ≡ shifted x k }
    ensures size { unsigned_abs result ≤ (unsigned_abs x + 2 ^ k - 1) / 2 ^ k }
{
    x >> k
}

/// The sum of two vectors.
pub fn add3_short(a: Vec3, b: Vec3) -> Vec3
    requires first { Within (widened a) (2 ^ 61) }
    requires second { Within (widened b) (2 ^ 61) }
    ensures { widened result ≡ sum_of (widened a) (widened b) }
{
    Vec3 {
        x: add_short(a.x, b.x),
        y: add_short(a.y, b.y),
        z: add_short(a.z, b.z),
    }
}

/// The first vector less the second.
pub fn sub3_short(a: Vec3, b: Vec3) -> Vec3
    requires first { Within (widened a) (2 ^ 61) }
    requires second { Within (widened b) (2 ^ 61) }
    ensures { widened result ≡ difference_of (widened a) (widened b) }
{
    Vec3 {
        x: sub_short(a.x, b.x),
        y: sub_short(a.y, b.y),
        z: sub_short(a.z, b.z),
    }
}

/// The same number, which is known to fit 64 bits: a product made of it is short.
pub fn short(x: i128) -> i128
    requires { AtMost x (2 ^ 62) }
    ensures { result ≡ x }
{
    narrow(x) as i128
}

/// The same vector, which is known to fit 64 bits: products made of it are short.
pub fn short3(a: Wide3) -> Wide3
    requires { Within a (2 ^ 62) }
    ensures { result ≡ a }
{
    widen(narrow3(a))
}

//! What is done to a vector axis by axis.

ghost use Rattle.std.specs.Prelude.{◌≡◌, pos, ◌+◌, ◌-◌, ◌*◌, ◌/◌, ◌^◌, ◌<◌, ◌≤◌, ◌<ℤ◌, ◌≤ℤ◌, unsigned_abs};
ghost use Rattle.dem_num.specs.Numbers.{AtMost};
ghost use Rattle.dem_num.specs.Vectors.{
  widened,
  narrowed,
  sum_of,
  difference_of,
  scaled,
  opposed,
  quotients,
  shifted_each,
  clamped_each,
  Within,
};

use crate::operators::{add, mul, narrow, negated, sub};
use crate::rounded::{cl, sh, tdiv};
use crate::vector::{Vec3, Wide3};

/// The same vector, with room for larger components.
pub fn widen(a: Vec3) -> Wide3
    ensures { result ≡ widened a }
{
    Wide3 {
        x: a.x as i128,
        y: a.y as i128,
        z: a.z as i128,
    }
}

/// The same vector at 64 bits.
pub fn narrow3(a: Wide3) -> Vec3
    requires { Within a (2 ^ 63 - 1) }
    ensures value { result ≡ narrowed a }
    ensures same { widened result ≡ a }
{
    Vec3 {
        x: narrow(a.x),
        y: narrow(a.y),
        z: narrow(a.z),
    }
}

/// The sum of two vectors.
pub fn add3(a: Wide3, b: Wide3) -> Wide3
    requires first { Within a (2 ^ 125) }
    requires second { Within b (2 ^ 125) }
    ensures { result ≡ sum_of a b }
{
    Wide3 {
        x: add(a.x, b.x),
        y: add(a.y, b.y),
        z: add(a.z, b.z),
    }
}

/// The first vector less the second.
pub fn sub3(a: Wide3, b: Wide3) -> Wide3
    requires first { Within a (2 ^ 125) }
    requires second { Within b (2 ^ 125) }
    ensures { result ≡ difference_of a b }
{
    Wide3 {
        x: sub(a.x, b.x),
        y: sub(a.y, b.y),
        z: sub(a.z, b.z),
    }
}

/// The first place less the second, in u; both lie in or about a box.
pub fn place_difference(a: Vec3, b: Vec3) -> Wide3
    requires first { Within (widened a) (2 ^ 36) }
    requires second { Within (widened b) (2 ^ 36) }
    ensures value { result ≡ difference_of (widened a) (widened b) }
    ensures size { Within result (2 ^ 37) }
{
    sub3(widen(a), widen(b))
}

/// The vector, each component multiplied by `k`.
pub fn scale3(k: i128, a: Wide3) -> Wide3
    requires { Within (scaled k a) (2 ^ 127 - 1) }
    ensures { result ≡ scaled k a }
{
    Wide3 {
        x: mul(k, a.x),
        y: mul(k, a.y),
        z: mul(k, a.z),
    }
}

/// The vector that points the other way.
pub fn negated3(a: Wide3) -> Wide3
    requires { Within a (2 ^ 127 - 1) }
    ensures { result ≡ opposed a }
{
    Wide3 {
        x: negated(a.x),
        y: negated(a.y),
        z: negated(a.z),
    }
}

/// Each component divided, rounded toward zero.
pub fn tdiv3(a: Wide3, d: i128) -> Wide3
    requires { pos 0 <ℤ d }
    ensures { result ≡ quotients a d }
{
    Wide3 {
        x: tdiv(a.x, d),
        y: tdiv(a.y, d),
        z: tdiv(a.z, d),
    }
}

/// The floor of each component over `2^k`.
pub fn sh3(a: Wide3, k: u32) -> Wide3
    requires { k ≤ 126 }
    ensures { result ≡ shifted_each a k }
{
    Wide3 {
        x: sh(a.x, k),
        y: sh(a.y, k),
        z: sh(a.z, k),
    }
}

/// Each component brought within `m` of zero.
pub fn cl3(a: Wide3, m: i128) -> Wide3
    requires { pos 0 ≤ℤ m }
    ensures { result ≡ clamped_each a m }
{
    Wide3 {
        x: cl(a.x, m),
        y: cl(a.y, m),
        z: cl(a.z, m),
    }
}

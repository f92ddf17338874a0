//! Products of vectors: dot, cross and squares of lengths.

ghost use Rattle.std.specs.Prelude.{◌≡◌, ◌+◌, ◌*◌, ◌^◌, ◌<◌, ◌≤◌, ◌*ℤ◌, unsigned_abs};
ghost use Rattle.dem_num.specs.Numbers.{AtMost, square_of};
ghost use Rattle.dem_num.specs.Rotations.{quat_norm2_of};
ghost use Rattle.dem_num.specs.Vectors.{
  widened,
  Within,
  dot_of,
  dot_bound_of,
  turn_product,
  cross_of,
  norm2_of,
};

use crate::operators::{add, mul, sub};
use crate::vector::{Quat, Vec3, Wide3};

/// The sum of the products, axis by axis.
#[tactic(auto, unfolding(crate::specs::Vectors::dot_of, crate::specs::Vectors::dot_bound_of))]
pub fn dot(a: Vec3, b: Wide3) -> i128
    requires first { Within (widened a) (2 ^ 32) }
    requires second { Within b (2 ^ 92) }
    ensures value { result ≡ dot_of (widened a) b }
    ensures size { AtMost result (dot_bound_of (widened a) b) }
{
    let x = product(a.x, b.x);
    let y = product(a.y, b.y);
    let z = product(a.z, b.z);
    add(add(x, y), z)
}

/// The product of a number of 32 bits and one of 92.
fn product(a: i64, b: i128) -> i128
    requires first { AtMost a (2 ^ 32) }
    requires second { AtMost b (2 ^ 92) }
    ensures value { result ≡ a *ℤ b }
    ensures size { unsigned_abs result ≡ unsigned_abs a * unsigned_abs b }
    ensures bound { AtMost result (2 ^ 124) }
{
    mul(a as i128, b)
}

/// The cross product.
pub fn cross(a: Vec3, b: Wide3) -> Wide3
    requires first { Within (widened a) (2 ^ 32) }
    requires second { Within b (2 ^ 92) }
    ensures value { result ≡ cross_of (widened a) b }
    ensures size { Within result (2 ^ 125) }
{
    Wide3 {
        x: turned_product(a.y, b.z, a.z, b.y),
        y: turned_product(a.z, b.x, a.x, b.z),
        z: turned_product(a.x, b.y, a.y, b.x),
    }
}

/// The first product less the second.
#[tactic(auto, unfolding(crate::specs::Vectors::turn_product))]
fn turned_product(a: i64, b: i128, c: i64, d: i128) -> i128
    requires a_small { AtMost a (2 ^ 32) }
    requires b_small { AtMost b (2 ^ 92) }
    requires c_small { AtMost c (2 ^ 32) }
    requires d_small { AtMost d (2 ^ 92) }
    ensures value { result ≡ turn_product a b c d }
    ensures size { AtMost result (2 ^ 125) }
{
    sub(product(a, b), product(c, d))
}

/// The square of the length.
#[tactic(auto, unfolding(crate::specs::Vectors::norm2_of))]
pub fn norm2(b: Wide3) -> u128
    requires { Within b (2 ^ 62) }
    ensures { result ≡ norm2_of b }
{
    let x = b.x.unsigned_abs();
    let y = b.y.unsigned_abs();
    let z = b.z.unsigned_abs();
    x * x + y * y + z * z
}

/// The square of a quaternion's length.
#[tactic(auto, unfolding(crate::specs::Rotations::quat_norm2_of))]
pub fn quat_norm2(q: Quat) -> u128
    requires { quat_norm2_of q < 2 ^ 128 }
    ensures { result ≡ quat_norm2_of q }
{
    squared(q.a) + squared(q.b) + squared(q.c) + squared(q.d)
}

/// The square of a number of 64 bits.
fn squared(x: i64) -> u128
    ensures { result ≡ square_of x }
{
    let size = x.unsigned_abs() as u128;
    size * size
}

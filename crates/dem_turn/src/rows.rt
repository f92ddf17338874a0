//! The matrix of a quaternion, entry by entry: a quadratic form over the squared length.

ghost use Rattle.std.specs.Prelude.{◌≡◌, pos, ◌+◌, ◌*◌, ◌^◌, ◌<◌, ◌≤◌, ◌*ℤ◌, unsigned_abs};
ghost use Rattle.dem_num.specs.Numbers.{square_of, AtMost};
ghost use Rattle.dem_num.specs.Vectors.{widened, Within};
ghost use Rattle.dem_num.specs.Rotations.{
  quat_norm2_of,
  IsOrientation,
  EntriesWithin,
  axial,
  mixed_sum,
  mixed_difference,
  matrix_entry_of,
  matrix_of,
};

use dem_num::{Quat, Rows, Vec3, add, mul, quat_norm2, reciprocal, share, sub};

/// The rotation matrix of a quaternion.
#[tactic(auto, unfolding(dem_num::specs::Rotations::matrix_of))]
pub fn matrix(q: Quat) -> Rows
    requires { IsOrientation q }
    ensures value { result ≡ matrix_of q }
    ensures size { EntriesWithin result (2 ^ 30) }
{
    let norm2 = quat_norm2(q) as u64;
    let inverse = reciprocal(norm2);
    Rows {
        x: row_x(q, norm2, inverse),
        y: row_y(q, norm2, inverse),
        z: row_z(q, norm2, inverse),
    }
}

/// The first row of the matrix.
#[tactic(auto, unfolding(dem_num::specs::Rotations::matrix_of, dem_num::specs::Rotations::quat_norm2_of))]
fn row_x(q: Quat, norm2: u64, inverse: u64) -> Vec3
    requires orientation { IsOrientation q }
    requires length { norm2 ≡ quat_norm2_of q }
    ensures value { result ≡ (matrix_of q).x }
    ensures size { Within (widened result) (2 ^ 30) }
{
    Vec3 {
        x: entry(axial_form(q.a, q.b, q.c, q.d), norm2, inverse),
        y: entry(mixed_difference_form(q.b, q.c, q.a, q.d), norm2, inverse),
        z: entry(mixed_sum_form(q.b, q.d, q.a, q.c), norm2, inverse),
    }
}

/// The second row of the matrix.
#[tactic(auto, unfolding(dem_num::specs::Rotations::matrix_of, dem_num::specs::Rotations::quat_norm2_of))]
fn row_y(q: Quat, norm2: u64, inverse: u64) -> Vec3
    requires orientation { IsOrientation q }
    requires length { norm2 ≡ quat_norm2_of q }
    ensures value { result ≡ (matrix_of q).y }
    ensures size { Within (widened result) (2 ^ 30) }
{
    Vec3 {
        x: entry(mixed_sum_form(q.b, q.c, q.a, q.d), norm2, inverse),
        y: entry(axial_form(q.a, q.c, q.b, q.d), norm2, inverse),
        z: entry(mixed_difference_form(q.c, q.d, q.a, q.b), norm2, inverse),
    }
}

/// The third row of the matrix.
#[tactic(auto, unfolding(dem_num::specs::Rotations::matrix_of, dem_num::specs::Rotations::quat_norm2_of))]
fn row_z(q: Quat, norm2: u64, inverse: u64) -> Vec3
    requires orientation { IsOrientation q }
    requires length { norm2 ≡ quat_norm2_of q }
    ensures value { result ≡ (matrix_of q).z }
    ensures size { Within (widened result) (2 ^ 30) }
{
    Vec3 {
        x: entry(mixed_difference_form(q.b, q.d, q.a, q.c), norm2, inverse),
        y: entry(mixed_sum_form(q.c, q.d, q.a, q.b), norm2, inverse),
        z: entry(axial_form(q.a, q.d, q.b, q.c), norm2, inverse),
    }
}

/// An entry of the matrix: that of the quadratic form over the squared length, whose reciprocal is about `inverse`.
#[tactic(auto, unfolding(dem_num::specs::Rotations::matrix_entry_of))]
fn entry(form: i128, norm2: u64, inverse: u64) -> i64
    requires some { 0 < norm2 }
    requires part { AtMost form norm2 }
    ensures value { result ≡ matrix_entry_of form norm2 }
    ensures size { AtMost result (2 ^ 30) }
{
    share(form, norm2, inverse)
}

/// The form of an entry on the diagonal.
#[tactic(auto, unfolding(dem_num::specs::Rotations::axial))]
fn axial_form(a: i64, own: i64, other: i64, third: i64) -> i128
    requires { square_of a + square_of own + square_of other + square_of third ≤ 2 ^ 62 }
    ensures value { result ≡ axial a own other third }
    ensures size { AtMost result (square_of a + square_of own + square_of other + square_of third) }
{
    sub(
        sub(add(squared(a), squared(own)), squared(other)),
        squared(third),
    )
}

/// The form of an entry off the diagonal, where the products are summed.
#[tactic(auto, unfolding(dem_num::specs::Rotations::mixed_sum))]
fn mixed_sum_form(u: i64, v: i64, s: i64, t: i64) -> i128
    requires { square_of u + square_of v + square_of s + square_of t ≤ 2 ^ 62 }
    ensures value { result ≡ mixed_sum u v s t }
    ensures size { AtMost result (square_of u + square_of v + square_of s + square_of t) }
{
    mul(2, add(product(u, v), product(s, t)))
}

/// The form of an entry off the diagonal, where the second product is taken away.
#[tactic(auto, unfolding(dem_num::specs::Rotations::mixed_difference))]
fn mixed_difference_form(u: i64, v: i64, s: i64, t: i64) -> i128
    requires { square_of u + square_of v + square_of s + square_of t ≤ 2 ^ 62 }
    ensures value { result ≡ mixed_difference u v s t }
    ensures size { AtMost result (square_of u + square_of v + square_of s + square_of t) }
{
    mul(2, sub(product(u, v), product(s, t)))
}

/// The square of a component.
fn squared(u: i64) -> i128
    requires { square_of u ≤ 2 ^ 62 }
    ensures value { result ≡ u *ℤ u }
    ensures size { unsigned_abs result ≡ square_of u }
{
    mul(u as i128, u as i128)
}

/// The product of two components: twice its size is at most the sum of their squares.
#[tactic(auto, using(dem_num::proofs::ProductBounds::two_products_le))]
fn product(u: i64, v: i64) -> i128
    requires { square_of u + square_of v ≤ 2 ^ 62 }
    ensures value { result ≡ u *ℤ v }
    ensures size { 2 * unsigned_abs result ≤ square_of u + square_of v }
{
    mul(u as i128, v as i128)
}

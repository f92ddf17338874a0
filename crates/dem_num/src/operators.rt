//! Sums and products at 128 bits, each with the size that its callers bound theirs by.

ghost use Rattle.std.specs.Prelude.{◌≡◌, ◌+◌, ◌*◌, ◌^◌, ◌<◌, ◌≤◌, ◌+ℤ◌, ◌-ℤ◌, ◌*ℤ◌, unsigned_abs};
ghost use Rattle.dem_num.specs.Numbers.{opposite};

/// The product of two numbers.
pub fn mul(a: i128, b: i128) -> i128
    requires { unsigned_abs a * unsigned_abs b < 2 ^ 127 }
    ensures value { result ≡ a *ℤ b }
    ensures size { unsigned_abs result ≡ unsigned_abs a * unsigned_abs b }
{
    a * b
}

/// The sum of two numbers.
pub fn add(a: i128, b: i128) -> i128
    requires { unsigned_abs a + unsigned_abs b < 2 ^ 127 }
    ensures value { result ≡ a +ℤ b }
    ensures size { unsigned_abs result ≤ unsigned_abs a + unsigned_abs b }
{
    a + b
}

/// The first number less the second.
pub fn sub(a: i128, b: i128) -> i128
    requires { unsigned_abs a + unsigned_abs b < 2 ^ 127 }
    ensures value { result ≡ a -ℤ b }
    ensures size { unsigned_abs result ≤ unsigned_abs a + unsigned_abs b }
{
    a - b
}

/// The opposite number.
#[tactic(auto, unfolding(crate::specs::Numbers::opposite))]
pub fn negated(a: i128) -> i128
    requires { unsigned_abs a < 2 ^ 127 }
    ensures value { result ≡ opposite a }
    ensures size { unsigned_abs result ≡ unsigned_abs a }
{
    -a
}

/// The same number at 64 bits.
pub fn narrow(x: i128) -> i64
    requires { unsigned_abs x < 2 ^ 63 }
    ensures { result ≡ x }
{
    x as i64
}

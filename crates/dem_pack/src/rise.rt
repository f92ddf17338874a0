//! The rise of staggered layers.
ghost use Rattle.std.specs.Prelude.{ℕ, ◌≡◌, ◌≤◌, ◌<◌, ◌*◌, ◌^◌};
ghost use Rattle.dem_model.specs.Cells.{rise_of};

/// The least rise at which cells of the next layer are a pitch away.
pub(crate) fn rise(pitch: u64) -> u64
    requires some { 1 ≤ pitch }
    requires few { pitch ≤ 2 ^ 29 }
    ensures value { result ≡ rise_of pitch }
    ensures some { 1 ≤ result }
    ensures few { result ≤ pitch }
{
    let half = pitch / 2;
    least_root(pitch * pitch - 2 * (half * half))
}

// The least number whose square is at least this.
fn least_root(square: u64) -> u64
    requires { square ≤ 2 ^ 60 }
    ensures enough { square ≤ result * result }
    ensures least { (p : ℕ) → p < result → p * p < square }
{
    let root = square.isqrt();
    if root * root == square {
        root
    } else {
        root + 1
    }
}

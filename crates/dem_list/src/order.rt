//! The order of pairs: by the first number, then by the second.

ghost use Rattle.std.specs.Prelude.{◌≡◌};
ghost use Rattle.std.specs.Ordering.{is_lt};
ghost use Rattle.dem_model.specs.Pairs.{pair_cmp};

use dem_model::Pair;

/// What pairs are ordered by.
pub fn key(p: &Pair) -> (u32, u32)
    ensures { result ≡ (p.now.a, p.now.b) }
{
    (p.a, p.b)
}

/// Whether a pair comes before another.
pub fn is_before(p: Pair, q: Pair) -> bool
    ensures { result ≡ is_lt (pair_cmp p q) }
{
    key(&p) < key(&q)
}

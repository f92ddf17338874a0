//! Two materials and two sides together: the law between them, the effective radius, the effective mass.

ghost use Rattle.std.specs.Prelude.{◌≡◌, ◌^◌, ◌≤◌};
ghost use Rattle.dem_model.specs.Sound.{IsMaterial};
ghost use Rattle.dem_model.specs.Mixing.{in_a_row, mixed_of, radius_between, mass_between};
ghost use Rattle.dem_model.specs.Ranges.{IsLaw, IsFirst, IsSecond, wall_side_of};

use dem_model::{Law, Material, Side};
use dem_num::ZERO;

/// Numbers below this one have a product of 64 bits.
const SHORT: u64 = 1 << 32;

/// The law between two materials, each within the ranges of a scene.
#[tactic(auto, unfolding(dem_model::specs::Mixing::mixed_of))]
pub fn mix(a: &Material, b: &Material) -> Law
    requires first { IsMaterial a.now }
    requires second { IsMaterial b.now }
    ensures value { result ≡ mixed_of a.now b.now }
    ensures ranges { IsLaw result }
{
    Law {
        kn: in_a_row(a.kn as u64, b.kn as u64).max(1) as u32,
        kt: in_a_row(a.kt as u64, b.kt as u64) as u32,
        bn: a.bn.max(b.bn),
        bt: a.bt.max(b.bt),
        mu: a.mu.min(b.mu),
        mr: a.mr.min(b.mr),
    }
}

/// The product over the sum, as two springs in a row; 0 where both are 0.
#[tactic(auto, unfolding(dem_model::specs::Mixing::in_a_row), using(crate::proofs::MixFacts::equals_in_a_row))]
fn in_a_row(a: u64, b: u64) -> u64
    ensures value { result ≡ in_a_row a b }
    ensures size { result ≤ a }
{
    if a == b {
        return a / 2;
    }
    if a < SHORT && b < SHORT {
        return a * b / (a + b);
    }
    (a as u128 * b as u128 / (a as u128 + b as u128)) as u64
}

/// The effective radius of a contact: that of the sphere alone at a wall.
#[tactic(auto, unfolding(dem_model::specs::Mixing::radius_between))]
pub fn effective_radius(a: &Side, b: &Side) -> u64
    requires first { IsFirst a.now }
    ensures value { result ≡ radius_between a.now b.now }
    ensures size { result ≤ 2 ^ 26 }
{
    if b.wall {
        return a.r as u64;
    }
    in_a_row(a.r as u64, b.r as u64).max(1)
}

/// The effective mass of a contact: that of the clump alone at a wall.
#[tactic(auto, unfolding(dem_model::specs::Mixing::mass_between))]
pub fn effective_mass(a: &Side, b: &Side) -> u64
    requires first { IsFirst a.now }
    ensures value { result ≡ mass_between a.now b.now }
    ensures size { result ≤ 2 ^ 40 }
{
    if b.wall {
        return a.mass;
    }
    in_a_row(a.mass, b.mass).max(1)
}

/// A wall's side of each contact: at rest, without radius, mass or lever.
pub fn wall_side() -> Side
    ensures value { result ≡ wall_side_of }
    ensures second { IsSecond result }
{
    Side {
        v: ZERO,
        spin: ZERO,
        lever: ZERO,
        r: 0,
        mass: 0,
        wall: true,
    }
}

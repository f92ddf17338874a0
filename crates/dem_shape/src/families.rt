//! Families of clumps: the motion of one, and which others are off with it.

ghost use Rattle.std.specs.Prelude.{ℕ, ◌≡◌, ◌<◌, ◌+◌, ◌/◌, ◌%◌, ◌^◌, ◌==◌, length};
ghost use Rattle.dem_model.specs.Families.{has_both, is_off, motion_for};
ghost use Rattle.dem_shape.specs.Kin.{IsKin};
ghost use Rattle.dem_shape.specs.Offs.{one_off, offs_of};

use dem_model::{List, Motion, Off, Scene};

/// How many families there are, numbered from 0.
const FAMILIES: u32 = 16;

/// The family of a clump, and the families that are off with it: family g is, where the digit of 2^g is 1.
#[derive(Clone, Copy)]
pub struct Kin {
    pub family: u32,
    pub offs: u32,
}

impl Kin {
    /// That of a clump of a scene.
    pub fn new(scene: &Scene, clump: u32) -> Kin
        requires { clump < length scene.now.clumps }
        ensures { IsKin scene.now clump result }
    {
        let family = scene.clumps.get(clump as usize).family;
        Kin {
            family,
            offs: offs(&scene.off, family),
        }
    }
}

/// The motion of a family, if it has one.
#[tactic(auto, unfolding(dem_model::specs::Families::motion_for))]
pub fn motion_for(motions: &List<Motion>, family: u32) -> Option<Motion>
    ensures { result ≡ motion_for motions.now family }
{
    for motion in motions.as_slice() {
        if motion.id == family {
            return Some(*motion);
        }
    }
    None
}

/// Whether a digit of a number of base 2 is 1; digit 0 is the lowest.
pub fn has_bit(bits: u32, place: u32) -> bool
    requires { place < 32 }
    ensures { result ≡ (bits / 2 ^ place % 2 == 1) }
{
    bits / (1 << place) % 2 == 1
}

/// The families that are off with one, as the digits of a number.
fn offs(off: &List<Off>, family: u32) -> u32
    ensures { result ≡ offs_of off.now family }
{
    let mut bits = 0;
    for n in 0..FAMILIES {
        bits = bits * 2 + one_if_off(off, family, FAMILIES - 1 - n);
    }
    bits
}

/// 1 where two families are off, else 0.
#[tactic(auto, unfolding(crate::specs::Offs::one_off))]
fn one_if_off(off: &List<Off>, f: u32, g: u32) -> u32
    ensures { result ≡ one_off off.now f g }
{
    if is_off(off, f, g) { 1 } else { 0 }
}

/// Whether two families are off with each other.
#[tactic(auto, unfolding(dem_model::specs::Families::is_off))]
fn is_off(off: &List<Off>, f: u32, g: u32) -> bool
    ensures { result ≡ is_off off.now f g }
{
    for entry in off.as_slice() {
        if has_both(entry, f, g) {
            return true;
        }
    }
    false
}

/// Whether an entry has two families, in either order.
fn has_both(entry: &Off, f: u32, g: u32) -> bool
    ensures { result ≡ has_both f g entry.now }
{
    (entry.f == f && entry.g == g) || (entry.f == g && entry.g == f)
}

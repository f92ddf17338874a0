//! How many pairs each clump has a sphere in, and which clump has most.
ghost use Rattle.std.specs.Prelude.{◌≡◌, ◌<◌, ◌≤◌, ◌^◌, ◌==◌, length, fold, max, find, unwrap_or, replicate, All};
ghost use Rattle.std.specs.List.{range_with_len};
ghost use Rattle.dem_model.specs.Motion.{IsPair};
ghost use Rattle.dem_model.specs.declared.state.Held.{Held};
ghost use Rattle.dem_look.specs.Inside.{count_at, counts_of, AddsOne, CountsPair};

use dem_model::Held;
use dem_shape::Shapes;

/// The greatest number of pairs of one clump, and the first clump that has it.
#[derive(Clone, Copy)]
pub(crate) struct Busiest {
    pub most: u32,
    pub clump: u32,
}

/// The greatest of these counts, and the first clump that has it.
pub(crate) fn find_busiest(counts: &[u32]) -> Busiest
    requires { length counts.now ≤ 16384 }
    ensures most { result.most ≡ fold max 0 counts.now }
    ensures clump { result.clump ≡ unwrap_or (find (λ k. count_at counts.now k == result.most) (range_with_len 0 (length counts.now))) 0 }
{
    let most = greatest(counts);
    Busiest {
        most,
        clump: first_with(counts, most),
    }
}

/// The greatest of these counts.
fn greatest(counts: &[u32]) -> u32
    ensures { result ≡ fold max 0 counts.now }
{
    let mut most: u32 = 0;
    for count in counts {
        most = most.max(*count);
    }
    most
}

/// The first clump that has this count, or else clump 0.
fn first_with(counts: &[u32], most: u32) -> u32
    requires { length counts.now ≤ 16384 }
    ensures { result ≡ unwrap_or (find (λ k. count_at counts.now k == most) (range_with_len 0 (length counts.now))) 0 }
{
    for k in 0..counts.len() {
        if counts[k] == most {
            return k as u32;
        }
    }
    0
}

/// Counts for each clump the pairs that are held and have a sphere of it.
pub(crate) fn count_contacts(counts: &mut [u32], shapes: &Shapes, held: &[Held])
    requires made { length counts.old ≡ length shapes.now.clumps }
    requires pairs { All (λ (e : Held). IsPair shapes.now e.pair) held.now }
    requires few { length held.now ≤ 2 ^ 31 }
    ensures { counts.new ≡ counts_of shapes.now held.now }
{
    clear(counts);
    for entry in held {
        count_pair(counts, shapes, entry);
    }
}

/// Sets each count to zero.
fn clear(counts: &mut [u32])
    ensures { counts.new ≡ replicate (length counts.old) 0 }
{
    for k in 0..counts.len() {
        counts[k] = 0;
    }
}

/// Counts a pair for the clump of its first sphere, and for that of its second, where that is no wall.
fn count_pair(counts: &mut [u32], shapes: &Shapes, entry: &Held)
    requires pair { IsPair shapes.now entry.now.pair }
    requires made { length counts.old ≡ length shapes.now.clumps }
    requires room { All (λ n. n < 2 ^ 31) counts.old }
    ensures { CountsPair shapes.now entry.now counts.old counts.new }
{
    let pair = entry.pair;
    add_one(counts, shapes.clump_of(pair.a));
    if pair.b < shapes.spheres() {
        add_one(counts, shapes.clump_of(pair.b));
    }
}

/// Adds one to the count of a clump.
fn add_one(counts: &mut [u32], clump: u32)
    requires there { clump < length counts.old }
    requires room { count_at counts.old clump ≤ 2 ^ 31 }
    ensures { AddsOne clump counts.old counts.new }
{
    counts[clump as usize] += 1;
}

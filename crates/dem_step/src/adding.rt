//! The sums of two parts of a step, added clump by clump.

ghost use Rattle.std.specs.Prelude.{◌≡◌, ◌<◌, length, slice_set, slice_index_or};
ghost use Rattle.dem_model.specs.Step.{no_load};
ghost use Rattle.dem_force.specs.Loads.{CanGrow};
ghost use Rattle.dem_step.specs.Felt.{AreFelt};
ghost use Rattle.dem_step.specs.Split.{both_loads, CanBeAdded, AreAdded};

use crate::felt::Felt;
use dem_model::Load;
use dem_num::add3;

/// Adds to each load the one at its place, where others feel something.
pub fn add_felt(loads: &mut [Load], others: &[Load], felt: &Felt)
    requires can { CanBeAdded loads.old others.now }
    requires felt { AreFelt felt.now others.now }
    ensures added { AreAdded loads.old others.now loads.new (length loads.old) }
{
    let count = loads.len();
    let first = (felt.first as usize).min(count);
    let past = (felt.last as usize + 1).min(count);
    for c in first..past {
        add_load(loads, c, others[c]);
    }
}

/// Adds a load to the one at a place.
fn add_load(loads: &mut [Load], c: usize, other: Load)
    requires there { c < length loads.old }
    requires first { CanGrow (slice_index_or loads.old c no_load) }
    requires second { CanGrow other }
    ensures { loads.new ≡ slice_set loads.old c (both_loads (slice_index_or loads.old c no_load) other) }
{
    let load = loads[c];
    loads[c] = both(load, other);
}

/// What a clump feels of two loads.
fn both(load: Load, other: Load) -> Load
    requires first { CanGrow load }
    requires second { CanGrow other }
    ensures { result ≡ both_loads load other }
{
    Load {
        force: add3(load.force, other.force),
        torque: add3(load.torque, other.torque),
    }
}

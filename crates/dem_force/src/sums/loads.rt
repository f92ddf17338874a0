//! The sums per clump: no load at first, and what a contact adds to the loads of the two clumps.

ghost use Rattle.std.specs.Prelude.{◌≡◌, ◌<◌, ◌≤◌, ◌^◌, IfOk, length, replicate, slice_set, slice_index_or};
ghost use Rattle.dem_num.specs.Vectors.{Within};
ghost use Rattle.dem_model.specs.Motion.{IsPair};
ghost use Rattle.dem_model.specs.Pairs.{sphere_count};
ghost use Rattle.dem_model.specs.Ranges.{IsSmall};
ghost use Rattle.dem_model.specs.Step.{no_load, load_plus, loads_with};
ghost use Rattle.dem_force.specs.Loads.{AreLoads, CanGrow};

use dem_model::{Load, OutOfMemory, Pair, Push};
use dem_num::{WIDE_ZERO, Wide3, add3, negated3};
use dem_shape::Shapes;
use std::alloc::Global;

/// A load of nothing per clump.
pub fn no_loads(alloc: Global, shapes: &Shapes) -> Result<Vec<Load>, OutOfMemory>
    ensures { IfOk result (λ loads. loads.items ≡ replicate (length shapes.now.clumps) no_load) }
{
    let mut loads = Vec::new(alloc);
    for _ in 0..shapes.scene().clumps.len() {
        let load = Load {
            force: WIDE_ZERO,
            torque: WIDE_ZERO,
        };
        if loads.push(load).is_err() {
            return Err(OutOfMemory);
        }
    }
    Ok(loads)
}

/// Adds what a contact does to the loads of its clumps: the push to the first, the opposite push to the second.
pub fn add_push(loads: &mut [Load], shapes: &Shapes, pair: Pair, push: &Push)
    requires pair { IsPair shapes.now pair }
    requires loads { AreLoads shapes.now loads.old }
    requires push { IsSmall push.now }
    ensures { loads.new ≡ loads_with shapes.now loads.old (record { pair = pair; push = push.now }) }
{
    add_to(loads, shapes.clump_of(pair.a), push.force, push.torque_a);
    if pair.b < shapes.spheres() {
        add_to(
            loads,
            shapes.clump_of(pair.b),
            negated3(push.force),
            push.torque_b,
        );
    }
}

/// Adds a force and a torque to the load of a clump.
fn add_to(loads: &mut [Load], clump: u32, force: Wide3, torque: Wide3)
    requires there { clump < length loads.old }
    requires load { CanGrow (slice_index_or loads.old clump no_load) }
    requires force { Within force (2 ^ 63) }
    requires torque { Within torque (2 ^ 93) }
    ensures { loads.new ≡ slice_set loads.old clump (load_plus (slice_index_or loads.old clump no_load) force torque) }
{
    let load = loads[clump as usize];
    loads[clump as usize] = grown(load, force, torque);
}

/// A load and what is added to it.
fn grown(load: Load, force: Wide3, torque: Wide3) -> Load
    requires load { CanGrow load }
    requires force { Within force (2 ^ 63) }
    requires torque { Within torque (2 ^ 93) }
    ensures { result ≡ load_plus load force torque }
{
    Load {
        force: add3(load.force, force),
        torque: add3(load.torque, torque),
    }
}

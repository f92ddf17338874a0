//! The meetings of a step: the sums per clump and the new displacements, pair by pair and row by row.

ghost use Rattle.std.specs.Prelude.{◌≡◌, ◌+◌, ◌<◌, ◌≤◌, ◌++◌, [], OnOk, IfOk, List, length};
ghost use Rattle.dem_model.specs.Motion.{AreInside};
ghost use Rattle.dem_model.specs.Pairs.{sphere_count, limit_of, pair_of, row_below, pairs_below, all_pairs};
ghost use Rattle.dem_num.specs.declared.vector.Vec3.{Vec3};
ghost use Rattle.dem_model.specs.declared.state.Body.{Body};
ghost use Rattle.dem_model.specs.declared.state.Held.{Held};
ghost use Rattle.dem_model.specs.declared.state.Pair.{Pair};
ghost use Rattle.dem_force.specs.Loads.{AreLoads};
ghost use Rattle.dem_force.specs.Sides.{AreSides};
ghost use Rattle.dem_force.specs.Stored.{AreStored};
ghost use Rattle.dem_plain.specs.Inside.{Holds, one_apart};

use crate::meeting::push_of;
use dem_force::{Spheres, add_push, no_loads};
use dem_model::{Body, Held, List, Load, OutOfMemory, Pair};
use dem_shape::{Shapes, is_apart};
use std::alloc::Global;

/// What the pairs so far have come to: a load per clump, and what is held of each pair that touches.
#[derive(Drop)]
pub struct Met {
    pub loads: Vec<Load>,
    pub held: List<Held>,
}

/// What all pairs of a step come to.
pub fn all_met(
    alloc: Global,
    shapes: &Shapes,
    spheres: &Spheres,
    bodies: &[Body],
    held: &[Held],
) -> Result<Met, OutOfMemory>
    requires centers { AreInside shapes.now spheres.now.centers }
    requires sides { AreSides shapes.now bodies.now spheres.now.sides }
    requires stored { AreStored held.now }
    ensures { IfOk result (Holds shapes.now bodies.now spheres.now.centers held.now (all_pairs shapes.now)) }
{
    let mut met = nothing_met(alloc, shapes)?;
    for a in 0..shapes.spheres() {
        meet_row(&mut met, shapes, spheres, bodies, held, a)?;
    }
    Ok(met)
}

/// No pair has met: a load of nothing per clump, and nothing held.
fn nothing_met(alloc: Global, shapes: &Shapes) -> Result<Met, OutOfMemory>
    ensures { IfOk result (λ met. (bodies : List Body) (centers : List Vec3) (held : List Held) → Holds shapes.now bodies centers held [] met) }
{
    Ok(Met {
        loads: no_loads(alloc, shapes)?,
        held: List::new(alloc),
    })
}

/// Adds the pairs of one sphere with all that is later.
fn meet_row(
    met: &mut Met,
    shapes: &Shapes,
    spheres: &Spheres,
    bodies: &[Body],
    held: &[Held],
    a: u32,
) -> Result<(), OutOfMemory>
    requires centers { AreInside shapes.now spheres.now.centers }
    requires sides { AreSides shapes.now bodies.now spheres.now.sides }
    requires stored { AreStored held.now }
    requires sphere { a < sphere_count shapes.now }
    requires before { Holds shapes.now bodies.now spheres.now.centers held.now (pairs_below shapes.now a) met.old }
    ensures { OnOk result (Holds shapes.now bodies.now spheres.now.centers held.now (pairs_below shapes.now (a + 1)) met.new) }
{
    let _scene = shapes.scene();
    let limit = shapes.spheres() + shapes.walls();
    for b in a + 1..limit {
        meet(met, shapes, spheres, bodies, held, Pair { a, b })?;
    }
    Ok(())
}

/// Adds one pair, if it is apart.
fn meet(
    met: &mut Met,
    shapes: &Shapes,
    spheres: &Spheres,
    bodies: &[Body],
    held: &[Held],
    pair: Pair,
) -> Result<(), OutOfMemory>
    requires centers { AreInside shapes.now spheres.now.centers }
    requires sides { AreSides shapes.now bodies.now spheres.now.sides }
    requires stored { AreStored held.now }
    requires first { pair.a < sphere_count shapes.now }
    requires second { pair.b < limit_of shapes.now }
    requires later { pair.a < pair.b }
    requires loads { AreLoads shapes.now met.old.loads.items }
    ensures { OnOk result ((ps : List Pair) → Holds shapes.now bodies.now spheres.now.centers held.now ps met.old → Holds shapes.now bodies.now spheres.now.centers held.now (ps ++ one_apart shapes.now pair) met.new) }
{
    if !is_apart(shapes, pair) {
        return Ok(());
    }
    let Some(push) = push_of(shapes, spheres, bodies, held, pair) else {
        return Ok(());
    };
    met.held.push(Held { pair, h: push.h })?;
    add_push(met.loads.as_mut_slice(), shapes, pair, &push);
    Ok(())
}

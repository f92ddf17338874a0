//! The meetings of a step on a list, pair by pair.

ghost use Rattle.std.specs.Prelude.{◌≡◌, ◌+◌, ◌^◌, ◌<◌, ◌≤◌, true, length, All, IfSome, replicate};
ghost use Rattle.dem_num.specs.Vectors.{widened, Within};
ghost use Rattle.dem_model.specs.Motion.{AreInside, IsPair};
ghost use Rattle.dem_model.specs.Step.{meeting, no_load};
ghost use Rattle.dem_force.specs.Loads.{AreLoads};
ghost use Rattle.dem_force.specs.Sides.{AreSides};
ghost use Rattle.dem_force.specs.Stored.{IsStored};
ghost use Rattle.dem_step.specs.Contacts.{ArePairs, held_by};
ghost use Rattle.dem_step.specs.Marks.{AreMarked};
ghost use Rattle.dem_step.specs.Inside.{loads_after, displacement_of, IsSmallMeeting, HaveMet};

use crate::marks::Marks;
use dem_force::{Spheres, add_push, pushed, pushed_uncounted};
use dem_hist::Contacts;
use dem_model::{Body, Load, Pair, Steps};
use dem_num::{Vec3, Wide3};
use dem_shape::Shapes;
use std::sync::ledger::{Blank, Ledger};

/// Puts what the pairs of the list come to: into `loads` the sums per clump, into `fresh` a displacement, or None, by place.
/// It looks at those pairs alone that the marks leave, and counts a test per pair that it looks at.
pub fn meet_all<L: Ledger>(
    loads: &mut [Load],
    fresh: &mut [Option<Vec3>],
    shapes: &Shapes,
    spheres: &Spheres,
    bodies: &[Body],
    contacts: &Contacts,
    marks: &Marks,
    tests: &mut Steps<L>,
)
    requires loads { length loads.old ≡ length shapes.now.clumps }
    requires fresh { length contacts.now.list.pairs ≤ length fresh.old }
    requires centers { AreInside shapes.now spheres.now.centers }
    requires sides { AreSides shapes.now bodies.now spheres.now.sides }
    requires pairs { ArePairs shapes.now contacts.now.list.pairs }
    requires within { All IsStored contacts.now.entries }
    requires marks { length contacts.now.list.pairs ≤ length marks.now.may.items }
    requires marked { AreMarked shapes.now spheres.now.centers contacts.now.list.pairs marks.now }
    ensures met { HaveMet shapes.now bodies.now spheres.now.centers (held_by contacts.now) contacts.now.list.pairs loads.new fresh.new }
    ensures room { length fresh.new ≡ length fresh.old }
    ensures counted { tests.new ≤ tests.old + length contacts.now.list.pairs }
{
    clear(loads);
    for i in 0..contacts.list().len() {
        if marks.is_met(i) {
            let pair = contacts.list().get(i);
            let held = contacts.held(i);
            fresh[i as usize] = meet(loads, shapes, spheres, bodies, pair, held, tests);
        } else {
            fresh[i as usize] = None;
        }
    }
}

/// As `meet_all`, unless that was done before, which `is_met` says.
pub fn meet_unless<L: Ledger>(
    is_met: bool,
    loads: &mut [Load],
    fresh: &mut [Option<Vec3>],
    shapes: &Shapes,
    spheres: &Spheres,
    bodies: &[Body],
    contacts: &Contacts,
    marks: &Marks,
    tests: &mut Steps<L>,
)
    requires loads { length loads.old ≡ length shapes.now.clumps }
    requires fresh { length contacts.now.list.pairs ≤ length fresh.old }
    requires centers { AreInside shapes.now spheres.now.centers }
    requires sides { AreSides shapes.now bodies.now spheres.now.sides }
    requires pairs { ArePairs shapes.now contacts.now.list.pairs }
    requires within { All IsStored contacts.now.entries }
    requires marks { length contacts.now.list.pairs ≤ length marks.now.may.items }
    requires marked { AreMarked shapes.now spheres.now.centers contacts.now.list.pairs marks.now }
    requires before { is_met ≡ true → HaveMet shapes.now bodies.now spheres.now.centers (held_by contacts.now) contacts.now.list.pairs loads.old fresh.old }
    ensures met { HaveMet shapes.now bodies.now spheres.now.centers (held_by contacts.now) contacts.now.list.pairs loads.new fresh.new }
    ensures room { length fresh.new ≡ length fresh.old }
    ensures counted { tests.new ≤ tests.old + length contacts.now.list.pairs }
{
    if is_met {
        return;
    }
    meet_all(
        loads, fresh, shapes, spheres, bodies, contacts, marks, tests,
    );
}

/// As `meet_all`, with a counter of tests over this blank that nobody reads.
pub fn meet_uncounted<L: Ledger>(
    loads: &mut [Load],
    fresh: &mut [Option<Vec3>],
    shapes: &Shapes,
    spheres: &Spheres,
    bodies: &[Body],
    contacts: &Contacts,
    marks: &Marks,
    blank: Blank,
)
    requires name { blank.name ≡ L.name }
    requires parts { blank.parts ≡ L.parts }
    requires some { 0 < L.parts }
    requires loads { length loads.old ≡ length shapes.now.clumps }
    requires fresh { length contacts.now.list.pairs ≤ length fresh.old }
    requires centers { AreInside shapes.now spheres.now.centers }
    requires sides { AreSides shapes.now bodies.now spheres.now.sides }
    requires pairs { ArePairs shapes.now contacts.now.list.pairs }
    requires within { All IsStored contacts.now.entries }
    requires marks { length contacts.now.list.pairs ≤ length marks.now.may.items }
    requires marked { AreMarked shapes.now spheres.now.centers contacts.now.list.pairs marks.now }
    ensures met { HaveMet shapes.now bodies.now spheres.now.centers (held_by contacts.now) contacts.now.list.pairs loads.new fresh.new }
    ensures room { length fresh.new ≡ length fresh.old }
{
    let mut tests = Steps::<L>::new(blank);
    meet_all(
        loads, fresh, shapes, spheres, bodies, contacts, marks, &mut tests,
    );
}

/// Sets each load to nothing.
pub fn clear(loads: &mut [Load])
    ensures { loads.new ≡ replicate (length loads.old) no_load }
{
    let nothing = Wide3 { x: 0, y: 0, z: 0 };
    loads.fill(Load {
        force: nothing,
        torque: nothing,
    });
}

/// Adds what a pair does to the loads of its clumps, and gives its displacement, where it touches.
fn meet<L: Ledger>(
    loads: &mut [Load],
    shapes: &Shapes,
    spheres: &Spheres,
    bodies: &[Body],
    pair: Pair,
    held: Option<Vec3>,
    tests: &mut Steps<L>,
) -> Option<Vec3>
    requires pair { IsPair shapes.now pair }
    requires centers { AreInside shapes.now spheres.now.centers }
    requires sides { AreSides shapes.now bodies.now spheres.now.sides }
    requires held { IsStored held }
    requires loads { AreLoads shapes.now loads.old }
    ensures loads { loads.new ≡ loads_after shapes.now loads.old (meeting shapes.now bodies.now spheres.now.centers pair held) }
    ensures entry { result ≡ displacement_of (meeting shapes.now bodies.now spheres.now.centers pair held) }
    ensures small { IsSmallMeeting (meeting shapes.now bodies.now spheres.now.centers pair held) }
    ensures counted { tests.new ≡ tests.old + 1 }
{
    let push = pushed(shapes, spheres, bodies, pair, held, tests)?;
    add_push(loads, shapes, pair, &push);
    Some(push.h)
}

/// Adds what a pair does to the loads of its clumps, and gives its displacement, where it touches; no test is counted.
pub fn meet_pair(
    loads: &mut [Load],
    shapes: &Shapes,
    spheres: &Spheres,
    bodies: &[Body],
    pair: Pair,
    held: Option<Vec3>,
) -> Option<Vec3>
    requires pair { IsPair shapes.now pair }
    requires centers { AreInside shapes.now spheres.now.centers }
    requires sides { AreSides shapes.now bodies.now spheres.now.sides }
    requires held { IsStored held }
    requires loads { AreLoads shapes.now loads.old }
    ensures loads { loads.new ≡ loads_after shapes.now loads.old (meeting shapes.now bodies.now spheres.now.centers pair held) }
    ensures entry { result ≡ displacement_of (meeting shapes.now bodies.now spheres.now.centers pair held) }
    ensures small { IsSmallMeeting (meeting shapes.now bodies.now spheres.now.centers pair held) }
{
    let push = pushed_uncounted(shapes, spheres, bodies, pair, held)?;
    add_push(loads, shapes, pair, &push);
    Some(push.h)
}

//! What the pairs of a list came to where the run stands, handed on to the next list: only what is new in it is met.

ghost use Rattle.std.specs.Prelude.{◌≡◌, ◌<◌, ◌≤◌, true, Some, None, All, IfSome, MatchOption, length, slice_get};
ghost use Rattle.std.specs.List.{Contains};
ghost use Rattle.dem_model.specs.Motion.{AreInside, IsPair};
ghost use Rattle.dem_model.specs.Step.{meeting};
ghost use Rattle.dem_force.specs.Loads.{AreLoads};
ghost use Rattle.dem_force.specs.Sides.{AreSides};
ghost use Rattle.dem_force.specs.Stored.{IsStored};
ghost use Rattle.dem_step.specs.Ahead.{CanHandOn, loads_past, entry_past};
ghost use Rattle.dem_step.specs.Contacts.{ArePairs, held_by};
ghost use Rattle.dem_step.specs.Inside.{loads_after, displacement_of, IsSmallMeeting, HaveMet};

use crate::meeting::meet_pair;
use dem_force::Spheres;
use dem_hist::{Contacts, are_same};
use dem_list::PairList;
use dem_model::{Body, Load, Pair};
use dem_num::Vec3;
use dem_shape::Shapes;

/// Makes of what the pairs of the old list came to what those of the list in use do, if the former have met, which `is_met` says.
/// There is room in `spare`, which takes the place of `fresh` where the lists differ. The drift limit stands here for what is promised.
pub fn hand_on(
    is_met: bool,
    loads: &mut [Load],
    fresh: &mut Vec<Option<Vec3>>,
    spare: &mut Vec<Option<Vec3>>,
    old: &PairList,
    drift: u32,
    shapes: &Shapes,
    spheres: &Spheres,
    bodies: &[Body],
    contacts: &Contacts,
)
    requires room { length contacts.now.list.pairs ≤ length spare.old.items }
    requires centers { AreInside shapes.now spheres.now.centers }
    requires sides { AreSides shapes.now bodies.now spheres.now.sides }
    requires pairs { ArePairs shapes.now contacts.now.list.pairs }
    requires within { All IsStored contacts.now.entries }
    requires may { is_met ≡ true → CanHandOn shapes.now drift bodies.now spheres.now.centers old.now contacts.now loads.old fresh.old.items }
    ensures met { is_met ≡ true → HaveMet shapes.now bodies.now spheres.now.centers (held_by contacts.now) contacts.now.list.pairs loads.new fresh.new.items }
    ensures room { length contacts.now.list.pairs ≤ length fresh.new.items }
{
    if !is_met {
        if fresh.len() < contacts.list().len() as usize {
            std::mem::swap(fresh, spare);
        }
        return;
    }
    if are_same(old, contacts.list()) {
        return;
    }
    meet_next(
        loads,
        spare.as_mut_slice(),
        fresh.as_slice(),
        old,
        drift,
        shapes,
        spheres,
        bodies,
        contacts,
    );
    std::mem::swap(fresh, spare);
}

/// Puts what the pairs of the list in use come to, where those of the old one have met. What is in the old list alone doesn't touch.
fn meet_next(
    loads: &mut [Load],
    fresh: &mut [Option<Vec3>],
    before: &[Option<Vec3>],
    old: &PairList,
    drift: u32,
    shapes: &Shapes,
    spheres: &Spheres,
    bodies: &[Body],
    contacts: &Contacts,
)
    requires fresh { length contacts.now.list.pairs ≤ length fresh.old }
    requires centers { AreInside shapes.now spheres.now.centers }
    requires sides { AreSides shapes.now bodies.now spheres.now.sides }
    requires pairs { ArePairs shapes.now contacts.now.list.pairs }
    requires within { All IsStored contacts.now.entries }
    requires may { CanHandOn shapes.now drift bodies.now spheres.now.centers old.now contacts.now loads.old before.now }
    ensures met { HaveMet shapes.now bodies.now spheres.now.centers (held_by contacts.now) contacts.now.list.pairs loads.new fresh.new }
    ensures room { length fresh.new ≡ length fresh.old }
{
    let _scene = shapes.scene();
    let _pairs = old.len();
    let mut at = 0;
    for i in 0..contacts.list().len() {
        let pair = contacts.list().get(i);
        let place = place_from(old, at, pair);
        fresh[i as usize] = entry_of(
            loads,
            before,
            place,
            shapes,
            spheres,
            bodies,
            pair,
            contacts.held(i),
        );
        at = next_place(place, at);
    }
}

/// The place of a pair in a list, which is looked for at this place first.
fn place_from(list: &PairList, at: u32, pair: Pair) -> Option<u32>
    ensures { MatchOption result (Contains list.now.pairs pair → ⊥) (λ i. slice_get list.now.pairs i ≡ Some pair) }
{
    if at < list.len() && list.get(at) == pair {
        return Some(at);
    }
    list.place(pair)
}

/// Where the next pair may stand: behind the last that was found.
fn next_place(place: Option<u32>, at: u32) -> u32 {
    match place {
        Some(place) => place.wrapping_add(1),
        None => at,
    }
}

/// What a pair comes to: what it came to before, where the old list has it at this place, and else it is met.
fn entry_of(
    loads: &mut [Load],
    before: &[Option<Vec3>],
    place: Option<u32>,
    shapes: &Shapes,
    spheres: &Spheres,
    bodies: &[Body],
    pair: Pair,
    held: Option<Vec3>,
) -> Option<Vec3>
    requires place { IfSome place (λ k. k < length before.now) }
    requires pair { IsPair shapes.now pair }
    requires centers { AreInside shapes.now spheres.now.centers }
    requires sides { AreSides shapes.now bodies.now spheres.now.sides }
    requires held { IsStored held }
    requires loads { AreLoads shapes.now loads.old }
    ensures loads { loads.new ≡ loads_past shapes.now loads.old place (meeting shapes.now bodies.now spheres.now.centers pair held) }
    ensures entry { result ≡ entry_past before.now place (meeting shapes.now bodies.now spheres.now.centers pair held) }
    ensures small { place ≡ None → IsSmallMeeting (meeting shapes.now bodies.now spheres.now.centers pair held) }
{
    match place {
        Some(place) => before[place as usize],
        None => meet_pair(loads, shapes, spheres, bodies, pair, held),
    }
}

//! The meetings of a step on a list, shared among threads: each sums those of a part of the list, and the sums are added.

ghost use Rattle.std.specs.Prelude.{◌≡◌, ◌+◌, ◌<◌, ◌≤◌, All, length};
ghost use Rattle.std.specs.Thread.{IsSync};
ghost use Rattle.dem_model.specs.Motion.{AreInside, IsPair};
ghost use Rattle.dem_model.specs.Step.{meeting};
ghost use Rattle.dem_force.specs.Loads.{AreLoads};
ghost use Rattle.dem_force.specs.Sides.{AreSides};
ghost use Rattle.dem_force.specs.Stored.{IsStored};
ghost use Rattle.dem_step.specs.Contacts.{ArePairs, held_by};
ghost use Rattle.dem_step.specs.Inside.{loads_after, displacement_of, IsSmallMeeting, HaveMet};
ghost use Rattle.dem_step.specs.Marks.{AreMarked};
ghost use Rattle.dem_step.specs.Felt.{AreFelt};
ghost use Rattle.dem_step.specs.Split.{pairs_between, IsReady};

use crate::adding::add_felt;
use crate::felt::Felt;
use crate::marks::Marks;
use crate::meeting::{clear, meet_pair};
use crate::room::make_room;
use dem_force::Spheres;
use dem_hist::Contacts;
use dem_model::{Body, End, Load, OutOfMemory, Pair};
use dem_num::{Vec3, WIDE_ZERO};
use dem_shape::Shapes;
use rayon::join_mut;
use std::alloc::Global;
use std::thread::Threads;

/// Where fewer pairs touched in the step before, one thread makes the step: to start threads takes longer.
const LEAST_SPLIT: usize = 4096;

/// How many parts the list of a split step has.
const PARTS: u32 = 4;

/// Why a split step wasn't made: it passes a limit, or its memory was refused; then a step that isn't split takes none.
#[derive(Clone, Copy, PartialEq, Debug)]
pub enum SplitStop {
    Ended(End),
    OutOfMemory,
}

/// Room for a split step, kept from one to the next: the sums of the parts of the list but the first. And how many pairs touched
/// in the last step.
#[derive(Drop)]
pub struct SplitRoom {
    pub sums: Vec<Load>,
    pub touching: u32,
}

impl SplitRoom {
    /// No room yet; it keeps `alloc` and takes no memory.
    pub fn new(alloc: Global) -> SplitRoom {
        SplitRoom {
            sums: Vec::new(alloc),
            touching: 0,
        }
    }

    /// Makes room for the sums of all parts but the first: all the memory of a step.
    pub fn gather(&mut self, shapes: &Shapes) -> Result<(), OutOfMemory> {
        let nothing = Load {
            force: WIDE_ZERO,
            torque: WIDE_ZERO,
        };
        let count = shapes.scene().clumps.len() as u32;
        make_room(&mut self.sums, nothing, count.saturating_mul(PARTS - 1))
    }
}

/// Puts what the pairs of the list come to, as a step that isn't split does: into `loads` the sums per clump, into `fresh` a
/// displacement, or None, by place.
pub fn meet_split<R: Threads + Sync>(
    rt: &R,
    room: &mut SplitRoom,
    loads: &mut [Load],
    fresh: &mut [Option<Vec3>],
    shapes: &Shapes,
    spheres: &Spheres,
    bodies: &[Body],
    contacts: &Contacts,
    marks: &Marks,
)
    requires loads { length loads.old ≡ length shapes.now.clumps }
    requires fresh { length contacts.now.list.pairs ≤ length fresh.old }
    requires centers { AreInside shapes.now spheres.now.centers }
    requires sides { AreSides shapes.now bodies.now spheres.now.sides }
    requires pairs { ArePairs shapes.now contacts.now.list.pairs }
    requires within { All IsStored contacts.now.entries }
    requires marks { length contacts.now.list.pairs ≤ length marks.now.may.items }
    requires marked { AreMarked shapes.now spheres.now.centers contacts.now.list.pairs marks.now }
    ensures met { HaveMet shapes.now bodies.now spheres.now.centers (held_by contacts.now) contacts.now.list.pairs loads.new fresh.new }
    ensures room { length fresh.new ≡ length fresh.old }
{
    let parts = parts_of(room.touching, loads.len());
    let pairs = contacts.list().len();
    let felt = meet_part(
        rt,
        parts,
        pairs / PARTS,
        0,
        pairs,
        shapes,
        spheres,
        bodies,
        contacts,
        marks,
        loads,
        room.sums.as_mut_slice(),
        fresh,
    );
    room.touching = felt.touching;
}

/// How many parts the list of a step has, by how many pairs touched in the step before: one where they are few, by themselves or
/// beside the clumps, since the sums of each part are added clump by clump.
fn parts_of(touching: u32, clumps: usize) -> u32 {
    if (touching as usize) < LEAST_SPLIT.max(clumps) {
        1
    } else {
        PARTS
    }
}

/// The meetings of the pairs from place `from` to before place `to`, in so many parts of this size, the last of which has all that
/// is left, or in one where there is no room for more sums. It tells how many of them touch, and which clumps they push.
#[cycle(parts)]
fn meet_part<R: Threads + Sync>(
    rt: &R,
    parts: u32,
    size: u32,
    from: u32,
    to: u32,
    shapes: &Shapes,
    spheres: &Spheres,
    bodies: &[Body],
    contacts: &Contacts,
    marks: &Marks,
    loads: &mut [Load],
    sums: &mut [Load],
    fresh: &mut [Option<Vec3>],
) -> Felt
    requires ready { IsReady shapes.now bodies.now spheres.now contacts.now marks.now }
    requires order { from ≤ to }
    requires there { to ≤ length contacts.now.list.pairs }
    requires loads { length loads.old ≡ length shapes.now.clumps }
    requires fresh { to ≤ length fresh.old + from }
    ensures felt { AreFelt result loads.new }
    ensures met { HaveMet shapes.now bodies.now spheres.now.centers (held_by contacts.now) (pairs_between from to contacts.now.list.pairs) loads.new fresh.new }
    ensures room { length fresh.new ≡ length fresh.old }
{
    if parts <= 1 || sums.len() < loads.len() {
        return meet_range(
            from, to, shapes, spheres, bodies, contacts, marks, loads, fresh,
        );
    }
    let (own, rest) = sums.split_at_mut(loads.len());
    let low = size.min(to - from);
    let (front, back) = fresh.split_at_mut(low as usize);
    let (here, there) = meet_both(
        rt,
        parts,
        size,
        from,
        from + low,
        to,
        shapes,
        spheres,
        bodies,
        contacts,
        marks,
        loads,
        own,
        rest,
        front,
        back,
    );
    add_felt(loads, own, &there);
    here.both(there)
}

/// The meetings of a part of the list and of those behind it, side by side: the part in another thread, where one can be made. So this thread
/// starts them all.
#[cycle(parts)]
fn meet_both<R: Threads + Sync>(
    rt: &R,
    parts: u32,
    size: u32,
    from: u32,
    middle: u32,
    to: u32,
    shapes: &Shapes,
    spheres: &Spheres,
    bodies: &[Body],
    contacts: &Contacts,
    marks: &Marks,
    loads: &mut [Load],
    own: &mut [Load],
    rest: &mut [Load],
    front: &mut [Option<Vec3>],
    back: &mut [Option<Vec3>],
) -> (Felt, Felt)
    requires parts { 1 < parts }
    requires ready { IsReady shapes.now bodies.now spheres.now contacts.now marks.now }
    requires first { from ≤ middle }
    requires second { middle ≤ to }
    requires there { to ≤ length contacts.now.list.pairs }
    requires loads { length loads.old ≡ length shapes.now.clumps }
    requires own { length own.old ≡ length shapes.now.clumps }
    requires front { middle ≤ length front.old + from }
    requires back { to ≤ length back.old + middle }
    ensures front_felt { AreFelt result.0 loads.new }
    ensures back_felt { AreFelt result.1 own.new }
    ensures front { HaveMet shapes.now bodies.now spheres.now.centers (held_by contacts.now) (pairs_between from middle contacts.now.list.pairs) loads.new front.new }
    ensures back { HaveMet shapes.now bodies.now spheres.now.centers (held_by contacts.now) (pairs_between middle to contacts.now.list.pairs) own.new back.new }
    ensures front_room { length front.new ≡ length front.old }
    ensures back_room { length back.new ≡ length back.old }
{
    let mut first = || -> Felt
        requires { IsReady shapes.now bodies.now spheres.now contacts.now marks.now × (from ≤ middle) × (middle ≤ length contacts.now.list.pairs) × (length loads.now ≡ length shapes.now.clumps) × (middle ≤ length front.now + from) }
        ensures { AreFelt result loads.exit.now × HaveMet shapes.entry.now bodies.entry.now spheres.entry.now.centers (held_by contacts.entry.now) (pairs_between from middle contacts.entry.now.list.pairs) loads.exit.now front.exit.now × (length front.exit.now ≡ length front.entry.now) }
    {
        meet_range(
            from, middle, shapes, spheres, bodies, contacts, marks, loads, front,
        )
    };
    let mut second = || -> Felt
        requires { IsSync R.row × (1 < parts) × IsReady shapes.now bodies.now spheres.now contacts.now marks.now × (middle ≤ to) × (to ≤ length contacts.now.list.pairs) × (length own.now ≡ length shapes.now.clumps) × (to ≤ length back.now + middle) }
        ensures { AreFelt result own.exit.now × HaveMet shapes.entry.now bodies.entry.now spheres.entry.now.centers (held_by contacts.entry.now) (pairs_between middle to contacts.entry.now.list.pairs) own.exit.now back.exit.now × (length back.exit.now ≡ length back.entry.now) }
    {
        meet_part(
            rt,
            parts - 1,
            size,
            middle,
            to,
            shapes,
            spheres,
            bodies,
            contacts,
            marks,
            own,
            rest,
            back,
        )
    };
    join_mut(rt, &mut first, &mut second)
}

/// The meetings of a part of the list on this thread; it tells how many pairs touch, and which clumps they push.
fn meet_range(
    from: u32,
    to: u32,
    shapes: &Shapes,
    spheres: &Spheres,
    bodies: &[Body],
    contacts: &Contacts,
    marks: &Marks,
    loads: &mut [Load],
    fresh: &mut [Option<Vec3>],
) -> Felt
    requires ready { IsReady shapes.now bodies.now spheres.now contacts.now marks.now }
    requires order { from ≤ to }
    requires there { to ≤ length contacts.now.list.pairs }
    requires loads { length loads.old ≡ length shapes.now.clumps }
    requires fresh { to ≤ length fresh.old + from }
    ensures felt { AreFelt result loads.new }
    ensures met { HaveMet shapes.now bodies.now spheres.now.centers (held_by contacts.now) (pairs_between from to contacts.now.list.pairs) loads.new fresh.new }
    ensures room { length fresh.new ≡ length fresh.old }
{
    clear(loads);
    let mut felt = Felt::nothing();
    for i in from..to {
        if marks.is_met(i) {
            let pair = contacts.list().get(i);
            let held = contacts.held(i);
            let entry = meet_pair(loads, shapes, spheres, bodies, pair, held);
            felt = felt.after(&entry, shapes, pair);
            fresh[(i - from) as usize] = entry;
        } else {
            fresh[(i - from) as usize] = None;
        }
    }
    felt
}

//! Packings: what is refused, and the stands of the others.
ghost use Rattle.std.specs.Prelude.{◌≡◌, ◌≤◌, ◌<◌, ◌+◌, ◌^◌, All, IfOk, length, unsigned_abs};
ghost use Rattle.dem_model.specs.Cells.{Lattice, cells_of, extent_of, region_between};
ghost use Rattle.dem_model.specs.Packing.{IsPacking, first_stands};
ghost use Rattle.dem_model.specs.declared.limits.TheConstants.{MAX_BALLS};
ghost use Rattle.dem_model.specs.Stands.{CanStand, with_stands};
ghost use Rattle.dem_pack.specs.Asks.{Answers, IsAsk, answer_of, fits_axis, fits_box, is_one_sphere, lattice_of, stands_in, stands_of, suits};
ghost use Rattle.dem_pack.specs.Starts.{BeginsApart};
ghost use Rattle.dem_pack.specs.Layouts.{IsLayout, IsSized, IsStretch, lattice_in, region_in};

use crate::ask::{Ask, Kind, PackFault};
use crate::extent::extent;
use crate::layout::Layout;
use crate::place::Stretch;
use crate::rise::rise;
use dem_model::{Ball, List, MAX_SPHERES, OutOfMemory, Scene, Stand, VOXEL};
use dem_num::Vec3;
use std::alloc::Global;

// Whether a stretch isn't turned over, and ends within so many voxels.
#[tactic(auto, unfolding(crate::specs::Asks::fits_axis))]
fn fits_axis(low: i64, high: i64, voxels: u32) -> bool
    ensures { result ≡ fits_axis low high voxels }
{
    low <= high && high <= (u64::from(voxels) * VOXEL) as i64
}

// Whether the region is in the box.
#[tactic(auto, unfolding(crate::specs::Asks::fits_box))]
fn fits_box(scene: &Scene, ask: &Ask) -> bool
    ensures { result ≡ fits_box scene.now ask.now }
{
    fits_axis(ask.lo.x, ask.hi.x, scene.nx)
        && fits_axis(ask.lo.y, ask.hi.y, scene.ny)
        && fits_axis(ask.lo.z, ask.hi.z, scene.nz)
}

// Whether a template is one sphere without an offset.
#[tactic(auto, unfolding(crate::specs::Asks::is_one_sphere))]
fn is_one_sphere(balls: &[Ball]) -> bool
    ensures { result ≡ is_one_sphere balls.now }
{
    match balls {
        [ball] => ball.at.x == 0 && ball.at.y == 0 && ball.at.z == 0,
        _ => false,
    }
}

// Whether a template suits the kind.
#[tactic(auto, unfolding(crate::specs::Asks::suits))]
fn suits(kind: Kind, balls: &[Ball]) -> bool
    ensures { result ≡ suits kind balls.now }
{
    match kind {
        Kind::Grid => true,
        Kind::Staggered => is_one_sphere(balls),
    }
}

// The stretch between two components of corners.
fn stretch(low: i64, high: i64) -> Stretch
    requires low { unsigned_abs low ≤ 2 ^ 36 }
    requires high { unsigned_abs high ≤ 2 ^ 36 }
    ensures stretch { IsStretch result }
    ensures low { result.low ≡ unsigned_abs low }
    ensures high { result.high ≡ unsigned_abs high }
{
    Stretch {
        low: low.unsigned_abs(),
        high: high.unsigned_abs(),
    }
}

/// The layout of an ask, for a template of this extent.
#[tactic(auto, unfolding(crate::specs::Asks::lattice_of, dem_model::specs::Cells::grid, dem_model::specs::Cells::staggered, dem_model::specs::Cells::pitch_of))]
pub(crate) fn layout(ask: &Ask, extent: u64) -> Layout
    requires ask { IsAsk ask.now }
    requires some { 1 ≤ extent }
    requires few { extent ≤ 2 ^ 27 }
    ensures lattice { lattice_in result ≡ lattice_of ask.now.kind extent ask.now.gap }
    ensures region { region_in result ≡ region_between ask.now.lo ask.now.hi }
    ensures layout { IsLayout result }
{
    let pitch = 2 * extent + u64::from(ask.gap);
    let (shift, rise) = match ask.kind {
        Kind::Grid => (0, pitch),
        Kind::Staggered => (pitch / 2, rise(pitch)),
    };
    Layout {
        extent,
        pitch,
        shift,
        rise,
        x: stretch(ask.lo.x, ask.hi.x),
        y: stretch(ask.lo.y, ask.hi.y),
        z: stretch(ask.lo.z, ask.hi.z),
    }
}

// The stands at the first cells.
#[tactic(auto, unfolding(dem_model::specs::Packing::first_stands))]
fn first_stands(alloc: Global, layout: &Layout, ask: &Ask) -> Result<List<Stand>, OutOfMemory>
    requires layout { IsLayout layout.now }
    requires region { region_in layout.now ≡ region_between ask.now.lo ask.now.hi }
    requires room { ask.now.count ≤ length (cells_of (lattice_in layout.now) (region_in layout.now)) }
    ensures { IfOk result (λ stands. stands ≡ first_stands (lattice_in layout.now) ask.now.lo ask.now.hi ask.now.t ask.now.count) }
{
    let mut stands = List::new(alloc);
    for n in 0..ask.count {
        stands.push(Stand {
            t: ask.t,
            p: layout.cell(u64::from(n)),
        })?;
    }
    Ok(stands)
}

// The stands at the first cells, where there are enough cells.
#[tactic(auto, unfolding(crate::specs::Asks::stands_in))]
fn stands_in(alloc: Global, layout: &Layout, ask: &Ask) -> Result<List<Stand>, PackFault>
    requires ask { IsAsk ask.now }
    requires layout { IsLayout layout.now }
    requires region { region_in layout.now ≡ region_between ask.now.lo ask.now.hi }
    ensures { Answers (stands_in (lattice_in layout.now) ask.now) result }
{
    let cells = layout.cells();
    if cells < u128::from(ask.count) {
        return Err(PackFault::Room {
            cells: cells as u32,
        });
    }
    Ok(first_stands(alloc, layout, ask)?)
}

// The stands of a template of these spheres.
#[tactic(auto, unfolding(crate::specs::Asks::stands_of))]
fn stands_of(alloc: Global, balls: &[Ball], ask: &Ask) -> Result<List<Stand>, PackFault>
    requires ask { IsAsk ask.now }
    requires some { 1 ≤ length balls.now }
    requires few { length balls.now ≤ MAX_BALLS }
    requires sized { All IsSized balls.now }
    ensures { Answers (stands_of balls.now ask.now) result }
{
    if !suits(ask.kind, balls) {
        return Err(PackFault::Shape);
    }
    if MAX_SPHERES < ask.count as usize * balls.len() {
        return Err(PackFault::Spheres);
    }
    stands_in(alloc, &layout(ask, extent(balls)), ask)
}

/// The first cells of the region, as many as are asked for; or the first refusal that holds.
#[tactic(auto, unfolding(crate::specs::Asks::answer_of))]
pub fn pack(alloc: Global, scene: &Scene, ask: &Ask) -> Result<List<Stand>, PackFault>
    requires { IsAsk ask.now }
    ensures answer { Answers (answer_of scene.now ask.now) result }
    ensures count { IfOk result (λ stands. length stands ≡ ask.now.count) }
    ensures packing { IfOk result (λ stands. IsPacking ask.now.lo ask.now.hi ask.now.gap scene.now.templates stands) }
    ensures sound { IfOk result (λ stands. CanStand scene.now stands) }
    ensures untouched { IfOk result (λ stands. BeginsApart (with_stands scene.now stands)) }
{
    if ask.t as usize >= scene.templates.len() {
        return Err(PackFault::Index);
    }
    if !fits_box(scene, ask) {
        return Err(PackFault::Region);
    }
    let template = scene.templates.get(ask.t as usize);
    stands_of(alloc, template.balls.as_slice(), ask)
}

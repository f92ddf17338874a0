//! The move of a stored form.

ghost use Rattle.std.specs.Prelude.{◌≡◌, ◌^◌, IfSome};
ghost use Rattle.dem_num.specs.Vectors.{widened, sum_of, Within};
ghost use Rattle.dem_model.specs.Position.{in_voxels};
ghost use Rattle.dem_model.specs.Sound.{IsFrom};
ghost use Rattle.dem_model.specs.declared.limits.TheConstants.{MAX_VOXELS};
ghost use Rattle.dem_voxel.specs.Voxel.{unpacked, in_box_of, packed_in};

use crate::position::{VoxelPos, pack, unpack};
use dem_model::VOXEL;
use dem_num::{Vec3, add3_short};

/// The stored form moved by `d`, in u, in a box of this many voxels on the axes; None exactly where the sum lies outside it.
#[tactic(auto, unfolding(crate::specs::Voxel::packed_in))]
pub fn moved(v: VoxelPos, d: Vec3, nx: u32, ny: u32, nz: u32) -> Option<VoxelPos>
    requires small { Within (widened d) (2 ^ 25) }
    requires nx { IsFrom 1 MAX_VOXELS nx }
    requires ny { IsFrom 1 MAX_VOXELS ny }
    requires nz { IsFrom 1 MAX_VOXELS nz }
    ensures value { result ≡ packed_in nx ny nz (sum_of (unpacked v) (widened d)) }
    ensures sum { IfSome result (λ w. unpacked w ≡ sum_of (unpacked v) (widened d)) }
{
    let p = add3_short(unpack(v), d);
    if is_in_box(p, nx, ny, nz) {
        Some(pack(p))
    } else {
        None
    }
}

/// Whether a place lies in a box of this many voxels on the axes.
#[tactic(auto, unfolding(crate::specs::Voxel::in_box_of))]
fn is_in_box(p: Vec3, nx: u32, ny: u32, nz: u32) -> bool
    ensures { result ≡ in_box_of nx ny nz (widened p) }
{
    is_in(p.x, nx) && is_in(p.y, ny) && is_in(p.z, nz)
}

/// Whether a component lies in the box, on an axis of `n` voxels.
#[tactic(auto, unfolding(dem_model::specs::Position::in_voxels))]
fn is_in(z: i64, n: u32) -> bool
    ensures { result ≡ in_voxels n z }
{
    z >= 0 && (z as u64) < n as u64 * VOXEL
}

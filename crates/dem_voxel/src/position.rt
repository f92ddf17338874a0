//! The stored form of a position.

ghost use Rattle.std.specs.Prelude.{◌≡◌, ◌<◌, ◌^◌, true};
ghost use Rattle.dem_num.specs.Numbers.{AtMost};
ghost use Rattle.dem_num.specs.Vectors.{widened, Within};
ghost use Rattle.dem_model.specs.Position.{in_voxels, voxel_of, voxel_offset_of};
ghost use Rattle.dem_model.specs.declared.limits.TheConstants.{MAX_VOXELS, VOXEL};
ghost use Rattle.dem_voxel.specs.Voxel.{packed, unpacked, component_at, is_packable};

use dem_model::VOXEL;
use dem_num::Vec3;

/// How much greater a voxel's number is one voxel further on y.
const ROW: u64 = 1_048_576;
/// How much greater a voxel's number is one voxel further on z.
const LAYER: u64 = 1_099_511_627_776;

/// A position: the number of its voxel, `ix + iy * 2^20 + iz * 2^40`, and how far it lies past the voxel's beginning, in u.
#[derive(Clone, Copy, PartialEq, Debug)]
pub struct VoxelPos {
    pub id: u64,
    pub ox: u16,
    pub oy: u16,
    pub oz: u16,
}

/// The stored form of a position in u; each component is in `0..2^36`.
#[tactic(auto, unfolding(crate::specs::Voxel::packed, crate::specs::Voxel::voxel_id))]
pub fn pack(p: Vec3) -> VoxelPos
    requires { is_packable (widened p) ≡ true }
    ensures value { result ≡ packed (widened p) }
    ensures back { unpacked result ≡ widened p }
{
    VoxelPos {
        id: voxel(p.x) + voxel(p.y) * ROW + voxel(p.z) * LAYER,
        ox: offset(p.x),
        oy: offset(p.y),
        oz: offset(p.z),
    }
}

/// The position of a stored form, in u.
pub fn unpack(v: VoxelPos) -> Vec3
    ensures value { widened result ≡ unpacked v }
    ensures size { Within (widened result) (2 ^ 40) }
    ensures back { packed (widened result) ≡ v }
{
    Vec3 {
        x: component(v.id % ROW, v.ox),
        y: component(v.id / ROW % ROW, v.oy),
        z: component(v.id / LAYER, v.oz),
    }
}

/// The voxel of a component, along its axis.
#[tactic(auto, unfolding(dem_model::specs::Position::in_voxels, dem_model::specs::Position::voxel_of))]
fn voxel(x: i64) -> u64
    requires { in_voxels MAX_VOXELS x ≡ true }
    ensures value { result ≡ voxel_of x }
    ensures size { result < 2 ^ 20 }
{
    x as u64 / VOXEL
}

/// How far a component lies past the beginning of its voxel.
#[tactic(auto, unfolding(dem_model::specs::Position::in_voxels, dem_model::specs::Position::voxel_offset_of))]
fn offset(x: i64) -> u16
    requires { in_voxels MAX_VOXELS x ≡ true }
    ensures { result ≡ voxel_offset_of x }
{
    (x as u64 % VOXEL) as u16
}

/// The component that lies so far past the beginning of a voxel.
#[tactic(auto, unfolding(crate::specs::Voxel::component_at))]
fn component(voxel: u64, offset: u16) -> i64
    requires { voxel < 2 ^ 24 }
    ensures value { result ≡ component_at voxel offset }
    ensures size { AtMost result (2 ^ 40) }
    ensures within { offset < VOXEL }
{
    (voxel * VOXEL + offset as u64) as i64
}

//! The greatest counts and sizes of a scene, each in one place.

/// Bytes of a scene text.
pub const MAX_TEXT: usize = 16_777_216;
/// Voxels on one axis of the box.
pub const MAX_VOXELS: u32 = 1_048_576;
/// The length of a voxel's edge, in u.
pub const VOXEL: u64 = 65_536;
/// One u per step, as a velocity counts it.
pub const VELOCITY_UNIT: u64 = 65_536;
/// Steps of a run.
pub const MAX_STEPS: u32 = 1_000_000_000;
/// The speed limit, in u per step times 2^16.
pub const MAX_SPEED: u64 = 1_099_511_627_776;
/// The spin limit, in radians per step times 2^30.
pub const MAX_SPIN: u64 = 268_435_456;
/// A component of gravity, in velocity units per step.
pub const MAX_GRAVITY: u64 = 1_048_576;
/// Materials of a scene.
pub const MAX_MATERIALS: usize = 64;
/// Stiffness of a material, normal or tangential.
pub const MAX_STIFFNESS: u32 = 268_435_456;
/// Damping, friction or rolling resistance of a material, times 2^16.
pub const MAX_RATIO: u32 = 262_144;
/// Templates of a scene.
pub const MAX_TEMPLATES: usize = 256;
/// Mass of a template, in mass units.
pub const MAX_MASS: u64 = 1_099_511_627_776;
/// Moment of inertia of a template, in 2^14 mass units times u squared.
pub const MAX_MOMENT: u64 = 4_611_686_018_427_387_904;
/// Spheres of a template.
pub const MAX_BALLS: usize = 16;
/// A component of a sphere's offset, in u.
pub const MAX_OFFSET: u64 = 67_108_864;
/// A sphere's radius, in u.
pub const MAX_RADIUS: u32 = 67_108_864;
/// Walls of a scene.
pub const MAX_WALLS: usize = 64;
/// A component of a wall's point, in u.
pub const MAX_POINT: u64 = 68_719_476_736;
/// A component of a plane's direction.
pub const MAX_DIRECTION: u64 = 1_048_576;
/// A cylinder's radius, in u.
pub const MAX_CYLINDER: u64 = 34_359_738_368;
/// Clumps of a scene.
pub const MAX_CLUMPS: usize = 16_384;
/// Spheres of all clumps together.
pub const MAX_SPHERES: usize = 32_768;
/// The number of a family.
pub const MAX_FAMILY: u32 = 15;
/// Motions of a scene.
pub const MAX_MOTIONS: usize = 16;
/// Pairs of families that are off.
pub const MAX_OFF: usize = 136;
/// The least squared length of a quaternion.
pub const MIN_NORM2: u64 = 288_230_376_151_711_744;
/// The greatest squared length of a quaternion.
pub const MAX_NORM2: u64 = 4_611_686_018_427_387_904;
/// One, as a component of a normal or of a matrix.
pub const UNIT: u64 = 1_073_741_824;
/// The greatest overlap with a wall, in u.
pub const MAX_OVERLAP: u64 = 134_217_728;
/// The greatest component of a tangential displacement, in u times 2^16.
pub const MAX_DISPLACEMENT: u64 = 1_099_511_627_776;
/// The greatest normal force, and the greatest component of a tangential force before friction bounds it.
pub const MAX_FORCE: u64 = 4_611_686_018_427_387_904;
/// The greatest component of a torque that turns a clump.
pub const MAX_TORQUE: u128 = 1_237_940_039_285_380_274_899_124_224;
/// The greatest drift limit: for how many steps a list of pairs may be used.
pub const MAX_DRIFT: u32 = 1_024;

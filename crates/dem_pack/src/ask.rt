//! What is asked of a packing, and why it may be refused.
use dem_model::OutOfMemory;
use dem_num::Vec3;

/// How cells follow each other: on a grid, or in layers of which every other is shifted.
#[derive(Clone, Copy, PartialEq, Debug)]
pub enum Kind {
    Grid,
    Staggered,
}

/// So many clumps of the template `t`, between the corners `lo` and `hi`, with `gap` between them.
#[derive(Clone, Copy, PartialEq, Debug)]
pub struct Ask {
    pub kind: Kind,
    pub t: u32,
    pub gap: u32,
    pub lo: Vec3,
    pub hi: Vec3,
    pub count: u32,
}

/// Why there is no packing.
#[derive(Clone, Copy, PartialEq, Debug)]
pub enum PackFault {
    /// The template isn't there.
    Index,
    /// The region is turned over or leaves the box.
    Region,
    /// Staggered layers want a template of one sphere without an offset.
    Shape,
    /// A scene can't have so many spheres.
    Spheres,
    /// The region has only so many cells.
    Room { cells: u32 },
    OutOfMemory,
}

impl From<OutOfMemory> for PackFault {
    ghost use Rattle.std.specs.Prelude.{◌≡◌};
    ghost use Rattle.dem_pack.specs.declared.ask.PackFault.TheVariants as faults;

    ghost from_gives = { λ _ fault. fault ≡ faults.OutOfMemory };

    fn from(_: OutOfMemory) -> PackFault {
        PackFault::OutOfMemory
    }
}

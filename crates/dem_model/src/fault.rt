//! Why a scene text is refused, and at which place.

use crate::list::OutOfMemory;

/// A name of the scene text, or of a place in it.
#[derive(Clone, Copy, PartialEq, Debug)]
pub enum Name {
    Scene,
    Version,
    Box,
    Steps,
    Every,
    Speed,
    Spin,
    Gravity,
    Materials,
    MaterialsKn,
    MaterialsKt,
    MaterialsBn,
    MaterialsBt,
    MaterialsMu,
    MaterialsMr,
    Templates,
    TemplatesMass,
    TemplatesMoments,
    TemplatesSpheres,
    TemplatesSpheresAt,
    TemplatesSpheresR,
    TemplatesSpheresMat,
    Walls,
    WallsForm,
    WallsPlane,
    WallsPlaneAt,
    WallsPlaneDir,
    WallsCylinder,
    WallsCylinderAxis,
    WallsCylinderAt,
    WallsCylinderR,
    WallsMat,
    Families,
    FamiliesId,
    FamiliesV,
    FamiliesW,
    Off,
    Clumps,
    ClumpsT,
    ClumpsFamily,
    ClumpsP,
    ClumpsV,
    ClumpsQ,
    ClumpsW,
    ClumpsTotal,
}

/// A place in the scene text: a name, the number of the outer element and of the inner one, 0 where there is none.
#[derive(Clone, Copy, PartialEq, Debug)]
pub struct Spot {
    pub name: Name,
    pub i: u32,
    pub j: u32,
}

/// The first thing that is wrong with a scene text; want of memory is no fault of the text.
#[derive(Clone, Copy, PartialEq, Debug)]
pub enum SceneFault {
    /// The text is longer than 16,777,216 bytes.
    TooLong,
    /// The text isn't JSON.
    NotJson,
    /// A value is missing or not of its kind.
    Field { which: Spot },
    /// An object has a name that its table doesn't have.
    Unknown { which: Spot },
    /// A number is out of its range.
    Range { which: Spot },
    /// A number is no index of its list.
    Index { which: Spot },
    /// A list is too short or too long.
    Count { which: Spot },
    /// The version is neither 1 nor 2.
    Version,
    /// A clump is faster or spins faster than the scene's limits.
    OverLimit { clump: u32 },
    /// A clump's position or a center of one of its spheres lies outside the box.
    OutsideBox { clump: u32 },
    /// Memory was refused.
    OutOfMemory,
}

impl From<OutOfMemory> for SceneFault {
    ghost use Rattle.std.specs.Prelude.{◌≡◌};
    ghost use Rattle.dem_model.specs.declared.fault.SceneFault.TheVariants as faults;

    ghost from_gives = { λ _ fault. fault ≡ faults.OutOfMemory };

    fn from(_: OutOfMemory) -> SceneFault {
        SceneFault::OutOfMemory
    }
}

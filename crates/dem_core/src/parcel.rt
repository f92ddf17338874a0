//! The parcel of the exchange: a snapshot, the buffer of a list, and where it is.

ghost use Rattle.std.specs.Prelude.{◌≡◌, [], IfOk, replicate};
ghost use Rattle.dem_model.specs.Centers.{still_body};
ghost use Rattle.dem_model.specs.World.{is_home as is_home_of, is_posted as is_posted_of, is_taken as is_taken_of, is_delivered as is_delivered_of};
ghost use Rattle.dem_shape.specs.declared.snapshot.Snapshot.{Snapshot};
ghost use Rattle.dem_core.specs.declared.parcel.Place.TheVariants.{Home};
ghost use Rattle.dem_core.specs.Worlds.{parcel_of};

use dem_list::PairList;
use dem_model::OutOfMemory;
use dem_shape::Snapshot;
use std::alloc::Global;

/// Where the parcel is.
#[derive(Clone, Copy, PartialEq, Debug)]
pub(crate) enum Place {
    /// At home, with nothing to say.
    Home,
    /// It has a snapshot that kinematics hasn't taken yet.
    Posted,
    /// Kinematics has it, and has no list of its snapshot yet.
    Taken,
    /// It has the list of its snapshot.
    Delivered,
}

impl Place {
    /// Whether the parcel is at home.
    #[tactic(auto, unfolding(dem_model::specs::World::is_home, crate::specs::Worlds::parcel_of))]
    pub(crate) fn is_home(self) -> bool
        ensures { (snap : Snapshot) → result ≡ is_home_of (parcel_of self snap) }
    {
        matches!(self, Place::Home)
    }

    /// Whether the parcel was posted, and not taken yet.
    #[tactic(auto, unfolding(dem_model::specs::World::is_posted, crate::specs::Worlds::parcel_of))]
    pub(crate) fn is_posted(self) -> bool
        ensures { (snap : Snapshot) → result ≡ is_posted_of (parcel_of self snap) }
    {
        matches!(self, Place::Posted)
    }

    /// Whether kinematics has the parcel.
    #[tactic(auto, unfolding(dem_model::specs::World::is_taken, crate::specs::Worlds::parcel_of))]
    pub(crate) fn is_taken(self) -> bool
        ensures { (snap : Snapshot) → result ≡ is_taken_of (parcel_of self snap) }
    {
        matches!(self, Place::Taken)
    }

    /// Whether the parcel was delivered, and not collected yet.
    #[tactic(auto, unfolding(dem_model::specs::World::is_delivered, crate::specs::Worlds::parcel_of))]
    pub(crate) fn is_delivered(self) -> bool
        ensures { (snap : Snapshot) → result ≡ is_delivered_of (parcel_of self snap) }
    {
        matches!(self, Place::Delivered)
    }
}

/// A snapshot, and a list or the buffer of one.
#[derive(Drop)]
pub(crate) struct Parcel {
    pub(crate) place: Place,
    pub(crate) snap: Snapshot,
    pub(crate) list: PairList,
}

impl Parcel {
    /// A parcel at home, with room for this many bodies.
    pub(crate) fn new(alloc: Global, clumps: u32) -> Result<Parcel, OutOfMemory>
        ensures { IfOk result (λ parcel. parcel ≡ record { place = Home; snap = record { step = 0; bodies = replicate clumps still_body }; list = record { from = 0; pairs = [] } }) }
    {
        Ok(Parcel {
            place: Place::Home,
            snap: Snapshot::new(alloc, clumps)?,
            list: PairList::empty(alloc),
        })
    }
}

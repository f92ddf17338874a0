//! What travels between the two threads.

use dem_list::PairList;
use dem_shape::Snapshot;

/// A snapshot of dynamics, the list of its near pairs that kinematics made, and whether memory for that list was refused.
#[derive(Drop)]
pub struct Parcel {
    pub snap: Snapshot,
    pub list: PairList,
    pub refused: bool,
}

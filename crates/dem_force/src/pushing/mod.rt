//! What a touching pair does: the two sides, the law between them, and the force, the torques and the new displacement.

pub mod law;
pub mod meeting;
pub mod mixing;
pub mod motion;
pub mod narrow;
pub mod normal;
pub mod pairwise;
pub mod push;
pub mod rolling;
pub mod side_list;
pub mod sides;
pub mod sliding;
pub mod spheres;

//! What all contacts of a step do to each clump.

pub mod loads;

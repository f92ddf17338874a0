//! Tests of the calls below the run, by worked values.
//!
//! One module for each crate that is tested. A crate with tests of its own is proved a second time for them; here only the tests are.
//! Not here: tests of what is private to a crate (its own), of whole calls (the stored run of dem_refusals), of scenes (the stored runs of programs).
#![tactic(auto)]

#[cfg(test)]
mod checks;
#[cfg(test)]
mod command_lines;
#[cfg(test)]
mod exchanges;
#[cfg(test)]
mod facets;
#[cfg(test)]
mod forces;
#[cfg(test)]
mod frames;
#[cfg(test)]
mod histories;
#[cfg(test)]
mod lists;
#[cfg(test)]
mod made;
#[cfg(test)]
mod model_lists;
#[cfg(test)]
mod packings;
#[cfg(test)]
mod snapshots;
#[cfg(test)]
mod streams;
#[cfg(test)]
mod turning;
#[cfg(test)]
mod voxels;
#[cfg(test)]
mod walls;

//! How a run ended, and what it took.

use dem_model::Last;

/// How a run ended, how many lists it took into use, and how many pairs its steps tested.
#[derive(Clone, Copy, PartialEq, Debug)]
pub struct Ran {
    pub last: Last,
    pub lists: u64,
    pub tests: u64,
}

//! What a trial came to, and its row.

use std::fmt::{self, Display, Formatter};

/// List number n is wanted at the age of so many times n, modulo the drift limit and one.
const STRIDE: u32 = 19;

/// What a trial came to so far.
#[derive(Clone, Copy)]
pub struct Report {
    /// The drift limit.
    pub drift: u32,
    /// The pairs of the first list.
    pub first_pairs: u32,
    /// The steps that both runs made.
    pub steps: u32,
    /// The lists that were taken into use.
    pub lists: u32,
    /// The greatest age at which a list was taken into use.
    pub taken_at: u32,
    /// The greatest age of a list at a step on it.
    pub stepped_at: u32,
    /// The displacements that were compared, over all states.
    pub displacements: u64,
    /// The most displacements of one state.
    pub most: u64,
    /// Whether both runs passed the same limit.
    pub ended: bool,
    /// Whether all that was compared is the same.
    pub same: bool,
}

impl Report {
    /// The report at the start of a trial.
    pub fn new(drift: u32) -> Report {
        Report {
            drift,
            first_pairs: 0,
            steps: 0,
            lists: 0,
            taken_at: 0,
            stepped_at: 0,
            displacements: 0,
            most: 0,
            ended: false,
            same: true,
        }
    }

    /// The age at which the next list is to be taken into use, at most the drift limit; the ages come in mixed order.
    pub fn wanted_age(&self) -> u32 {
        let ages = self.drift.saturating_add(1).max(1);
        (self.lists % ages).saturating_mul(STRIDE) % ages
    }

    /// Notes a list of so many pairs that was taken into use at this age.
    pub fn note_list(&mut self, age: u32, pairs: u32) {
        if self.lists == 0 {
            self.first_pairs = pairs;
        }
        self.lists = self.lists.saturating_add(1);
        self.taken_at = self.taken_at.max(age);
    }

    /// Notes a step, the age of its list, and how many displacements were compared after it.
    pub fn note_step(&mut self, age: u32, displacements: u64) {
        self.steps = self.steps.saturating_add(1);
        self.stepped_at = self.stepped_at.max(age);
        self.displacements = self.displacements.saturating_add(displacements);
        self.most = self.most.max(displacements);
    }

    /// Whether the trial is over: both runs ended, or something isn't the same.
    pub fn is_over(&self) -> bool {
        self.ended || !self.same
    }
}

impl Display for Report {
    fn fmt<W: fmt::Write>(&self, f: &mut Formatter<W>) -> fmt::Result {
        write!(
            f,
            "drift {}: {} pairs near at first; ",
            self.drift, self.first_pairs
        )?;
        write!(f, "{} steps on {} lists, ", self.steps, self.lists)?;
        write!(f, "taken into use at ages 0 to {}, ", self.taken_at)?;
        write!(f, "stepped on at ages 0 to {}; ", self.stepped_at)?;
        write!(
            f,
            "{} displacements, at most {} at once; ",
            self.displacements, self.most
        )?;
        f.write_str(if self.same {
            "the same"
        } else {
            "NOT THE SAME"
        })?;
        f.write_str(if self.ended { "; ended" } else { "" })
    }
}

//! What was done, and the line that tells it.

use dem_hist::Contacts;
use dem_model::End;
use std::fmt;

/// What was done: how many spheres and listed pairs there are, the steps made, the pairs that touch after the last one, and the
/// limit that stopped them.
#[derive(Clone, Copy, PartialEq, Debug)]
pub struct Tally {
    pub spheres: u32,
    pub pairs: u32,
    pub steps: u32,
    pub contacts: u64,
    pub end: Option<End>,
}

/// How many pairs of the list touch.
pub fn touching(contacts: &Contacts) -> u64 {
    let mut count = 0u64;
    for i in 0..contacts.list().len() {
        if contacts.held(i).is_some() {
            count = count.saturating_add(1);
        }
    }
    count
}

impl fmt::Display for Tally {
    fn fmt<W: fmt::Write>(&self, f: &mut fmt::Formatter<W>) -> fmt::Result {
        write!(
            f,
            "{} spheres, list of {} pairs, {} steps, {} contacts at the last",
            self.spheres, self.pairs, self.steps, self.contacts
        )?;
        match self.end {
            Some(end) => write!(f, ", then {:?} of clump {}", end.kind, end.clump),
            None => Ok(()),
        }
    }
}

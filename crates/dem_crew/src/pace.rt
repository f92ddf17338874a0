//! How often kinematics sleeps between two lists, so that it doesn't make more of them than a run needs.

/// Below this drift limit each list is made as soon as it may be.
const LEAST_DRIFT: u32 = 8;

/// The most sleeps between two lists, some 0.8 seconds: a run that was held up by its reader isn't to wait for a list for long.
const MOST: u32 = 10_000;

/// So many sleeps count, however few were ordered: by them the first snapshots tell how long a step takes.
const FEW: u32 = 2_000;

/// The steps of the last two snapshots that kinematics served, how often it slept before each of them, and how often it is to sleep
/// before the next.
#[derive(Drop)]
pub struct Pace {
    steps: (u32, u32),
    naps: (u32, u32),
    next: u32,
}

impl Pace {
    /// No snapshot served yet, and no sleep ordered.
    pub fn new() -> Pace {
        Pace {
            steps: (0, 0),
            naps: (0, 0),
            next: 0,
        }
    }

    /// How often kinematics is to sleep before it looks for the next snapshot.
    pub fn naps(&self) -> u32 {
        self.next
    }

    /// Takes note of a snapshot of a run of so many steps that is served after so many sleeps, and orders those before the next: no
    /// end of them where its list serves to the end of the run.
    pub fn after(&mut self, drift: u32, steps: u32, step: u32, naps: u32) {
        let counted = counted(self.next, step, naps);
        self.next = if serves_to_the_end(drift, steps, step) {
            u32::MAX
        } else {
            self.order(drift, step, counted)
        };
        self.steps = (self.steps.1, step);
        self.naps = (self.naps.1, counted);
    }

    /// The sleeps before the snapshot behind one of this step, before which so many are counted. The run made the steps from the last
    /// but one to this one after the sleeps before the last two; these are ordered anew, times the steps wanted over the steps made.
    /// Until there are as many snapshots, it goes by the sleeps of the run's first steps.
    fn order(&self, drift: u32, step: u32, counted: u32) -> u32 {
        if self.steps.1 == 0 {
            ordered(counted, first_wanted(drift), step)
        } else if self.steps.0 == 0 {
            ordered(self.naps.1, first_wanted(drift), self.steps.1)
        } else {
            let slept = self.naps.0.saturating_add(self.naps.1);
            ordered(slept, wanted(drift), step.saturating_sub(self.steps.0))
        }
    }
}

/// Whether lists come at a pace at this drift limit, and not as fast as they can be made.
pub fn is_paced(drift: u32) -> bool {
    LEAST_DRIFT <= drift
}

/// Whether the list of a snapshot at this step may be used up to the last of so many steps.
fn serves_to_the_end(drift: u32, steps: u32, step: u32) -> bool {
    steps <= step.saturating_add(drift).saturating_add(1)
}

/// How many steps a run is to make from one snapshot to the next. A list is one step less old when it comes into use, and twice as old
/// and a step when the next one does: that leaves a fifth of the drift limit to spare.
fn wanted(drift: u32) -> u64 {
    if is_paced(drift) {
        drift as u64 * 2 / 5 + 1
    } else {
        0
    }
}

/// The same for the first two orders, which stand on a single measure of a step: half as many.
fn first_wanted(drift: u32) -> u64 {
    if is_paced(drift) { drift as u64 / 5 } else { 0 }
}

/// How many of the sleeps count: none before the first state, after which no step was made, and not many more than were ordered, since
/// it was the run then that was held up.
fn counted(order: u32, step: u32, naps: u32) -> u32 {
    if step == 0 {
        0
    } else {
        naps.min(order.saturating_mul(2).saturating_add(FEW))
    }
}

/// So many sleeps, times the steps wanted, over the steps made; at most the most.
fn ordered(slept: u32, wanted: u64, made: u32) -> u32 {
    let share = (slept as u64).saturating_mul(wanted) / made.max(1) as u64;
    share.min(MOST as u64) as u32
}

//! Whether a run on lists and the plain run stand at the same state.

ghost use Rattle.std.specs.Prelude.{◌≡◌, length};

use dem_hist::Contacts;
use dem_model::{Body, Held, State};
use dem_step::Dyn;

/// Whether a run has the number, the bodies and the displacements of a state.
pub fn is_at(run: &Dyn, state: &State) -> bool {
    let clumps = run.shapes().scene().clumps.len() as u32;
    run.now() == state.step
        && state.bodies.len() == clumps as usize
        && has_bodies(run, state.bodies.as_slice(), clumps)
        && has_held(run.contacts(), state.held.as_slice())
}

/// Whether a run has these bodies.
fn has_bodies(run: &Dyn, bodies: &[Body], clumps: u32) -> bool
    requires clumps { clumps ≡ length run.now.scene.clumps }
    requires bodies { length bodies.now ≡ clumps }
{
    for k in 0..clumps {
        if run.body(k) != bodies[k as usize] {
            return false;
        }
    }
    true
}

/// Whether the displacements of the pairs of a list are these, in the same order.
fn has_held(contacts: &Contacts, held: &[Held]) -> bool {
    let mut place = 0;
    for i in 0..contacts.list().len() {
        if let Some(h) = contacts.held(i) {
            let pair = contacts.list().get(i);
            if place >= held.len() || held[place] != (Held { pair, h }) {
                return false;
            }
            place += 1;
        }
    }
    place == held.len()
}

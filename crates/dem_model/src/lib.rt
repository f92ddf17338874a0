//! The plain types of the engine, and the definitions of all that it does.
//!
//! Types: scenes and their parts, bodies, states, ends, faults of a scene text, the contact law's sides, a list, a look row.
//! Means: `specs` in the order in which a step runs it: position, pairs, centers, touch, law, step, ends, plain run,
//! frames, output, what is seen of it; and the reading of a scene text. Callers rest on: a Scene keeps its ranges; a List is seen as a list.
//! Takes memory: `List::push`. Not here: any computing (the crates above), numbers and rotations (dem_num).
#![tactic(auto)]

mod family;
mod fault;
mod law;
mod limits;
mod list;
mod look;
mod scene;
mod shape;
mod state;
mod steps;

pub use family::{Motion, Off};
pub use fault::{Name, SceneFault, Spot};
pub use law::{Law, Load, Push, Side, Touch};
pub use limits::{
    MAX_BALLS, MAX_CLUMPS, MAX_CYLINDER, MAX_DIRECTION, MAX_DISPLACEMENT, MAX_DRIFT, MAX_FAMILY,
    MAX_FORCE, MAX_GRAVITY, MAX_MASS, MAX_MATERIALS, MAX_MOMENT, MAX_MOTIONS, MAX_NORM2, MAX_OFF,
    MAX_OFFSET, MAX_OVERLAP, MAX_POINT, MAX_RADIUS, MAX_RATIO, MAX_SPEED, MAX_SPHERES, MAX_SPIN,
    MAX_STEPS, MAX_STIFFNESS, MAX_TEMPLATES, MAX_TEXT, MAX_TORQUE, MAX_VOXELS, MAX_WALLS,
    MIN_NORM2, UNIT, VELOCITY_UNIT, VOXEL,
};
pub use list::{List, OutOfMemory};
pub use look::LookRow;
pub use scene::Scene;
pub use shape::{Axis, Ball, Form, Material, Template, Wall};
pub use state::{Body, Clump, End, EndKind, Held, Last, Pair, Stand, State, TakenRow, Turn};
pub use steps::Steps;

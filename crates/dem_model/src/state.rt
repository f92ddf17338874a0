//! What a run is made of: bodies, stands, pairs, states, ends, turns and taken rows.

use crate::list::List;
use dem_num::{Quat, Vec3};

/// A clump in motion: position `p` in u, quaternion `q` times 2^30, velocity `v` in u per step times 2^16, spin `w` in body axes in radians per step times 2^30.
#[derive(Clone, Copy, PartialEq, Debug)]
pub struct Body {
    pub p: Vec3,
    pub q: Quat,
    pub v: Vec3,
    pub w: Vec3,
}

/// A clump of a scene: the number of its template, its family from 0 to 15, and its body at the start.
#[derive(Clone, Copy, PartialEq, Debug)]
pub struct Clump {
    pub t: u32,
    pub family: u32,
    pub body: Body,
}

/// A place for a clump at rest: the number of its template, and its position.
#[derive(Clone, Copy, PartialEq, Debug)]
pub struct Stand {
    pub t: u32,
    pub p: Vec3,
}

/// A sphere and a later sphere or wall, by number; walls are numbered after all spheres.
#[derive(Clone, Copy, PartialEq, Debug)]
pub struct Pair {
    pub a: u32,
    pub b: u32,
}

/// A pair that touched, and its tangential displacement in u times 2^16.
#[derive(Clone, Copy, PartialEq, Debug)]
pub struct Held {
    pub pair: Pair,
    pub h: Vec3,
}

/// A state of a run: its number, a body per clump, and what is held of each pair that touched, in ascending order of pairs.
#[derive(Drop)]
pub struct State {
    pub step: u32,
    pub bodies: List<Body>,
    pub held: List<Held>,
}

/// The limit that a clump passed.
#[derive(Clone, Copy, PartialEq, Debug)]
pub enum EndKind {
    Speed,
    Spin,
    Domain,
    Swing,
}

/// Where a run passes a limit: the step, the limit, the clump.
#[derive(Clone, Copy, PartialEq, Debug)]
pub struct End {
    pub step: u32,
    pub kind: EndKind,
    pub clump: u32,
}

/// How a run ends: with its last step, or at a limit.
#[derive(Clone, Copy, PartialEq, Debug)]
pub enum Last {
    Done { step: u32 },
    Passed(End),
}

/// What the engine with lists may do next.
#[derive(Clone, Copy, PartialEq, Debug)]
pub enum Turn {
    Post,
    Take,
    Deliver,
    Collect,
    Step,
}

/// A list that was taken into use: the step it was made from, the step at which it was taken, the number of its pairs.
#[derive(Clone, Copy, PartialEq, Debug)]
pub struct TakenRow {
    pub from: u32,
    pub at: u32,
    pub pairs: u32,
}

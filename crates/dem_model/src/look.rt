//! What is seen of a frame: its highest clump, its motion, who passed the middle height, and who touches most.

/// A row of values seen of one frame: `step`, the frame's number; `top`, the greatest z of a clump's position in u; `kin`,
/// twice the kinetic energy, without spin, in mass times u^2 per step^2, rounded down for each clump; `up` and `down`, how
/// many clumps passed the middle height since the frame before; `most`, the greatest number of pairs of one clump, and
/// `clump`, the first clump that has it.
#[derive(Clone, Copy, PartialEq, Debug)]
pub struct LookRow {
    pub step: u32,
    pub top: i64,
    pub kin: u128,
    pub up: u32,
    pub down: u32,
    pub most: u32,
    pub clump: u32,
}

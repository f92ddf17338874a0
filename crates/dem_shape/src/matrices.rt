//! The matrices of all bodies, made once for all that a step turns by them, and anew only for those that have turned.

ghost use Rattle.std.specs.Prelude.{◌≡◌, ◌<◌, length, false, IfOk, slice_index_or};
ghost use Rattle.dem_num.specs.Rotations.{IsOrientation};
ghost use Rattle.dem_model.specs.Motion.{AreSound};
ghost use Rattle.dem_shape.specs.Matrices.{no_turn, IsTurn, AreMatrices};

use crate::shapes::Shapes;
use dem_model::{Body, OutOfMemory, UNIT};
use dem_num::{Quat, Rows};
use dem_turn::matrix;
use std::alloc::Global;
use std::marker::Model;

/// A quaternion, and the rows of its matrix; an entry is the number times 2^30.
#[derive(Clone, Copy)]
pub struct Turn {
    pub q: Quat,
    pub rows: Rows,
}

/// A quaternion and its matrix per clump, in the order of the clumps' numbers.
#[derive(Drop)]
pub struct Matrices {
    items: Vec<Turn>,
}

impl Model for Matrices {
    ghost use Rattle.std.specs.Prelude.{List, All};
    ghost use Rattle.dem_shape.specs.declared.matrices.Turn.{Turn};
    ghost use Rattle.dem_shape.specs.Matrices.{IsTurn};

    ghost Value = { List Turn };

    ghost view = { λ a. a.items.items };

    ghost invariant = { λ a. All IsTurn a.items.items };
}

impl Matrices {
    /// Room for the matrices of the clumps of these shapes.
    pub fn new(alloc: Global, shapes: &Shapes) -> Result<Matrices, OutOfMemory>
        ensures { IfOk result (λ x. length x ≡ length shapes.now.clumps) }
    {
        let mut items = Vec::new(alloc);
        for _ in 0..shapes.scene().clumps.len() {
            if items.push(unturned()).is_err() {
                return Err(OutOfMemory);
            }
        }
        Ok(Matrices { items })
    }

    /// Sets every matrix to that of its clump's body.
    pub fn fill(&mut self, shapes: &Shapes, bodies: &[Body])
        requires made { length self.old ≡ length shapes.now.clumps }
        requires sound { AreSound shapes.now bodies.now }
        ensures { AreMatrices shapes.now bodies.now self.new }
    {
        let _clumps_of = shapes;
        for k in 0..bodies.len() {
            let q = bodies[k].q;
            let before = self.items[k].q;
            if has_turned(before, q) {
                self.items[k] = matrix_for(q);
            }
        }
    }

    /// The matrix of a clump.
    pub fn get(&self, clump: u32) -> &Rows
        requires { clump < length self.now }
        ensures { (slice_index_or self.now clump no_turn).rows ≡ result.now }
    {
        &self.items[clump as usize].rows
    }
}

/// A quaternion and its matrix.
fn matrix_for(q: Quat) -> Turn
    requires { IsOrientation q }
    ensures turn { IsTurn result }
    ensures value { result.q ≡ q }
{
    Turn { q, rows: matrix(q) }
}

/// The default quaternion and its matrix.
#[tactic(auto, unfolding(dem_num::specs::Rotations::quat_norm2_of))]
fn unturned() -> Turn
    ensures { IsTurn result }
{
    matrix_for(Quat {
        a: UNIT as i64,
        b: 0,
        c: 0,
        d: 0,
    })
}

/// Whether a quaternion isn't the one before.
fn has_turned(before: Quat, q: Quat) -> bool
    ensures { result ≡ false → before ≡ q }
{
    before.a != q.a || before.b != q.b || before.c != q.c || before.d != q.d
}

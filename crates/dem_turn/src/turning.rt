//! Vectors turned from body axes to world axes and back.

ghost use Rattle.std.specs.Prelude.{◌≡◌, ◌+◌, ◌*◌, ◌^◌, ◌<◌, ◌≤◌, unsigned_abs};
ghost use Rattle.dem_num.specs.Numbers.{AtMost, shifted};
ghost use Rattle.dem_num.specs.Vectors.{widened, Within, dot_of};
ghost use Rattle.dem_num.specs.Rotations.{EntriesWithin, turned_by, turned_back_by};

use dem_num::{Rows, Vec3, Wide3, dot, narrow, sh, widen};

/// A vector of body axes in world axes.
#[tactic(auto, unfolding(dem_num::specs::Rotations::turned_by))]
pub fn turned(m: &Rows, o: Vec3) -> Vec3
    requires entries { EntriesWithin m.now (2 ^ 30) }
    requires offset { Within (widened o) (2 ^ 26) }
    ensures value { widened result ≡ turned_by m.now (widened o) }
    ensures size { Within (widened result) (2 ^ 28) }
{
    let o = widen(o);
    Vec3 {
        x: narrow(along(m.x, o)),
        y: narrow(along(m.y, o)),
        z: narrow(along(m.z, o)),
    }
}

/// A spin of body axes in world axes.
#[tactic(auto, unfolding(dem_num::specs::Rotations::turned_by))]
pub fn turned_spin(m: &Rows, w: Vec3) -> Vec3
    requires entries { EntriesWithin m.now (2 ^ 30) }
    requires spin { Within (widened w) (2 ^ 28) }
    ensures value { widened result ≡ turned_by m.now (widened w) }
    ensures size { Within (widened result) (2 ^ 30) }
{
    let w = widen(w);
    Vec3 {
        x: narrow(along(m.x, w)),
        y: narrow(along(m.y, w)),
        z: narrow(along(m.z, w)),
    }
}

/// A vector of world axes in body axes.
#[tactic(auto, unfolding(dem_num::specs::Rotations::turned_back_by))]
pub fn turned_back(m: &Rows, t: Wide3) -> Wide3
    requires entries { EntriesWithin m.now (2 ^ 30) }
    requires torque { Within t (2 ^ 90) }
    ensures value { result ≡ turned_back_by m.now t }
    ensures size { Within result (2 ^ 92) }
{
    let x = Vec3 {
        x: m.x.x,
        y: m.y.x,
        z: m.z.x,
    };
    let y = Vec3 {
        x: m.x.y,
        y: m.y.y,
        z: m.z.y,
    };
    let z = Vec3 {
        x: m.x.z,
        y: m.y.z,
        z: m.z.z,
    };
    Wide3 {
        x: along_wide(x, t),
        y: along_wide(y, t),
        z: along_wide(z, t),
    }
}

/// The component of an offset or a spin along a row of the matrix.
fn along(row: Vec3, o: Wide3) -> i128
    requires entries { Within (widened row) (2 ^ 30) }
    requires vector { Within o (2 ^ 28) }
    ensures value { result ≡ shifted (dot_of (widened row) o) 30 }
    ensures size { AtMost result (2 ^ 30) }
    ensures offset { Within o (2 ^ 26) → AtMost result (2 ^ 28) }
{
    sh(dot(row, o), 30)
}

/// The component of a torque along a column of the matrix.
fn along_wide(column: Vec3, t: Wide3) -> i128
    requires entries { Within (widened column) (2 ^ 30) }
    requires torque { Within t (2 ^ 90) }
    ensures value { result ≡ shifted (dot_of (widened column) t) 30 }
    ensures size { AtMost result (2 ^ 92) }
{
    sh(dot(column, t), 30)
}

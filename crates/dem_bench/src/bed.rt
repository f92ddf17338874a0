//! The text of the bed: spheres in a cubic lattice, each overlapping its neighbours a little, on a floor.

ghost use Rattle.std.specs.Prelude.{◌<◌};

use std::alloc::{AllocError, Global};

/// Spheres on each edge of the lattice.
const EDGE: u32 = 20;

/// Spheres in all.
const SPHERES: u32 = 8000;

/// All that stands before the materials.
const HEAD: &str =
    r#"{"version":1,"box":[400,400,400],"steps":100,"every":1000000000,"speed":13107200,"spin":1048576,"gravity":[0,0,-642]"#;

/// The one material, which has friction and damping.
const SAND: &str =
    r#","materials":[{"kn":45000000,"kt":50000000,"bn":26214,"bt":26214,"mu":32768}]"#;

/// The one template, a sphere.
const GRAIN: &str =
    r#","templates":[{"mass":1048576,"moments":[6400000000000,6400000000000,6400000000000],"spheres":[{"at":[0,0,0],"r":500000,"mat":0}]}]"#;

/// The floor, and the head of the list of spheres.
const FLOOR: &str = r#","walls":[{"plane":{"at":[0,0,1000000],"dir":[0,0,1]},"mat":0}],"clumps":["#;

/// The text of the scene.
pub fn bed_text(alloc: Global) -> Result<String, AllocError> {
    let mut text = String::new(alloc);
    for part in [HEAD, SAND, GRAIN, FLOOR] {
        text.push_str(part)?;
    }
    add_grain(&mut text, 0)?;
    for i in 1..SPHERES {
        text.push_str(",")?;
        add_grain(&mut text, i)?;
    }
    text.push_str("]}")?;
    Ok(text)
}

/// Adds a sphere by number.
fn add_grain(text: &mut String, i: u32) -> Result<(), AllocError>
    requires { i < 8000 }
{
    let x = place(i % EDGE, 2_000_000);
    let y = place(i / EDGE % EDGE, 2_000_000);
    let z = place(i / (EDGE * EDGE), 1_499_000);
    let (u, v, w) = (speed(i, 7), speed(i, 11), speed(i, 13));
    write!(text, r#"{{"t":0,"p":[{x},{y},{z}],"v":[{u},{v},{w}]}}"#)
}

/// A place on one axis, in u.
fn place(column: u32, first: u32) -> u32
    requires column { column < 20 }
    requires first { first < 2000001 }
{
    first + 999_000 * column
}

/// A start velocity on one axis, from -5 to 5 u a step, times 2^16.
fn speed(i: u32, factor: u32) -> i32
    requires i { i < 8000 }
    requires factor { factor < 20 }
{
    (i * factor % 41) as i32 * 16_384 - 327_680
}

//! The scene text: its whole reading, to a Scene or to the first fault with its place; and its text with other clumps.
//!
//! `read_scene` reads the bytes, with one reader for each kind of object and one loop for lists of objects; the names of
//! version 2 are known in that version alone. `fault_line` makes the line of a refused text; `with_clumps` writes the text
//! with stands as its clumps. Means: the `Reading` definitions of dem_model, `Stands` of specs. Callers rest on: the answer
//! is the one that `scene_from` has for the bytes, the scene and the fault alike, unless there was no memory; the line is
//! `fault_text`; the text with stands is read as the scene with them. Takes memory: `read_scene`, `with_clumps`. Not here:
//! what a scene means (dem_model), where the line goes (dem_top).
#![tactic(auto)]

mod clump;
mod draft;
mod families;
mod list;
mod material;
mod number;
mod object;
mod place;
mod read;
mod stand;
mod template;
mod text;
mod vector;
mod wall;

pub use dem_model::{Name, SceneFault, Spot};
pub use read::read_scene;
pub use stand::with_clumps;
pub use text::{LINE_ROOM, Line, fault_line};

//! Calls of the engine by themselves, on stored scenes: reads scenes, one a line, and prints what the calls answer.
//!
//! For each scene: what bins of some sides find at its first state, where steps on one list lead, and split ones, and what the first turns of a
//! world come to. What is printed is the same each time. Not here: any promise (dem_bins, dem_step, dem_core).
#![tactic(auto)]

mod answers;
mod finding;
mod stepping;
mod turning;

use crate::answers::ask;
use dem_scene::read_scene;

fn main(rt: HostRuntime) -> anyhow::Result<()> {
    for line in rt.lines(rt.alloc()) {
        let line = line?;
        let Ok(scene) = read_scene(rt.alloc(), line.as_bytes()) else {
            println!(rt; "not a scene")?;
            continue;
        };
        println!(rt;
            "scene of {} clumps, {} steps",
            scene.clumps.len(),
            scene.steps
        )?;
        match ask(&rt, rt.alloc(), &scene) {
            Ok(answers) => println!(rt; "{answers}")?,
            Err(_) => println!(rt; "out of memory")?,
        }
    }
    Ok(())
}

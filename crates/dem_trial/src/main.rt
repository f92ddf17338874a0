//! A trial of the run on lists against the plain run: reads scenes, one a line, and prints a row for each drift limit.
//!
//! For each scene and drift limit a run on lists of many ages stands beside the plain run, and after each step the bodies
//! and the displacements are compared. What is printed is the same each time. Not here: any promise (dem_plain, dem_step).
#![tactic(auto)]

mod comparing;
mod listing;
mod report;
mod stepping;
mod trial;

use crate::trial::trial;
use dem_model::Scene;
use dem_scene::read_scene;
use std::alloc::Global;

fn main(rt: HostRuntime) -> anyhow::Result<()> {
    for line in rt.lines(rt.alloc()) {
        let line = line?;
        let Ok(scene) = read_scene(rt.alloc(), line.as_bytes()) else {
            println!(rt; "not a scene")?;
            continue;
        };
        println!(rt;
            "scene of {} clumps, {} steps",
            scene.clumps.len(),
            scene.steps
        )?;
        for drift in [0, 1, 3, 4, 20, 1024] {
            match trial(rt.alloc(), &scene, drift) {
                Ok(report) => println!(rt; "{report}")?,
                Err(_) => println!(rt; "drift {drift}: out of memory")?,
            }
        }
    }
    Ok(())
}

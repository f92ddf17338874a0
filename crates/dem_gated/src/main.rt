//! A run by two threads that is held at a gate until both have acted there: reads a scene, and prints what came of it.
//!
//! Dynamics waits before its fourth step until kinematics is about to deliver its second list, or the other way round. A run that
//! works on one thread would wait in vain. What is printed is the same each time. Not here: any promise (dem_crew).
#![tactic(auto)]

mod held;
mod report;

use crate::held::held_run;
use dem_scene::read_scene;

fn main(rt: HostRuntime) -> anyhow::Result<()> {
    for line in rt.lines(rt.alloc()) {
        let line = line?;
        let Ok(scene) = read_scene(rt.alloc(), line.as_bytes()) else {
            println!(rt; "not a scene")?;
            continue;
        };
        match held_run(&rt, rt.alloc(), &scene) {
            Ok(report) => println!(rt; "{report}")?,
            Err(_) => println!(rt; "no run")?,
        }
    }
    Ok(())
}

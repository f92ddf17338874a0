//! The comparison of a text with the output of a scene.
ghost use Rattle.std.specs.Prelude.{IfOk};
ghost use Rattle.dem_model.specs.Output.{output_of};
ghost use Rattle.dem_check.specs.Verdicts.{Checks};

use crate::comparing::Comparing;
use crate::verdict::Verdict;
use dem_model::{OutOfMemory, Scene};
use dem_output::{RunFault, write_run};
use std::alloc::Global;

/// The verdict on a text, which should be the output of a scene.
///
/// The plain run of the scene is made, and what it writes is compared as it comes; the run ends at the first row that differs.
/// Beside the text this takes the memory of the run and of one row.
pub fn check(alloc: Global, scene: &Scene, text: &[u8]) -> Result<Verdict, OutOfMemory>
    ensures { IfOk result (Checks text.now (output_of scene.now)) }
{
    let mut out = Comparing::new(alloc, text);
    let run = write_run(alloc, scene, &mut out);
    let short = out.is_short();
    match run {
        Ok(_last) => out.verdict(alloc),
        Err(fault) => match fault {
            RunFault::WriteFault if !short => out.verdict(alloc),
            _ => Err(OutOfMemory),
        },
    }
}

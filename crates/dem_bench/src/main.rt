//! The program `dem_bench`: steps on one list of near pairs, of a scene or of a dense bed of 8,000 spheres.
//!
//! It reads the scene on standard input, or makes the text of the bed where that is empty, lists the near pairs of the first
//! state once, and makes as many steps as its first argument says, 100 where there is none. The second argument is the drift
//! limit, 100 where there is none. A third argument, `split`, has the steps made by several threads; with `bare` and `bare-split` it makes
//! rounds of bare work in the place of steps, of as many thousand turns a part as the second argument says. It prints what it did, the
//! same at each run and by any number of threads; scripts/bench times it.
//! Not here: what a step does (dem_step), which pairs are near (dem_margin).
#![tactic(auto)]

mod bare;
mod bed;
mod stepping;
mod tally;

use anyhow::{Context, Result, anyhow, bail};
use bare::make_rounds;
use bed::bed_text;
use dem_model::Scene;
use dem_scene::read_scene;
use std::alloc::Global;
use std::env;
use std::io::read_to_string;
use stepping::run_scene;

/// The steps that are made where no argument says how many.
const STEPS: u32 = 100;

/// The greatest age of the list, in steps, where no argument tells it.
const DRIFT: u32 = 100;

/// The greatest age that an argument may ask for.
const MOST: u32 = 1024;

fn main(rt: HostRuntime) -> Result<()> {
    let words: Vec<String> = env::args(&rt)?.collect(rt.alloc())?;
    let wanted = number_at(words.as_slice(), 1, STEPS).context("the number of steps")?;
    let second = number_at(words.as_slice(), 2, DRIFT).context("the drift limit")?;
    let way = way_of(words.as_slice())?;
    let threads = if way.is_split { Some(&rt) } else { None };
    if way.is_bare {
        println!(rt; "{}", make_rounds(threads, wanted, second))?;
        return Ok(());
    }
    if second > MOST {
        bail!("the drift limit is over {MOST}");
    }
    let scene = given_scene(rt.alloc(), read_to_string(rt.alloc(), rt.stdin())?)?;
    let tally = run_scene(rt.alloc(), threads, &scene, second, wanted)?;
    println!(rt; "{tally}")?;
    Ok(())
}

/// What is done, and by how many threads.
#[derive(Clone, Copy)]
struct Way {
    is_bare: bool,
    is_split: bool,
}

/// What the third argument asks for: steps by one thread where it is missing.
fn way_of(words: &[String]) -> Result<Way> {
    let word = match words.get(3) {
        Some(word) => word.as_str(),
        None => "",
    };
    match word {
        "" => Ok(Way {
            is_bare: false,
            is_split: false,
        }),
        "split" => Ok(Way {
            is_bare: false,
            is_split: true,
        }),
        "bare" => Ok(Way {
            is_bare: true,
            is_split: false,
        }),
        "bare-split" => Ok(Way {
            is_bare: true,
            is_split: true,
        }),
        _ => bail!("the third argument is none of split, bare, bare-split"),
    }
}

/// The number that an argument gives, or this one where it is missing.
fn number_at(words: &[String], place: usize, default: u32) -> Result<u32> {
    match words.get(place) {
        Some(word) => Ok(word.parse::<u32>()?),
        None => Ok(default),
    }
}

/// The scene of a text, or of the bed where the text is empty.
fn given_scene(alloc: Global, given: String) -> Result<Scene> {
    let text = if given.is_empty() {
        bed_text(alloc)?
    } else {
        given
    };
    match read_scene(alloc, text.as_bytes()) {
        Ok(scene) => Ok(scene),
        Err(fault) => Err(anyhow!("not a scene: {fault:?}")),
    }
}

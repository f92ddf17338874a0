//! The templates of a made scene.
ghost use Rattle.std.specs.Prelude.{◌≡◌, OnOk, IfOk};
ghost use Rattle.dem_model.specs.Made.{made_ball, made_template, made_templates, state_after};

use crate::words::draw;
use dem_model::{Ball, List, OutOfMemory, Template};
use dem_num::Vec3;
use rand_xoshiro::SplitMix64;
use std::alloc::Global;

/// How many templates a made scene has.
pub(crate) const TEMPLATES: u32 = 4;

const MASS: u64 = 1_048_576;

const MOMENT: i64 = 25_600_000_000_000;

const RADIUS: u32 = 1_000_000;

const RADIUS_MORE: u64 = 32_768;

/// The four templates.
pub(crate) fn templates(
    alloc: Global,
    words: &mut SplitMix64,
) -> Result<List<Template>, OutOfMemory>
    ensures value { IfOk result (λ ts. ts ≡ made_templates words.old) }
    ensures after { OnOk result (words.new ≡ state_after words.old 4) }
{
    let mut templates = List::new(alloc);
    for _j in 0..TEMPLATES {
        templates.push(template(alloc, words)?)?;
    }
    Ok(templates)
}

// A template of one sphere.
#[tactic(auto, unfolding(dem_model::specs::Made::made_template))]
fn template(alloc: Global, words: &mut SplitMix64) -> Result<Template, OutOfMemory>
    ensures value { IfOk result (λ t. t ≡ made_template words.old) }
    ensures after { OnOk result (words.new ≡ state_after words.old 1) }
{
    let mut balls = List::new(alloc);
    balls.push(ball(words))?;
    Ok(Template {
        mass: MASS,
        moments: Vec3 {
            x: MOMENT,
            y: MOMENT,
            z: MOMENT,
        },
        balls,
    })
}

// A sphere, whose radius takes one word.
#[tactic(auto, unfolding(dem_model::specs::Made::made_ball))]
fn ball(words: &mut SplitMix64) -> Ball
    ensures value { result ≡ made_ball words.old }
    ensures after { words.new ≡ state_after words.old 1 }
{
    Ball {
        at: Vec3 { x: 0, y: 0, z: 0 },
        r: RADIUS + (draw(words) % RADIUS_MORE) as u32,
        mat: 0,
    }
}

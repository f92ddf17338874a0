//! Lists of a scene text: their lengths, and what is read of each element.

ghost use Rattle.std.specs.Prelude.{◌≡◌, ◌<◌, ◌≤◌, ◌^◌, ℕ, length, All, IfOk, Result};
ghost use Rattle.serde_json.specs.Data.{Data};
ghost use Rattle.serde_json.specs.View.{view, items_view};
ghost use Rattle.dem_model.specs.declared.fault.SceneFault.{SceneFault as Fault};
ghost use Rattle.dem_model.specs.Reading.{each_from, list_of, list_at, list_or};
ghost use Rattle.dem_model.specs.Sound.{IsFrom};
ghost use Rattle.dem_scene.specs.Gives.{Gives};

use dem_model::{List, SceneFault, Spot};
use serde_json::Value;
use std::alloc::Global;

/// What is read of each element of a list.
pub(crate) trait ReadItem {
    type Item: Drop;

    ghost gives: { Self → ℕ → Data → Result Self.Item Fault };

    ghost keeps: { Self → Self.Item → Type 0 };

    /// Reads the element number `i`.
    fn read(&self, alloc: Global, i: u32, value: &Value) -> Result<Self::Item, SceneFault>
        ensures value { Gives result (gives self.now i (view value.now)) }
        ensures range { IfOk result (keeps self.now) };
}

/// Reads each element.
pub(crate) fn read_each<R: ReadItem>(
    alloc: Global,
    reader: &R,
    values: &[Value],
) -> Result<List<R::Item>, SceneFault>
    requires { length values.now < 2 ^ 32 }
    ensures value { Gives result (each_from (R.gives reader.now) 0 (items_view values.now)) }
    ensures range { IfOk result (All (R.keeps reader.now)) }
    ensures count { IfOk result (λ xs. length xs ≡ length values.now) }
{
    let mut found = List::new(alloc);
    for (i, value) in values.iter().enumerate() {
        let item = reader.read(alloc, i as u32, value)?;
        found.push(item)?;
    }
    Ok(found)
}

/// A list from `low` to `high` in length, and what is read of each element.
#[tactic(auto, using(crate::proofs::Trees::counts_items), unfolding(dem_model::specs::Reading::list_of))]
fn list_in<R: ReadItem>(
    alloc: Global,
    reader: &R,
    value: &Value,
    low: usize,
    high: usize,
    at: Spot,
) -> Result<List<R::Item>, SceneFault>
    requires { high < 2 ^ 32 }
    ensures value { Gives result (list_of low high at (R.gives reader.now) (view value.now)) }
    ensures range { IfOk result (All (R.keeps reader.now)) }
    ensures count { IfOk result (λ xs. IsFrom low high (length xs)) }
{
    let Some(items) = value.as_array() else {
        return Err(SceneFault::Field { which: at });
    };
    if low <= items.len() && items.len() <= high {
        read_each(alloc, reader, items.as_slice())
    } else {
        Err(SceneFault::Count { which: at })
    }
}

/// The list of a name, and what is read of each element.
#[tactic(auto, unfolding(dem_model::specs::Reading::list_at))]
pub(crate) fn list<R: ReadItem>(
    alloc: Global,
    reader: &R,
    value: &Value,
    name: &str,
    low: usize,
    high: usize,
    at: Spot,
) -> Result<List<R::Item>, SceneFault>
    requires { high < 2 ^ 32 }
    ensures value { Gives result (list_at name.now low high at (R.gives reader.now) (view value.now)) }
    ensures range { IfOk result (All (R.keeps reader.now)) }
    ensures count { IfOk result (λ xs. IsFrom low high (length xs)) }
{
    match value.get(name) {
        Some(v) => list_in(alloc, reader, v, low, high, at),
        None => Err(SceneFault::Field { which: at }),
    }
}

/// The list of a name, and what is read of each element; no element where the name isn't there.
#[tactic(auto, unfolding(dem_model::specs::Reading::list_or))]
pub(crate) fn list_or_empty<R: ReadItem>(
    alloc: Global,
    reader: &R,
    value: &Value,
    name: &str,
    high: usize,
    at: Spot,
) -> Result<List<R::Item>, SceneFault>
    requires { high < 2 ^ 32 }
    ensures value { Gives result (list_or name.now 0 high at (R.gives reader.now) (view value.now)) }
    ensures range { IfOk result (All (R.keeps reader.now)) }
    ensures count { IfOk result (λ xs. length xs ≤ high) }
{
    match value.get(name) {
        Some(v) => list_in(alloc, reader, v, 0, high, at),
        None => Ok(List::new(alloc)),
    }
}

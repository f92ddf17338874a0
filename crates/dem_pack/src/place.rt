//! Places on an axis: how many a stretch has, and where each is.
ghost use Rattle.std.specs.Prelude.{◌≡◌, ◌≤◌, ◌<◌, ◌+◌, ◌^◌, pos};
ghost use Rattle.dem_model.specs.Cells.{place_at, place_count};
ghost use Rattle.dem_pack.specs.Layouts.{IsStretch, span_of};

/// A stretch of an axis.
#[derive(Clone, Copy)]
pub(crate) struct Stretch {
    pub low: u64,
    pub high: u64,
}

/// How many places a stretch has.
#[tactic(auto, unfolding(dem_model::specs::Cells::place_count))]
pub(crate) fn places(extent: u64, pitch: u64, s: &Stretch) -> u64
    requires pitch { 1 ≤ pitch }
    requires extent { extent ≤ 2 ^ 28 }
    requires low { s.now.low ≤ 2 ^ 40 }
    requires high { s.now.high ≤ 2 ^ 36 }
    ensures value { result ≡ place_count extent pitch (span_of s.now) }
    ensures few { result ≤ 2 ^ 36 + 1 }
{
    if s.low + 2 * extent <= s.high {
        (s.high - s.low - 2 * extent) / pitch + 1
    } else {
        0
    }
}

/// Where a place of the stretch is.
#[tactic(auto, unfolding(dem_model::specs::Cells::place_at))]
pub(crate) fn place(extent: u64, pitch: u64, s: &Stretch, i: u64) -> i64
    requires pitch { 1 ≤ pitch }
    requires extent { extent ≤ 2 ^ 28 }
    requires low { s.now.low ≤ 2 ^ 40 }
    requires high { s.now.high ≤ 2 ^ 36 }
    requires there { i < place_count extent pitch (span_of s.now) }
    ensures { result ≡ pos (place_at extent pitch s.now.low i) }
{
    (s.low + extent + i * pitch) as i64
}

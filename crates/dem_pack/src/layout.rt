//! The cells of a region: how many there are, and where each is.
ghost use Rattle.std.specs.Prelude.{◌≡◌, ◌≤◌, ◌<◌, ◌+◌, ◌*◌, ◌^◌, Some, length, slice_get};
ghost use Rattle.dem_model.specs.Cells.{cell_at, cells_of, layer_count, place_at, place_count, shift_at, shifted_at};
ghost use Rattle.dem_pack.specs.Layouts.{IsLayout, IsStretch, lattice_in, region_in, span_of};
ghost use Rattle.dem_pack.specs.Layers.{cell_in, layer_size};

use crate::place::{Stretch, place, places};
use dem_num::Vec3;

/// A lattice and a region.
#[derive(Clone, Copy)]
pub(crate) struct Layout {
    pub extent: u64,
    pub pitch: u64,
    pub shift: u64,
    pub rise: u64,
    pub x: Stretch,
    pub y: Stretch,
    pub z: Stretch,
}

impl Layout {
    // How far layer `k` is shifted.
    #[tactic(auto, unfolding(dem_model::specs::Cells::shift_at))]
    fn shift(&self, k: u64) -> u64
        requires { IsLayout self.now }
        ensures value { result ≡ shift_at (lattice_in self.now) k }
        ensures small { result ≤ 2 ^ 30 }
    {
        if k % 2 == 0 { 0 } else { self.shift }
    }

    // The stretch with its beginning shifted as layer `k` is.
    fn shifted(&self, s: &Stretch, k: u64) -> Stretch
        requires layout { IsLayout self.now }
        requires stretch { IsStretch s.now }
        ensures value { span_of result ≡ shifted_at (lattice_in self.now) k (span_of s.now) }
        ensures low { result.low ≤ 2 ^ 40 }
        ensures high { result.high ≤ 2 ^ 36 }
    {
        Stretch {
            low: s.low + self.shift(k),
            high: s.high,
        }
    }

    // The places of layer `k` on an axis across the layers.
    fn across(&self, s: &Stretch, k: u64) -> u64
        requires layout { IsLayout self.now }
        requires stretch { IsStretch s.now }
        ensures value { result ≡ place_count self.now.extent self.now.pitch (shifted_at (lattice_in self.now) k (span_of s.now)) }
        ensures few { result ≤ 2 ^ 36 + 1 }
    {
        places(self.extent, self.pitch, &self.shifted(s, k))
    }

    // The cells of layer `k`.
    #[tactic(auto, unfolding(crate::specs::Layers::layer_size))]
    fn layer(&self, k: u64) -> u128
        requires { IsLayout self.now }
        ensures value { result ≡ layer_size (lattice_in self.now) (region_in self.now) k }
        ensures few { result ≤ 2 ^ 74 }
    {
        u128::from(self.across(&self.x, k)) * u128::from(self.across(&self.y, k))
    }

    // The layers.
    #[tactic(auto, unfolding(dem_model::specs::Cells::layer_count))]
    fn layers(&self) -> u64
        requires { IsLayout self.now }
        ensures value { result ≡ layer_count (lattice_in self.now) (region_in self.now) }
        ensures few { result ≤ 2 ^ 36 + 1 }
    {
        places(self.extent, self.rise, &self.z)
    }

    /// How many cells there are.
    pub(crate) fn cells(&self) -> u128
        requires { IsLayout self.now }
        ensures { result ≡ length (cells_of (lattice_in self.now) (region_in self.now)) }
    {
        let layers = u128::from(self.layers());
        (layers - layers / 2) * self.layer(0) + layers / 2 * self.layer(1)
    }

    // The cell of layer `k` that is number `m` in it.
    #[tactic(auto, unfolding(crate::specs::Layers::cell_in))]
    fn cell_in(&self, k: u64, m: u64) -> Vec3
        requires layout { IsLayout self.now }
        requires layer { k < layer_count (lattice_in self.now) (region_in self.now) }
        requires there { m < layer_size (lattice_in self.now) (region_in self.now) k }
        ensures { result ≡ cell_in (lattice_in self.now) (region_in self.now) k m }
    {
        let columns = self.across(&self.x, k);
        let x = self.shifted(&self.x, k);
        let y = self.shifted(&self.y, k);
        Vec3 {
            x: place(self.extent, self.pitch, &x, m % columns),
            y: place(self.extent, self.pitch, &y, m / columns),
            z: place(self.extent, self.rise, &self.z, k),
        }
    }

    /// The cell of this number.
    pub(crate) fn cell(&self, n: u64) -> Vec3
        requires layout { IsLayout self.now }
        requires there { n < length (cells_of (lattice_in self.now) (region_in self.now)) }
        ensures { slice_get (cells_of (lattice_in self.now) (region_in self.now)) n ≡ Some result }
    {
        let even = self.layer(0);
        let both = even + self.layer(1);
        let pair = u128::from(n) / both;
        let m = u128::from(n) % both;
        if m < even {
            self.cell_in(2 * pair as u64, m as u64)
        } else {
            self.cell_in(2 * pair as u64 + 1, (m - even) as u64)
        }
    }
}

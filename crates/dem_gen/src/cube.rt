//! The cube of cells that the clumps of a made scene stand in.
ghost use Rattle.std.specs.Prelude.{◌≡◌, ◌≤◌, ◌*◌};
ghost use Rattle.dem_model.specs.Made.{edge_of};

/// How many cells an edge of the cube has: the least number with which there is a cell for each clump.
pub(crate) fn edge(count: u64) -> u64
    requires some { 1 ≤ count }
    requires many { count ≤ 16384 }
    ensures value { result ≡ edge_of count }
    ensures some { 1 ≤ result }
    ensures few { result ≤ 26 }
    ensures fits { count ≤ result * result * result }
{
    let mut edge = 0;
    while edge * edge * edge < count {
        edge += 1;
    }
    edge
}

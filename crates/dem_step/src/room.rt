//! Room that is made before a step, which takes none.

ghost use Rattle.std.specs.Prelude.{◌≤◌, length, OnOk};

use dem_model::OutOfMemory;

/// Makes room for this many entries, filled with this one, and takes none away.
pub fn make_room<T: Copy + Drop>(
    entries: &mut Vec<T>,
    filler: T,
    count: u32,
) -> Result<(), OutOfMemory>
    ensures room { OnOk result (count ≤ length entries.new.items) }
    ensures grows { length entries.old.items ≤ length entries.new.items }
{
    for _ in entries.len()..count as usize {
        if entries.push(filler).is_err() {
            return Err(OutOfMemory);
        }
    }
    Ok(())
}

//! The row of what is seen of a frame.
ghost use Rattle.std.specs.Prelude.{◌≡◌};
ghost use Rattle.dem_outside.specs.Faults.{Counts};
ghost use Rattle.dem_outside.specs.Known.{PutAppends};
ghost use Rattle.dem_model.specs.Look.{look_text};

use dem_frame::WriteFault;
use dem_frame::row::{RowText, add, add_number, put};
use dem_model::LookRow;
use dem_outside::Sink;

/// Writes the row of what is seen of a frame.
#[tactic(auto, unfolding(dem_model::specs::Look::look_text))]
pub(crate) fn write_look<K: Sink>(out: &mut K, row: LookRow) -> Result<(), WriteFault>
    ensures count { Counts (K.faults out.old) (K.faults out.new) result }
    ensures written { PutAppends (K.held out.old) (K.held out.new) result (look_text row) }
{
    let mut text = RowText::new();
    add(&mut text, b"look");
    add_number(&mut text, row.step);
    add_number(&mut text, row.top);
    add_number(&mut text, row.kin);
    add_number(&mut text, row.up);
    add_number(&mut text, row.down);
    add_number(&mut text, row.most);
    add_number(&mut text, row.clump);
    put(out, text)
}

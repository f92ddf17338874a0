//! One row: a name and its numbers, printed into a buffer of fixed size and put at once.
ghost use Rattle.std.specs.Prelude.{◌≡◌, ◌≤◌, ◌+◌, ◌∷◌, [], ◌++◌, length, codes, pos};
ghost use Rattle.dem_outside.specs.Faults.{Counts};
ghost use Rattle.dem_outside.specs.Known.{PutAppends};
ghost use Rattle.dem_model.specs.Frames.{row_text};

use arrayvec::ArrayVec;
use dem_outside::{Failed, Sink};
use itoa::{Buffer, Integer};

/// The sink failed in this call; its count of faults says that it did.
#[derive(Clone, Copy, Debug, PartialEq, Eq)]
pub struct WriteFault;

/// The longest row has 300 bytes: `clump`, 14 numbers of at most 20 bytes, each behind a comma, and a newline.
pub const ROW_ROOM: usize = 320;

/// The most numbers of a row.
pub(crate) const MAX_NUMBERS: usize = 14;

/// The longest name of a row: `end,domain`.
const MAX_NAME: usize = 10;

/// A row that is being built.
pub type RowText = ArrayVec<u8, ROW_ROOM>;

/// Appends these bytes to the row.
pub fn add(row: &mut RowText, bytes: &[u8])
    requires { length row.old.items + length bytes.now ≤ ROW_ROOM }
    ensures { row.new.items ≡ row.old.items ++ bytes.now }
{
    row.try_extend_from_slice(bytes).unwrap();
}

/// Appends a comma and the number.
pub fn add_number<I: Integer>(row: &mut RowText, number: I)
    requires { length row.old.items + 1 + I.MAX_STR_LEN ≤ ROW_ROOM }
    ensures text { row.new.items ≡ row.old.items ++ codes "," ++ I.text number }
    ensures size { length row.new.items ≤ length row.old.items + 1 + I.MAX_STR_LEN }
{
    let mut digits = Buffer::new();
    add(row, b",");
    add(row, digits.format(number).as_bytes());
}

/// Ends the row and puts it.
pub fn put<K: Sink>(out: &mut K, mut row: RowText) -> Result<(), WriteFault>
    requires { length row.items + 1 ≤ ROW_ROOM }
    ensures count { Counts (K.faults out.old) (K.faults out.new) result }
    ensures written { PutAppends (K.held out.old) (K.held out.new) result (row.items ++ codes "\n") }
{
    add(&mut row, b"\n");
    match out.put(row.as_slice()) {
        Ok(()) => Ok(()),
        Err(Failed) => Err(WriteFault),
    }
}

/// Puts the row of this name and these numbers.
pub(crate) fn put_row<K: Sink>(out: &mut K, name: &[u8], numbers: &[i64]) -> Result<(), WriteFault>
    requires short { length name.now ≤ MAX_NAME }
    requires few { length numbers.now ≤ MAX_NUMBERS }
    ensures count { Counts (K.faults out.old) (K.faults out.new) result }
    ensures written { PutAppends (K.held out.old) (K.held out.new) result (row_text name.now numbers.now) }
{
    let mut row = RowText::new();
    add(&mut row, name);
    for number in numbers {
        add_number(&mut row, *number);
    }
    put(out, row)
}

/// Puts the row of this name and one number.
pub(crate) fn put_count<K: Sink>(out: &mut K, name: &[u8], count: u64) -> Result<(), WriteFault>
    requires { length name.now ≤ MAX_NAME }
    ensures count { Counts (K.faults out.old) (K.faults out.new) result }
    ensures written { PutAppends (K.held out.old) (K.held out.new) result (row_text name.now (pos count ∷ [])) }
{
    let mut row = RowText::new();
    add(&mut row, name);
    add_number(&mut row, count);
    put(out, row)
}

//! The numbers of a record, read from their decimal form.
ghost use Rattle.std.specs.Prelude.{◌≡◌, ◌≤◌, ◌+◌, length, drop, option_map, IfSome};
ghost use Rattle.csv.specs.Records.{fields_of};
ghost use Rattle.dem_frame.specs.Records.{number_of, numbers_of, is_row, row_of};

use crate::row::MAX_NUMBERS;
use arrayvec::ArrayVec;
use csv::ByteRecord;
use itoa::Buffer;
use std::str;

/// The number whose decimal form the field is: without a leading zero, `-` before a negative one, within 64 bits with its sign.
pub fn read_number(field: &[u8]) -> Option<i64>
    ensures { result ≡ number_of field.now }
{
    let Ok(text) = str::from_utf8(field) else {
        return None;
    };
    let Ok(number) = text.parse::<i64>() else {
        return None;
    };
    let mut digits = Buffer::new();
    if digits.format(number).as_bytes() == field {
        Some(number)
    } else {
        None
    }
}

/// The numbers of a row, in order.
pub(crate) type Numbers = ArrayVec<i64, MAX_NUMBERS>;

// Whether the record has this name and so many fields behind it.
#[tactic(auto, unfolding(crate::specs::Records::is_row))]
fn is_row_named(row: &ByteRecord, name: &[u8], count: usize) -> bool
    requires { count ≤ MAX_NUMBERS }
    ensures { result ≡ is_row name.now count (fields_of row.now) }
{
    match row.get(0) {
        Some(field) => field == name && row.len() == count + 1,
        None => false,
    }
}

// The numbers of a row behind its name.
fn numbers_behind(row: &ByteRecord, count: usize) -> Option<Numbers>
    requires few { count ≤ MAX_NUMBERS }
    requires whole { length (fields_of row.now) ≡ count + 1 }
    ensures numbers { option_map (λ numbers. numbers.items) result ≡ numbers_of (drop 1 (fields_of row.now)) }
    ensures count { IfSome result (λ numbers. length numbers.items ≡ count) }
{
    let mut numbers = Numbers::new();
    for i in 0..count {
        let Some(field) = row.get(i + 1) else {
            return None;
        };
        let Some(number) = read_number(field) else {
            return None;
        };
        numbers.push(number);
    }
    Some(numbers)
}

/// The numbers of a record of this name that has `count` of them.
#[tactic(auto, unfolding(crate::specs::Records::row_of))]
pub(crate) fn row_numbers(row: &ByteRecord, name: &[u8], count: usize) -> Option<Numbers>
    requires { count ≤ MAX_NUMBERS }
    ensures numbers { option_map (λ numbers. numbers.items) result ≡ row_of name.now count (fields_of row.now) }
    ensures count { IfSome result (λ numbers. length numbers.items ≡ count) }
{
    if is_row_named(row, name, count) {
        numbers_behind(row, count)
    } else {
        None
    }
}

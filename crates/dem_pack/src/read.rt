//! The row that asks for a packing, read without memory.
ghost use Rattle.std.specs.Prelude.{◌≡◌, ◌<◌, ◌≤◌, ◌^◌, IfSome, option_map, pos};
ghost use Rattle.dem_model.specs.Sound.{IsFrom};
ghost use Rattle.dem_model.specs.declared.limits.TheConstants.{MAX_CLUMPS};
ghost use Rattle.dem_pack.specs.Asks.{IsAsk, IsCorner};
ghost use Rattle.dem_pack.specs.Rows.{Front, ask_behind, ask_of, corner_before, corner_limit, corner_of, field_before, kind_of, line_of, number_before, number_in};

use crate::ask::{Ask, Kind};
use dem_frame::read_number;
use dem_model::MAX_POINT;
use dem_num::Vec3;

// The greatest number of a template.
const MAX_TEMPLATE: u64 = 255;
// The greatest gap.
const MAX_GAP: u64 = 67_108_864;

// The field before the first comma, and the bytes behind it.
fn field_before(bytes: &[u8]) -> Option<(&[u8], &[u8])>
    ensures { option_map (λ f. record { says = f.0.now; rest = f.1.now }) result ≡ field_before bytes.now }
{
    for i in 0..bytes.len() {
        if bytes[i] == b',' {
            return Some((&bytes[..i], &bytes[i + 1..]));
        }
    }
    None
}

// The number that a field is in decimal form, from 0 to the highest.
#[tactic(auto, unfolding(crate::specs::Rows::number_in))]
fn number_in(high: u64, field: &[u8]) -> Option<u64>
    requires { high ≤ 2 ^ 36 }
    ensures value { result ≡ number_in high field.now }
    ensures few { IfSome result (λ n. n ≤ high) }
{
    let number = read_number(field)?;
    if 0 <= number && number <= high as i64 {
        Some(number as u64)
    } else {
        None
    }
}

// The number before the first comma, and the bytes behind it.
#[tactic(auto, unfolding(crate::specs::Rows::number_before))]
fn number_before(high: u64, bytes: &[u8]) -> Option<(u64, &[u8])>
    requires { high ≤ 2 ^ 36 }
    ensures value { option_map (λ f. record { says = f.0; rest = f.1.now }) result ≡ number_before high bytes.now }
    ensures few { IfSome result (λ f. f.0 ≤ high) }
{
    let (field, rest) = field_before(bytes)?;
    let number = number_in(high, field)?;
    Some((number, rest))
}

// The corner of these components.
fn corner(x: u64, y: u64, z: u64) -> Vec3
    requires x { x ≤ corner_limit }
    requires y { y ≤ corner_limit }
    requires z { z ≤ corner_limit }
    ensures x { result.x ≡ pos x }
    ensures y { result.y ≡ pos y }
    ensures z { result.z ≡ pos z }
    ensures limits { IsCorner result }
{
    Vec3 {
        x: x as i64,
        y: y as i64,
        z: z as i64,
    }
}

// The corner before the third comma, and the bytes behind it.
#[tactic(auto, unfolding(crate::specs::Rows::corner_before))]
fn corner_before(bytes: &[u8]) -> Option<(Vec3, &[u8])>
    ensures value { option_map (λ f. record { says = f.0; rest = f.1.now }) result ≡ corner_before bytes.now }
    ensures limits { IfSome result (λ f. IsCorner f.0) }
{
    let (x, rest) = number_before(MAX_POINT, bytes)?;
    let (y, rest) = number_before(MAX_POINT, rest)?;
    let (z, rest) = number_before(MAX_POINT, rest)?;
    Some((corner(x, y, z), rest))
}

// The corner that the rest of a row is.
#[tactic(auto, unfolding(crate::specs::Rows::corner_of))]
fn last_corner(bytes: &[u8]) -> Option<Vec3>
    ensures value { result ≡ corner_of bytes.now }
    ensures limits { IfSome result IsCorner }
{
    let (x, rest) = number_before(MAX_POINT, bytes)?;
    let (y, rest) = number_before(MAX_POINT, rest)?;
    let z = number_in(MAX_POINT, rest)?;
    Some(corner(x, y, z))
}

// The kind of this name.
#[tactic(auto, unfolding(crate::specs::Rows::kind_of))]
fn kind(name: &[u8]) -> Option<Kind>
    ensures { result ≡ kind_of name.now }
{
    if name == b"grid".as_slice() {
        Some(Kind::Grid)
    } else if name == b"staggered".as_slice() {
        Some(Kind::Staggered)
    } else {
        None
    }
}

// A row without its newline, where it ends with one.
#[tactic(auto, unfolding(crate::specs::Rows::line_of))]
fn line(bytes: &[u8]) -> &[u8]
    ensures { result.now ≡ line_of bytes.now }
{
    match bytes.strip_suffix(b"\n") {
        Some(line) => line,
        None => bytes,
    }
}

// What is asked of so many clumps, by the numbers behind the kind.
#[tactic(auto, unfolding(crate::specs::Rows::ask_behind))]
fn ask_behind(kind: Kind, count: u32, bytes: &[u8]) -> Option<Ask>
    ensures value { result ≡ ask_behind kind count bytes.now }
    ensures limits { IfSome result (λ ask. IsFrom 1 MAX_CLUMPS count → IsAsk ask) }
{
    let (t, rest) = number_before(MAX_TEMPLATE, bytes)?;
    let (gap, rest) = number_before(MAX_GAP, rest)?;
    let (lo, rest) = corner_before(rest)?;
    let hi = last_corner(rest)?;
    Some(Ask {
        kind,
        t: t as u32,
        gap: gap as u32,
        lo,
        hi,
        count,
    })
}

/// What a row asks of `count` clumps; None where the bytes aren't such a row, with at most one newline at its end.
#[tactic(auto, unfolding(crate::specs::Rows::ask_of))]
pub fn read_ask(bytes: &[u8], count: u32) -> Option<Ask>
    ensures value { result ≡ ask_of count bytes.now }
    ensures limits { IfSome result (λ ask. IsFrom 1 MAX_CLUMPS count → IsAsk ask) }
{
    let (name, rest) = field_before(line(bytes))?;
    let kind = kind(name)?;
    ask_behind(kind, count, rest)
}

//! Searches in bytes.
ghost use Rattle.std.specs.Prelude.{◌≡◌, ◌≤◌, ◌<◌, ◌⊎◌, length, take, slice_get, Some};
ghost use Rattle.dem_check.specs.Rows.{line_of};

/// How many bytes two texts have in common at their beginning.
pub(crate) fn common(kept: &[u8], found: &[u8]) -> usize
    ensures kept { result ≤ length kept.now }
    ensures found { result ≤ length found.now }
    ensures same { take result kept.now ≡ take result found.now }
    ensures parts { result < length found.now → slice_get kept.now result ≡ slice_get found.now result → ⊥ }
{
    let mut n = 0;
    while n < kept.len() && n < found.len() && kept[n] == found[n] {
        n += 1;
    }
    n
}

/// How many bytes stand before the first newline.
pub(crate) fn line_len(bytes: &[u8]) -> usize
    ensures within { result ≤ length bytes.now }
    ensures line { take result bytes.now ≡ line_of bytes.now }
    ensures newline { result < length bytes.now → slice_get bytes.now result ≡ Some 10 }
{
    let mut n = 0;
    while n < bytes.len() && bytes[n] != b'\n' {
        n += 1;
    }
    n
}

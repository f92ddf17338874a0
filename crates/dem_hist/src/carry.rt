//! One walk of the old list and the new: what is held of each pair of the new one.

ghost use Rattle.std.specs.Prelude.{◌≡◌, ◌≤◌, ◌++◌, [], ◌∷◌, true, length, OnOk};
ghost use Rattle.dem_model.specs.Carry.{carried};
ghost use Rattle.dem_hist.specs.Inside.{AllBefore, IsReached, IsStretch};

use dem_list::{PairList, is_before};
use dem_model::{OutOfMemory, Pair};
use dem_num::Vec3;

/// Whether two lists have the same pairs.
pub fn are_same(list: &PairList, other: &PairList) -> bool
    ensures { result ≡ true → list.now.pairs ≡ other.now.pairs }
{
    if list.len() != other.len() {
        return false;
    }
    for i in 0..list.len() {
        if list.get(i) != other.get(i) {
            return false;
        }
    }
    true
}

/// The first place from `at` on whose pair doesn't come before `pair`.
fn reached(old: &PairList, mut at: u32, pair: Pair) -> u32
    requires within { at ≤ length old.now.pairs }
    requires before { AllBefore old.now.pairs at pair }
    ensures { IsReached old.now.pairs result pair }
{
    while at < old.len() {
        if !is_before(old.get(at), pair) {
            return at;
        }
        at += 1;
    }
    at
}

/// How many pairs on end are the same in both lists, from place `at` of the old one and place `j` of the new one.
fn stretch(old: &PairList, at: u32, new: &PairList, j: u32) -> u32
    requires old_place { at ≤ length old.now.pairs }
    requires new_place { j ≤ length new.now.pairs }
    ensures { IsStretch old.now.pairs at new.now.pairs j result }
{
    let most = (old.len() - at).min(new.len() - j);
    for count in 0..most {
        if old.get(at + count) != new.get(j + count) {
            return count;
        }
    }
    most
}

/// Appends an entry.
fn pushed(spare: &mut Vec<Option<Vec3>>, entry: Option<Vec3>) -> Result<(), OutOfMemory>
    ensures { OnOk result (spare.new.items ≡ spare.old.items ++ entry ∷ []) }
{
    match spare.push(entry) {
        Ok(()) => Ok(()),
        Err(_) => Err(OutOfMemory),
    }
}

/// Appends entries.
fn appended(spare: &mut Vec<Option<Vec3>>, entries: &[Option<Vec3>]) -> Result<(), OutOfMemory>
    ensures { OnOk result (spare.new.items ≡ spare.old.items ++ entries.now) }
{
    match spare.extend_from_slice(entries) {
        Ok(()) => Ok(()),
        Err(_) => Err(OutOfMemory),
    }
}

/// Fills `spare` with what is held of each pair of the new list.
pub fn fill(
    spare: &mut Vec<Option<Vec3>>,
    old: &PairList,
    entries: &[Option<Vec3>],
    new: &PairList,
) -> Result<(), OutOfMemory>
    requires { length entries.now ≡ length old.now.pairs }
    ensures { OnOk result (spare.new.items ≡ carried old.now.pairs entries.now new.now.pairs) }
{
    let _pairs = old.len();
    spare.clear();
    let mut at = 0;
    let mut j = 0;
    while j < new.len() {
        at = reached(old, at, new.get(j));
        let count = stretch(old, at, new, j);
        if count == 0 {
            pushed(spare, None)?;
            j += 1;
        } else {
            appended(spare, &entries[at as usize..(at + count) as usize])?;
            at += count;
            j += count;
        }
    }
    Ok(())
}

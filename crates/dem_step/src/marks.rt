//! Which pairs of the list in use a step looks at: all, until marks are made, and then those that may touch.

ghost use Rattle.std.specs.Prelude.{ℕ, ◌≡◌, ◌⊎◌, ◌<◌, ◌≤◌, true, false, All, Some, OnOk, length, slice_get, slice_index_or};
ghost use Rattle.dem_model.specs.Motion.{AreInside, IsPair};
ghost use Rattle.dem_model.specs.declared.limits.TheConstants.{MAX_DRIFT};
ghost use Rattle.dem_model.specs.declared.state.Pair.{Pair};
ghost use Rattle.dem_margin.specs.Marks.{may_touch as may};
ghost use Rattle.dem_step.specs.Marks.{is_met};

use crate::room::make_room;
use dem_list::PairList;
use dem_margin::may_touch;
use dem_model::OutOfMemory;
use dem_shape::{Centers, Shapes};
use std::alloc::Global;

/// A mark per place of the list in use: whether its pair may touch in what is left of the list's life. Until they are made
/// each pair may.
#[derive(Drop)]
pub struct Marks {
    pub made: bool,
    pub may: Vec<bool>,
}

impl Marks {
    /// No marks yet; it keeps `alloc` and takes no memory.
    pub fn new(alloc: Global) -> Marks
        ensures { result.made ≡ false }
    {
        Marks {
            made: false,
            may: Vec::new(alloc),
        }
    }

    /// Forgets all marks, and makes room for those of a list of so many pairs.
    pub fn forget(&mut self, count: u32) -> Result<(), OutOfMemory>
        ensures none { self.new.made ≡ false }
        ensures room { OnOk result (count ≤ length self.new.may.items) }
        ensures grows { length self.old.may.items ≤ length self.new.may.items }
    {
        self.clear();
        make_room(&mut self.may, true, count)
    }

    /// Forgets all marks; their room stays.
    pub fn clear(&mut self)
        ensures none { self.new.made ≡ false }
        ensures room { self.new.may ≡ self.old.may }
    {
        self.made = false;
    }

    /// Whether the pair at a place is looked at.
    pub fn is_met(&self, i: u32) -> bool
        requires { i < length self.now.may.items }
        ensures { result ≡ is_met self.now i }
    {
        !self.made || self.may[i as usize]
    }

    /// As `renew`; but where the pairs have met already, it leaves the marks as they are.
    pub fn renew_unless(
        &mut self,
        has_met: bool,
        shapes: &Shapes,
        centers: &Centers,
        list: &PairList,
        left: u32,
    )
        requires room { length list.now.pairs ≤ length self.old.may.items }
        requires centers { AreInside shapes.now centers.now }
        requires pairs { All (IsPair shapes.now) list.now.pairs }
        requires left { left ≤ MAX_DRIFT }
        ensures room { length self.new.may.items ≡ length self.old.may.items }
        ensures right { (i : ℕ) (p : Pair) → slice_get list.now.pairs i ≡ Some p → is_met self.new i ≡ false → (is_met self.old i ≡ false) ⊎ (may shapes.now left centers.now p ≡ false) }
    {
        if !has_met {
            self.renew(shapes, centers, list, left);
        }
    }

    /// Makes the marks, where none are made for the list, from where the spheres are and how many steps it is used yet.
    pub fn renew(&mut self, shapes: &Shapes, centers: &Centers, list: &PairList, left: u32)
        requires room { length list.now.pairs ≤ length self.old.may.items }
        requires centers { AreInside shapes.now centers.now }
        requires pairs { All (IsPair shapes.now) list.now.pairs }
        requires left { left ≤ MAX_DRIFT }
        ensures room { length self.new.may.items ≡ length self.old.may.items }
        ensures right { (i : ℕ) (p : Pair) → slice_get list.now.pairs i ≡ Some p → is_met self.new i ≡ false → (is_met self.old i ≡ false) ⊎ (may shapes.now left centers.now p ≡ false) }
    {
        if self.made {
            return;
        }
        mark_all(self.may.as_mut_slice(), shapes, centers, list, left);
        self.made = true;
    }
}

/// Marks each pair of a list that may touch within so many steps after these centers.
fn mark_all(marks: &mut [bool], shapes: &Shapes, centers: &Centers, list: &PairList, left: u32)
    requires room { length list.now.pairs ≤ length marks.old }
    requires centers { AreInside shapes.now centers.now }
    requires pairs { All (IsPair shapes.now) list.now.pairs }
    requires left { left ≤ MAX_DRIFT }
    ensures room { length marks.new ≡ length marks.old }
    ensures marked { (i : ℕ) (p : Pair) → slice_get list.now.pairs i ≡ Some p → slice_index_or marks.new i true ≡ may shapes.now left centers.now p }
{
    for i in 0..list.len() {
        marks[i as usize] = may_touch(shapes, centers, list.get(i), left);
    }
}

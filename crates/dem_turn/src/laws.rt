//! What turning by a quaternion does, as laws that callers may cite: each call does nothing, and its law holds for whole
//! numbers of any size. The first four speak of forms: turned vectors before any division.

ghost use Rattle.std.specs.Prelude.{◌≡◌, ℕ, pos, ◌+◌, ◌*◌, ◌^◌, ◌<◌, ◌≤◌};
ghost use Rattle.dem_num.specs.declared.vector.Quat.{Quat};
ghost use Rattle.dem_num.specs.declared.vector.Wide3.{Wide3};
ghost use Rattle.dem_num.specs.Vectors.{sum_of, difference_of, scaled, cross_of, norm2_of, Within};
ghost use Rattle.dem_num.specs.Rotations.{
  quat_norm2_of,
  turned_of,
  stepped_of,
  unit_quat_of,
  turn_step_of,
  arm_of,
  swing_limit_of,
};
ghost use Rattle.dem_turn.specs.Forms.{form_turned, step_quat, step_norm2_of, swing_of, FormsClose};

/// The stepped quaternion turns a vector as the step and then the quaternion do, and its length is the product of theirs.
pub fn product_law()
    ensures turned { (q : Quat) (w o : Wide3) → form_turned (stepped_of q w) o ≡ form_turned q (form_turned (step_quat w) o) }
    ensures length { (q : Quat) (w : Wide3) → quat_norm2_of (stepped_of q w) ≡ quat_norm2_of q * step_norm2_of w }
{}

/// One step of spin moves a vector along the cross product of spin and vector, and along that of the spin with it again:
/// together by twice the step's length times the cross product, which is at most as long as spin times vector.
pub fn turn_law()
    ensures parts { (w o : Wide3) → swing_of w o ≡ sum_of (scaled (pos (2 ^ 32)) (cross_of w o)) (scaled (pos 2) (cross_of w (cross_of w o))) }
    ensures length { (w o : Wide3) → norm2_of (swing_of w o) ≡ 4 * (step_norm2_of w * norm2_of (cross_of w o)) }
    ensures at_most { (w o : Wide3) → norm2_of (cross_of w o) ≤ norm2_of w * norm2_of o }
{}

/// Beyond what the quaternion does, the stepped one moves a vector by what the step moves it, turned; and how far at most.
pub fn exact_turn_law()
    ensures moved { (q : Quat) (w o : Wide3) → difference_of (form_turned (stepped_of q w) o) (scaled (pos (step_norm2_of w)) (form_turned q o)) ≡ form_turned q (swing_of w o) }
    ensures at_most { (q : Quat) (w o : Wide3) → norm2_of (form_turned q (swing_of w o)) ≤ quat_norm2_of q * quat_norm2_of q * (4 * (step_norm2_of w * (norm2_of w * norm2_of o))) }
{}

/// A turned vector is as long as the vector, times the square of the quaternion's length.
pub fn length_law()
    ensures { (q : Quat) (o : Wide3) → norm2_of (form_turned q o) ≡ quat_norm2_of q * quat_norm2_of q * norm2_of o }
{}

/// A quaternion of some length, brought to length one, stands for nearly the same rotation, and is at least nearly so long.
pub fn truncation_law()
    ensures close { (t : Quat) → 0 < quat_norm2_of t → FormsClose (unit_quat_of t) t }
    ensures long { (t : Quat) → 0 < quat_norm2_of t → 2 ^ 60 ≤ quat_norm2_of (unit_quat_of t) + 3 * 2 ^ 31 }
{}

/// A step of spin keeps each offset within its swing limit, and keeps some length.
pub fn swing_law()
    ensures within { (q : Quat) (w o : Wide3) (spin : ℕ) → 0 < quat_norm2_of q → Within w spin → Within (difference_of (turned_of (turn_step_of q w) o) (turned_of q o)) (swing_limit_of spin (arm_of o)) }
    ensures some { (q : Quat) (w : Wide3) → 0 < quat_norm2_of q → 0 < quat_norm2_of (turn_step_of q w) }
{}

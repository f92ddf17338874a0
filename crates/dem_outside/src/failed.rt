//! The answer of a read or a put that failed, and the count of such answers.
ghost use Rattle.std.specs.Prelude.{◌≡◌};
ghost use Rattle.dem_outside.specs.Faults.{next_of, Rose};

/// The outside failed in this call; its count of faults says that it did.
#[derive(Clone, Copy, Debug, PartialEq, Eq)]
pub struct Failed;

// Counts one more fault, or one more call.
pub(crate) fn count_one(count: &mut u64)
    ensures one_more { count.new ≡ next_of count.old }
    ensures rose { Rose count.old count.new }
{
    *count = count.saturating_add(1);
}

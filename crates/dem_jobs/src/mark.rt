//! The line that parts an input: where it is, and what stands behind it.
ghost use Rattle.std.specs.Prelude.{◌≡◌, ◌≤◌, length, IfSome};
ghost use Rattle.dem_jobs.specs.Marks.{begins_line as begins_line_of, ends_line as ends_line_of, is_mark_at as is_mark_of, mark_in as mark_of, behind as behind_of};

/// The place of the first line that is the mark.
#[tactic(auto, unfolding(crate::specs::Marks::mark_in))]
pub(crate) fn mark_in(mark: &[u8], input: &[u8]) -> Option<usize>
    ensures place { result ≡ mark_of mark.now input.now }
    ensures within { IfSome result (λ at. at ≤ length input.now) }
{
    (0..input.len() + 1).find(|i| is_mark_at(mark, input, *i))
}

/// What stands behind the line of the mark; nothing where the input ends with it.
pub(crate) fn behind<'a>(mark: &[u8], input: &'a [u8], at: usize) -> &'a [u8]
    requires { at ≤ length input.now }
    ensures { result.now ≡ behind_of mark.now input.now at }
{
    &input[(at + (mark.len() + 1)).min(input.len())..]
}

// Whether the line at this place is exactly the mark.
#[tactic(auto, unfolding(crate::specs::Marks::is_mark_at))]
fn is_mark_at(mark: &[u8], input: &[u8], at: usize) -> bool
    requires { at ≤ length input.now }
    ensures { result ≡ is_mark_of mark.now input.now at }
{
    if !begins_line(input, at) {
        return false;
    }
    if !input[at..].starts_with(mark) {
        return false;
    }
    ends_line(input, at + mark.len())
}

// Whether a line begins at this place.
#[tactic(auto, unfolding(crate::specs::Marks::begins_line))]
fn begins_line(input: &[u8], at: usize) -> bool
    requires { at ≤ length input.now }
    ensures { result ≡ begins_line_of input.now at }
{
    at == 0 || input[at - 1] == b'\n'
}

// Whether a line ends at this place.
#[tactic(auto, unfolding(crate::specs::Marks::ends_line))]
fn ends_line(input: &[u8], at: usize) -> bool
    ensures { result ≡ ends_line_of input.now at }
{
    at >= input.len() || input[at] == b'\n'
}

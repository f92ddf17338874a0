//! The verdict of a comparison.

use dem_model::List;

/// A row without its newline.
#[derive(Drop)]
pub struct Line {
    pub text: List<u8>,
}

/// What the comparison of a text with the output of a scene comes to.
#[derive(Drop)]
pub enum Verdict {
    /// The text is the output.
    Same,
    /// The first row that differs, counted from 1, with what the text and the output have there; neither where there is no such row.
    /// Where the text alone lacks the last newline, both are there and have the same bytes.
    Differs {
        row: u64,
        kept: Option<Line>,
        found: Option<Line>,
    },
}

// Parts of lent bytes by their place, so that nothing is copied for a text.
use crate::names::Line;

#[derive(Clone, Copy, Debug, PartialEq, Eq)]
pub struct Span {
    pub start: usize,
    pub len: usize,
}

// An add as it lies in the bytes of its change: the two lines between which the new line goes, and where its text is.
#[derive(Clone, Copy, Debug, PartialEq, Eq)]
pub struct AddAt {
    pub after: Line,
    pub before: Line,
    pub text: Span,
}

pub const ADD_LIMIT: usize = 64;

impl AddAt {
    // What fills a place that is not in use.
    pub const BLANK: AddAt = AddAt {
        after: Line(0),
        before: Line(0),
        text: Span { start: 0, len: 0 },
    };
}

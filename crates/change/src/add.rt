// An add as it is read: the two lines between which the new line goes, and its text, a part of the lent bytes.
use crate::names::Line;

#[derive(Clone, Copy)]
pub struct AddView<'a> {
    pub after: Line,
    pub before: Line,
    pub text: &'a [u8],
}

impl AddView<'_> {
    // What fills a place that is not in use.
    pub const BLANK: AddView<'static> = AddView {
        after: Line::START,
        before: Line::END,
        text: &[],
    };
}

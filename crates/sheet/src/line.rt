// The lines of a sheet as they are given to be shown.
use change::names::Line;
use change::span::Span;

// A living line: its number, its slot in the table, and where its text lies in the lent area.
#[derive(Clone, Copy)]
pub struct LineAt {
    pub number: Line,
    pub slot: usize,
    pub text: Span,
}

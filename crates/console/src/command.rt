// The commands that a line can say.
use change::names::{Line, Name, Sheet};

#[derive(Clone, Copy)]
pub enum Command<'a> {
    Sheet(Sheet),
    Add {
        after: Line,
        before: Line,
        text: &'a [u8],
    },
    Kill(Line),
    Make,
    Back(Name),
    // The digits of a change, which `from_hex` reads.
    Take(&'a str),
    Have,
    Send(&'a str),
    Show,
    Lines,
}

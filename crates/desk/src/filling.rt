// The command by which a writer adds a line to a request.
ghost use Rattle.history.specs.Book as histories;
ghost use Rattle.drafts.specs.Asked.{asked_by};
ghost use Rattle.desk.specs.Answering.{AddAnswered};

use answers::refused;
use change::names::Line;
use change::trouble::Trouble;
use drafts::request::Request;
use std::alloc::AllocError;

// A line is to be added; what is no line's text is refused.
pub fn add(
    request: &mut Request,
    after: Line,
    before: Line,
    text: &[u8],
    out: &mut Vec<u8>,
) -> Result<(), AllocError>
    ensures { (book : histories.Book) → AddAnswered (record { after = after.0; before = before.0; text = text.now }) (record { book = book; request = asked_by request.old }) (record { book = book; request = asked_by request.new }) out.old.items out.new.items result }
{
    match request.add(after, before, text) {
        Ok(()) => Ok(()),
        Err(Trouble::Refused(refusal)) => refused(out, refusal),
        Err(Trouble::Memory) => Err(AllocError),
    }
}

// A request is begun, and filled in line by line.
ghost use Rattle.std.specs.Prelude.{◌≡◌, true, [], length, is_ok, if◌then◌else◌};
ghost use Rattle.change.specs.WellFormed.{is_text};
ghost use Rattle.drafts.specs.Asked.{asked_by};
ghost use Rattle.drafts.specs.Parts.{with_add, with_kill, TextAnswered};

use crate::request::Request;
use change::names::{Line, Sheet};
use change::refusal::Refusal;
use change::span::{AddAt, Span};
use change::text::is_text;
use change::trouble::Trouble;
use std::alloc::{AllocError, Global};

impl Request {
    // Nothing is asked for yet, on this sheet.
    pub fn new(heap: Global, sheet: Sheet) -> Request
        ensures { asked_by result ≡ record { sheet = sheet.0; adds = []; kills = [] } }
    {
        Request {
            sheet,
            adds: Vec::new(heap),
            texts: Vec::new(heap),
            kills: Vec::new(heap),
        }
    }

    // The sheet that it is for.
    pub fn sheet(&self) -> Sheet
        ensures { result.0 ≡ (asked_by self.now).sheet }
    {
        self.sheet
    }

    // How many lines it adds.
    pub fn adds(&self) -> usize
        ensures { result ≡ length (asked_by self.now).adds }
    {
        self.adds.len()
    }

    // A line with this text is to go between two others; want of memory alters nothing.
    pub fn add_line(&mut self, after: Line, before: Line, text: &[u8]) -> Result<(), AllocError>
        requires { is_text text.now ≡ true }
        ensures { asked_by self.new ≡ (if is_ok result then with_add (asked_by self.old) (record { after = after.0; before = before.0; text = text.now }) else asked_by self.old) }
    {
        let place = Span {
            start: self.texts.len(),
            len: text.len(),
        };
        self.texts.extend_from_slice(text)?;
        self.adds.push(AddAt {
            after,
            before,
            text: place,
        })?;
        Ok(())
    }

    // The same of a text that may be none, which is refused then; the request stays as it was, and where there is no memory.
    pub fn add(&mut self, after: Line, before: Line, text: &[u8]) -> Result<(), Trouble>
        ensures answer { TextAnswered (is_text text.now) result }
        ensures request { asked_by self.new ≡ (if is_ok result then with_add (asked_by self.old) (record { after = after.0; before = before.0; text = text.now }) else asked_by self.old) }
    {
        if !is_text(text) {
            return Err(Trouble::Refused(Refusal::Malformed));
        }
        self.add_line(after, before, text)?;
        Ok(())
    }

    // A line is to be struck out; want of memory alters nothing.
    pub fn kill(&mut self, line: Line) -> Result<(), AllocError>
        ensures { asked_by self.new ≡ (if is_ok result then with_kill (asked_by self.old) line.0 else asked_by self.old) }
    {
        self.kills.push(line)?;
        Ok(())
    }
}

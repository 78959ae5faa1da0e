// Whether a request keeps to its sheet.
ghost use Rattle.std.specs.Prelude.{◌≡◌};
ghost use Rattle.std.specs.List.{list_all};
ghost use Rattle.shelf.specs.Sane.{changes};
ghost use Rattle.drafts.specs.Asked.{asked_by};
ghost use Rattle.drafts.specs.Lines.{is_add_of_sheet, may_be_struck};
ghost use Rattle.drafts.specs.Named.{keeps_to_sheet_among};

use crate::request::Request;
use change::names::{Line, Sheet};
use change::span::AddAt;
use shelf::Shelf;

fn is_add_of_sheet(shelf: &Shelf<'_>, sheet: Sheet, add: AddAt) -> bool
    ensures { result ≡ is_add_of_sheet (changes shelf.now) sheet.0 add }
{
    shelf.is_line_of_sheet(add.after, sheet) && shelf.is_line_of_sheet(add.before, sheet)
}

fn are_adds_of_sheet(shelf: &Shelf<'_>, sheet: Sheet, adds: &[AddAt]) -> bool
    ensures { result ≡ list_all (is_add_of_sheet (changes shelf.now) sheet.0) adds.now }
{
    adds.iter().all(|add| is_add_of_sheet(shelf, sheet, *add))
}

// Neither the start nor the end can be struck out.
fn may_be_struck(shelf: &Shelf<'_>, sheet: Sheet, line: Line) -> bool
    ensures { result ≡ may_be_struck (changes shelf.now) sheet.0 line }
{
    shelf.is_line_of_sheet(line, sheet) && line.is_added()
}

fn may_all_be_struck(shelf: &Shelf<'_>, sheet: Sheet, lines: &[Line]) -> bool
    ensures { result ≡ list_all (may_be_struck (changes shelf.now) sheet.0) lines.now }
{
    lines.iter().all(|line| may_be_struck(shelf, sheet, *line))
}

impl Request {
    // No line that is named is of another sheet.
    #[tactic(auto, using(crate::proofs::Keeping::keeps_to_sheet_line_by_line))]
    pub fn keeps_to_sheet(&self, shelf: &Shelf<'_>) -> bool
        ensures { result ≡ keeps_to_sheet_among (changes shelf.now) (asked_by self.now) }
    {
        are_adds_of_sheet(shelf, self.sheet, &self.adds)
            && may_all_be_struck(shelf, self.sheet, &self.kills)
    }
}

// Whether the lines that a request names are known.
ghost use Rattle.std.specs.Prelude.{◌≡◌, ◌<◌, MatchOption};
ghost use Rattle.std.specs.List.{list_all, enumerate_from};
ghost use Rattle.change.specs.Model.{line_of};
ghost use Rattle.shelf.specs.Sane.{changes};
ghost use Rattle.drafts.specs.Asked.{asked_by};
ghost use Rattle.drafts.specs.Named.{is_known_among};
ghost use Rattle.drafts.specs.Lines.{is_own, is_here, may_name, may_name_both};

use crate::request::Request;
use crate::request::upcoming::Upcoming;
use change::names::{Line, Name};
use change::span::{ADD_LIMIT, AddAt};
use shelf::Shelf;

// How far a line is behind the first of the change of this name, where it is not before it. Past a plant's last count the numbers of lines don't fit 32 bits.
pub fn place_in(name: Name, line: Line) -> Option<u64>
    ensures { MatchOption result (line.0 < line_of name.0 0) (λ place. line.0 ≡ line_of name.0 place) }
{
    let first = u64::from(name.0) * ADD_LIMIT as u64;
    u64::from(line.0).checked_sub(first)
}

// The line is one of so many of the change of this name.
fn is_own(name: Name, count: usize, line: Line) -> bool
    ensures { result ≡ is_own name.0 count line.0 }
{
    place_in(name, line).is_some_and(|place| place < count as u64)
}

impl Upcoming<'_, '_> {
    // The add at a place of this change may name this line.
    fn may_name(&self, place: usize, line: Line) -> bool
        ensures { result ≡ may_name (changes self.now.shelf.now) self.now.name.0 place line.0 }
    {
        !line.is_added() || is_own(self.name, place, line) || self.shelf.has_line(line)
    }

    pub(super) fn may_name_both(&self, place: usize, add: AddAt) -> bool
        ensures { result ≡ may_name_both (changes self.now.shelf.now) self.now.name.0 place add }
    {
        self.may_name(place, add.after) && self.may_name(place, add.before)
    }

    fn are_adds_known(&self, adds: &[AddAt]) -> bool
        ensures { result ≡ list_all (λ p. may_name_both (changes self.now.shelf.now) self.now.name.0 p.0 p.1) (enumerate_from 0 adds.now) }
    {
        adds.iter()
            .enumerate()
            .all(|(place, add)| self.may_name_both(place, *add))
    }
}

fn are_here(shelf: &Shelf<'_>, lines: &[Line]) -> bool
    ensures { result ≡ list_all (is_here (changes shelf.now)) lines.now }
{
    lines.iter().all(|line| shelf.has_line(*line))
}

impl Request {
    // Each line that is named is in the book, or of an earlier add; what is struck out is in the book.
    pub fn is_known(&self, upcoming: &Upcoming<'_, '_>) -> bool
        ensures { result ≡ is_known_among (changes upcoming.now.shelf.now) upcoming.now.name.0 (asked_by self.now) }
    {
        upcoming.are_adds_known(&self.adds) && are_here(upcoming.shelf, &self.kills)
    }
}

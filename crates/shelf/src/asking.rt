// What is asked before a change is made: of lines, of their order, and of room.
ghost use Rattle.std.specs.Prelude.{◌≡◌};
ghost use Rattle.order.specs.Table.{bef, placed};
ghost use Rattle.shelf.specs.Asking.{has_line, is_line_of_sheet, room_for_adds};
ghost use Rattle.shelf.specs.Sane.{changes};

use crate::{CHANGE_LIMIT, Shelf};
use change::names::{Line, Sheet};
use change::span::ADD_LIMIT;

impl<'a> Shelf<'a> {
    // A change here adds this line; none adds the start or the end.
    pub fn has_line(&self, line: Line) -> bool
        ensures { result ≡ has_line (changes self.now) line.0 }
    {
        line.is_added() && self.lines.has(line.0)
    }

    // No change of another sheet adds this line: its number has the name of the change that does.
    pub fn is_line_of_sheet(&self, line: Line, sheet: Sheet) -> bool
        ensures { result ≡ is_line_of_sheet (changes self.now) sheet.0 line.0 }
    {
        if !self.has_line(line) {
            return true;
        }
        self.is_of_sheet(line.bringer(), sheet)
    }

    // Line `u` stands before line `v`.
    pub fn stands_before(&self, u: Line, v: Line) -> bool
        ensures { result ≡ bef (placed (changes self.now)) u.0 v.0 }
    {
        self.lines.before(u.0, v.0)
    }

    // A change with so many adds would not pass a limit: the free slots are as many as the lines that may still come, and those of one change more.
    pub fn has_room_for(&self, adds: usize) -> bool
        ensures { result ≡ room_for_adds (changes self.now) adds }
    {
        self.store.len() < CHANGE_LIMIT && adds <= self.lines.free() - ADD_LIMIT
    }
}

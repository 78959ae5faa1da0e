// Making a change of a request: refused, or its bytes.
ghost use Rattle.std.specs.Prelude.{◌≤◌, vec_items};
ghost use Rattle.change.specs.WellFormed.{lowest_name};
ghost use Rattle.history.specs.Book.{Book};
ghost use Rattle.shelf.specs.Sane.{changes};
ghost use Rattle.drafts.specs.Asked.{asked_by};
ghost use Rattle.drafts.specs.Refusing.{Next, Comes};

use crate::request::Request;
use crate::request::upcoming::Upcoming;
use change::names::Name;
use change::trouble::Trouble;
use shelf::Shelf;
use std::alloc::Global;

impl Request {
    // The bytes of the change of this name that does what is asked, or why it isn't made.
    pub fn make(&self, heap: Global, shelf: &Shelf<'_>, name: Name) -> Result<Vec<u8>, Trouble>
        requires { lowest_name ≤ name.0 }
        ensures { (B : Book) → Next B (changes shelf.now) name.0 → Comes vec_items B (asked_by self.now) result }
    {
        let needs = self.needs(heap, name)?;
        let kills = self.rising_kills(heap)?;
        let upcoming = Upcoming { shelf, name };
        self.may_be_made(&upcoming, needs.len(), kills.len())?;
        Ok(self.bytes_as(heap, name, &needs, &kills)?)
    }
}

// A change comes in, or is turned away.
ghost use Rattle.std.specs.Prelude.{◌≡◌, true, false, Ok, IsOk, IfOk, IfErr};
ghost use Rattle.change.specs.Few.{listed};
ghost use Rattle.change.specs.Viewed.{viewed};
ghost use Rattle.history.specs.declared.Outcome.TheVariants.{Refused};
ghost use Rattle.verdict.specs.Verdict.{is_known, needs_here};
ghost use Rattle.shelf.specs.Admitting.{room_for, admission, Admitted, ReadyFor};
ghost use Rattle.shelf.specs.Roomy.{Roomy};
ghost use Rattle.shelf.specs.Sane.{changes};

use crate::{CHANGE_LIMIT, Shelf};
use change::few::Few;
use change::refusal::Refusal;
use change::span::ADD_LIMIT;
use change::view::ChangeView;
use history::Outcome;
use store::no_room::NoRoom;

impl<'a> Shelf<'a> {
    // A book may have so many changes and lines; the free slots are as many as the lines that may still come, and those of one change more.
    fn has_room(&self, view: &ChangeView<'_>) -> bool
        ensures { result ≡ room_for (changes self.now) (viewed view.now) }
    {
        self.store.len() < CHANGE_LIMIT
            && view.adds.as_slice().len() + ADD_LIMIT <= self.lines.free()
    }

    // Makes the lines of a change ready, where all that it needs is here and its name is new, and answers with their slots; an error says why it is turned away.
    // The changes that were here stay, with their lines.
    fn make_ready(&mut self, view: &ChangeView<'_>) -> Result<Few<usize, ADD_LIMIT>, Refusal>
        requires ready { needs_here (changes self.old) (viewed view.now) ≡ true }
        requires new { is_known (changes self.old) (viewed view.now) ≡ false }
        ensures store { self.new.store ≡ self.old.store }
        ensures refused { IfErr result (λ r. Refused r ≡ admission (changes self.old) (viewed view.now)) }
        ensures ready { IfOk result (λ slots. ReadyFor self.new (viewed view.now) (listed slots)) }
    {
        if !self.related(view) {
            return Err(Refusal::Unrelated);
        }
        let Some(slots) = self
            .lines
            .prepare(view.name.line(0).0, view.adds.as_slice())
        else {
            return Err(Refusal::Unordered);
        };
        if !self.has_room(view) {
            return Err(Refusal::Full);
        }
        Ok(slots)
    }

    // Takes a change in, with its lines, where all that it needs is here and its name is new. On a shelf with room for every book that can't fail.
    pub fn admit(&mut self, view: &ChangeView<'_>) -> Result<Outcome, NoRoom>
        requires ready { needs_here (changes self.old) (viewed view.now) ≡ true }
        requires new { is_known (changes self.old) (viewed view.now) ≡ false }
        ensures admitted { Admitted self.old self.new (viewed view.now) result }
        ensures in_room { Roomy self.old.store → IsOk result × Roomy self.new.store }
    {
        let slots = match self.make_ready(view) {
            Ok(slots) => slots,
            Err(refusal) => return Ok(Outcome::Refused(refusal)),
        };
        self.store.push(view)?;
        self.lines.commit(view.name.line(0).0, slots.as_slice());
        Ok(Outcome::Taken)
    }

    // The same on a shelf with room for every book, where memory can't run out.
    pub fn admit_in_room(&mut self, view: &ChangeView<'_>) -> Outcome
        requires roomy { Roomy self.old.store }
        requires ready { needs_here (changes self.old) (viewed view.now) ≡ true }
        requires new { is_known (changes self.old) (viewed view.now) ≡ false }
        ensures admitted { Admitted self.old self.new (viewed view.now) (Ok result) }
        ensures roomy { Roomy self.new.store }
    {
        self.admit(view).unwrap()
    }
}

// Bytes come: a letter, read whole before any of it is taken, or one change.
ghost use Rattle.std.specs.Prelude.{◌≡◌, ◌+◌, ◌*◌, ◌≤◌, length, map, vec_len, vec_capacity};
ghost use Rattle.change.specs.Reading.{change_of};
ghost use Rattle.history.specs.Taking.{take};
ghost use Rattle.letters.specs.Letter.{letter_of};
ghost use Rattle.letters.specs.LetterRead.{change_in};
ghost use Rattle.sending.specs.Receiving.{and_then, received};
ghost use Rattle.world.specs.Calls.{wholly, with, take_bytes};
ghost use Rattle.plant_books.specs.Answers.{Answered};
ghost use Rattle.plant_books.specs.Sane.{model_of, Sane};

use crate::contents::Contents;
use crate::trouble::Trouble;
use change::kind::Kind;
use change::view::ChangeView;
use history::Event;
use letters::change_bytes::ChangeBytes;
use letters::letter::read_letter;
use std::alloc::Global;

impl<'a> Contents<'a> {
    // Takes one change by its bytes.
    pub fn take_change(&mut self, heap: Global, bytes: &[u8]) -> Result<Vec<Event>, Trouble>
        requires { Sane self.old }
        ensures sane { Sane self.new }
        ensures took { Answered (with (take (model_of self.old)) (wholly (change_of bytes.now))) (model_of self.old) (model_of self.new) result }
    {
        let view = ChangeView::read_whole(bytes)?;
        let mut events = Vec::with_capacity(heap, self.waiting.len() + 1)?;
        self.take(&view, &mut events);
        Ok(events)
    }

    // Takes the changes of a letter, one after the other.
    fn take_each(&mut self, changes: &[ChangeBytes<'_>], events: &mut Vec<Event>)
        requires sane { Sane self.old }
        requires room { vec_len events.old + (2 * length changes.now + length (model_of self.old).waiting) ≤ vec_capacity events.old }
        ensures sane { Sane self.new }
        ensures took { (events.new.items, model_of self.new) ≡ and_then events.old.items (received (model_of self.old) (map change_in changes.now)) }
    {
        for change in changes {
            self.take(&change.view(), events);
        }
    }

    // Takes a letter by its bytes.
    fn take_letter(&mut self, heap: Global, bytes: &[u8]) -> Result<Vec<Event>, Trouble>
        requires { Sane self.old }
        ensures sane { Sane self.new }
        ensures took { Answered (with (received (model_of self.old)) (wholly (letter_of bytes.now))) (model_of self.old) (model_of self.new) result }
    {
        let changes = read_letter(heap, bytes)?;
        let mut events = Vec::with_capacity(heap, changes.len() * 2 + self.waiting.len())?;
        self.take_each(&changes, &mut events);
        Ok(events)
    }

    // Takes what bytes bring: a letter where they begin with its mark, and else one change.
    pub fn take_bytes(&mut self, heap: Global, bytes: &[u8]) -> Result<Vec<Event>, Trouble>
        requires { Sane self.old }
        ensures sane { Sane self.new }
        ensures took { Answered (take_bytes (model_of self.old) bytes.now) (model_of self.old) (model_of self.new) result }
    {
        if bytes.first() == Some(&u8::from(Kind::Letter)) {
            return self.take_letter(heap, bytes);
        }
        self.take_change(heap, bytes)
    }
}

// A change is made on the book as it is.
ghost use Rattle.std.specs.Prelude.{◌≡◌, ◌≤◌, IfOk};
ghost use Rattle.change.specs.Model.{count_of};
ghost use Rattle.change.specs.WellFormed.{highest_name};
ghost use Rattle.history.specs.Book.{counting_all, next_name};
ghost use Rattle.making.specs.Making.{made};
ghost use Rattle.drafts.specs.Asked.{asked_by};
ghost use Rattle.plant_books.specs.Answers.{Answered};
ghost use Rattle.plant_books.specs.Counted.{counted_at};
ghost use Rattle.plant_books.specs.Named.{MadeAs};
ghost use Rattle.plant_books.specs.Sane.{model_of, Whole, Sane};

use crate::contents::Contents;
use crate::settling::higher_count;
use crate::trouble::Trouble;
use change::names::Name;
use drafts::request::Request;
use history::Event;
use std::alloc::Global;

impl<'a> Contents<'a> {
    // The higher of a count and that of the change at a place among those that wait, if it is the plant's.
    fn count_at(&self, place: usize, count: u32) -> u32
        ensures { result ≡ counted_at (model_of self.now) count place }
    {
        let Some(view) = self.waiting.get(place) else {
            return count;
        };
        higher_count(&view, self.plant, count)
    }

    // The highest count of the plant's changes, of those that came in and those that wait.
    fn highest_count(&self) -> u32
        requires { Whole self.now }
        ensures counted { result ≡ counting_all (model_of self.now).plant (model_of self.now).waiting (model_of self.now).highest }
        ensures low { result ≤ count_of highest_name }
    {
        (0..self.waiting.len()).fold(self.highest, |count, place| self.count_at(place, count))
    }

    // The name of the plant's next change.
    fn next_name(&self) -> Name
        requires { Whole self.now }
        ensures { result.0 ≡ next_name (model_of self.now) }
    {
        Name::of(self.plant, self.highest_count() + 1)
    }

    // Makes a change of a request, and takes it: refused, or the events, its own first.
    pub fn make(&mut self, heap: Global, request: &Request) -> Result<Vec<Event>, Trouble>
        requires { Sane self.old }
        ensures sane { Sane self.new }
        ensures made { Answered (made (model_of self.old) (asked_by request.now)) (model_of self.old) (model_of self.new) result }
        ensures named { IfOk result (λ events. MadeAs (model_of self.old) (asked_by request.now) events.items) }
    {
        let name = self.next_name();
        let bytes = request.make(heap, &self.shelf, name)?;
        self.take_change(heap, bytes.as_slice())
    }
}

// Looking at a book: whether a change is known, and which of those that wait is tried next.
ghost use Rattle.std.specs.Prelude.{◌≡◌, ◌||◌, IfSome, if◌then◌else◌, Option};
ghost use Rattle.std.specs.List.{slice_get};
ghost use Rattle.change.specs.Model.{Change};
ghost use Rattle.order.specs.Names.{has_name};
ghost use Rattle.history.specs.Book.{is_ready};
ghost use Rattle.history.specs.Taking.{lower, lowest_ready};
ghost use Rattle.books.specs.Next.{PlaceOf, Marks, lower_mark};
ghost use Rattle.books.specs.Sane.{model_of, Sane};

use crate::Book;
use change::names::Name;

// A change that waits and is ready: its place among those that wait, and its name.
#[derive(Clone, Copy)]
struct Mark {
    place: usize,
    name: Name,
}

// The one with the lower name; where they have the same, the first.
fn lower_mark(one: Mark, behind: Option<Mark>) -> Mark
    ensures { result ≡ lower_mark one behind }
{
    match behind {
        Some(other) if other.name < one.name => other,
        _ => one,
    }
}

impl<'a> Book<'a> {
    // A change of this name is in the book, or waits.
    pub fn is_known(&self, name: Name) -> bool
        requires { Sane self.now }
        ensures { result ≡ (has_name (model_of self.now).changes name.0 || has_name (model_of self.now).waiting name.0) }
    {
        self.shelf.has(name) || self.waiting.has(name)
    }

    // The lowest of those that are ready from a place on, where it is known of those behind it.
    fn lowest_from(&self, place: usize, behind: Option<Mark>) -> Option<Mark>
        requires { Sane self.now }
        ensures { (o : Option Change) → Marks (model_of self.now).waiting behind o → IfSome (slice_get (model_of self.now).waiting place) (λ c. Marks (model_of self.now).waiting result (if is_ready (model_of self.now) c then lower c o else o)) }
    {
        let Some(view) = self.waiting.get(place) else {
            return behind;
        };
        if !self.shelf.needs_here(&view) {
            return behind;
        }
        let one = Mark {
            place,
            name: view.name,
        };
        Some(lower_mark(one, behind))
    }

    // The place of the change that is tried next: of those that wait and are ready, the one with the lowest name.
    pub fn lowest_ready(&self) -> Option<usize>
        requires { Sane self.now }
        ensures { PlaceOf (model_of self.now).waiting result (lowest_ready (model_of self.now)) }
    {
        let mut lowest = None;
        for place in (0..self.waiting.len()).rev() {
            lowest = self.lowest_from(place, lowest);
        }
        match lowest {
            Some(mark) => Some(mark.place),
            None => None,
        }
    }
}

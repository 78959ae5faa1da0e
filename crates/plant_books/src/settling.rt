// The changes that wait are tried, one after the other.
ghost use Rattle.std.specs.Prelude.{◌≡◌, ◌+◌, ◌≤◌, length, vec_len, vec_capacity};
ghost use Rattle.change.specs.Viewed.{viewed};
ghost use Rattle.plant_books.specs.Sane.{model_of, Whole};
ghost use Rattle.history.specs.Book.{counting};
ghost use Rattle.history.specs.Taking.{settled};
ghost use Rattle.sending.specs.Receiving.{and_then};
ghost use Rattle.plant_books.specs.Trying.{highest_after, Tried};

use crate::contents::Contents;
use change::names::Plant;
use change::view::ChangeView;
use history::{Event, Outcome};

// The higher of a count and that of a change, if it is the plant's.
pub fn higher_count(view: &ChangeView<'_>, plant: Plant, count: u32) -> u32
    ensures { result ≡ counting plant.number (viewed view.now) count }
{
    let own = view.name.count();
    if view.name.plant() == plant && count < own {
        own
    } else {
        count
    }
}

// The highest count of a plant's changes, after what a change came to.
pub fn highest_after(outcome: Outcome, view: &ChangeView<'_>, plant: Plant, highest: u32) -> u32
    ensures { result ≡ highest_after outcome plant.number (viewed view.now) highest }
{
    match outcome {
        Outcome::Taken => higher_count(view, plant, highest),
        Outcome::Waits | Outcome::Refused(_) => highest,
    }
}

impl<'a> Contents<'a> {
    // Tries the change that is next, if there is one: it comes in, or is turned away for good.
    fn try_next(&mut self) -> Option<Event>
        requires { Whole self.old }
        ensures whole { Whole self.new }
        ensures tried { Tried (model_of self.old) (model_of self.new) result }
    {
        let place = self.lowest_ready()?;
        let view = self.waiting.get(place)?;
        let name = view.name;
        let outcome = self.shelf.admit_in_room(&view);
        self.highest = highest_after(outcome, &view, self.plant, self.highest);
        self.waiting.remove(place);
        Some(Event { name, outcome })
    }

    // Tries the changes that wait, the next one each time, and adds what each came to.
    pub fn settle(&mut self, events: &mut Vec<Event>)
        requires whole { Whole self.old }
        requires room { vec_len events.old + length (model_of self.old).waiting ≤ vec_capacity events.old }
        ensures whole { Whole self.new }
        ensures settled { (events.new.items, model_of self.new) ≡ and_then events.old.items (settled (length (model_of self.old).waiting) (model_of self.old)) }
        ensures capacity { vec_capacity events.new ≡ vec_capacity events.old }
    {
        for tries in 0..self.waiting.len() {
            let Some(event) = self.try_next() else {
                return;
            };
            events.push_reserved(event);
        }
    }
}

// The changes that wait are tried, one after the other.
ghost use Rattle.std.specs.Prelude.{◌≡◌};
ghost use Rattle.change.specs.Viewed.{viewed};
ghost use Rattle.books.specs.Sane.{model_of, Sane};
ghost use Rattle.books.specs.Settling.{Settled};
ghost use Rattle.books.specs.Trying.{highest_after, Tried};

use crate::Book;
use change::view::ChangeView;
use history::{Event, Outcome};
use store::no_room::NoRoom;

// The highest count of a plant's changes, after what a change came to.
pub fn highest_after(outcome: Outcome, view: &ChangeView<'_>, plant: u8, highest: u32) -> u32
    ensures { result ≡ highest_after outcome plant (viewed view.now) highest }
{
    match outcome {
        Outcome::Taken => {
            let count = view.name.count();
            if view.name.plant().number() == plant && highest < count {
                count
            } else {
                highest
            }
        }
        Outcome::Waits => highest,
        Outcome::Refused(_) => highest,
    }
}

impl<'a> Book<'a> {
    // Tries the change that is next, if there is one: it comes in, or is turned away for good. Where the store has no room for it, nothing is altered.
    fn try_next(&mut self) -> Result<Option<Event>, NoRoom>
        requires { Sane self.old }
        ensures sane { Sane self.new }
        ensures tried { Tried (model_of self.old) (model_of self.new) result }
    {
        let Some(place) = self.lowest_ready() else {
            return Ok(None);
        };
        let Some(view) = self.waiting.get(place) else {
            return Ok(None);
        };
        let name = view.name;
        let outcome = self.shelf.admit(&view)?;
        self.highest = highest_after(outcome, &view, self.plant, self.highest);
        self.waiting.remove(place);
        Ok(Some(Event { name, outcome }))
    }

    // Tries the changes that wait, the next one each time, and adds what each came to. It stops, and answers false, where the store or the memory has no room for more.
    pub(crate) fn settle(&mut self, events: &mut Vec<Event>) -> bool
        requires { Sane self.old }
        ensures sane { Sane self.new }
        ensures settled { Settled (model_of self.old) (model_of self.new) events.old.items events.new.items result }
    {
        for tries in 0..self.waiting.len() {
            if events.reserve(1).is_err() {
                return false;
            }
            let Ok(tried) = self.try_next() else {
                return false;
            };
            let Some(event) = tried else {
                return true;
            };
            events.push_reserved(event);
        }
        true
    }
}

// A change comes: it is taken, waits or is turned away, and then what waited is tried.
ghost use Rattle.std.specs.Prelude.{◌≡◌, ◌+◌, ◌≤◌, length, vec_len, vec_capacity};
ghost use Rattle.change.specs.Viewed.{viewed};
ghost use Rattle.history.specs.Taking.{verdict, after, take};
ghost use Rattle.sending.specs.Receiving.{and_then};
ghost use Rattle.plant_books.specs.Sane.{model_of, Whole, Sane};

use crate::contents::{Contents, WAIT_LIMIT};
use crate::settling::highest_after;
use change::refusal::Refusal;
use change::view::ChangeView;
use history::{Event, Outcome};

impl<'a> Contents<'a> {
    // A change comes in, waits or is turned away.
    fn receive(&mut self, view: &ChangeView<'_>) -> Outcome
        requires { Sane self.old }
        ensures whole { Whole self.new }
        ensures outcome { result ≡ verdict (model_of self.old) (viewed view.now) }
        ensures came { model_of self.new ≡ after result (model_of self.old) (viewed view.now) }
    {
        if self.is_known(view.name) {
            return Outcome::Refused(Refusal::Known);
        }
        if self.shelf.needs_here(view) {
            let outcome = self.shelf.admit_in_room(view);
            self.highest = highest_after(outcome, view, self.plant, self.highest);
            return outcome;
        }
        if self.waiting.len() >= WAIT_LIMIT {
            return Outcome::Refused(Refusal::Full);
        }
        self.waiting.push_in_room(view);
        Outcome::Waits
    }

    // A change comes, and what waited is tried if it is taken. What each came to is added to the events, its own first.
    pub fn take(&mut self, view: &ChangeView<'_>, events: &mut Vec<Event>)
        requires sane { Sane self.old }
        requires room { vec_len events.old + (1 + length (model_of self.old).waiting) ≤ vec_capacity events.old }
        ensures sane { Sane self.new }
        ensures took { (events.new.items, model_of self.new) ≡ and_then events.old.items (take (model_of self.old) (viewed view.now)) }
        ensures capacity { vec_capacity events.new ≡ vec_capacity events.old }
    {
        let outcome = self.receive(view);
        events.push_reserved(Event {
            name: view.name,
            outcome,
        });
        if let Outcome::Taken = outcome {
            self.settle(events);
        }
    }
}

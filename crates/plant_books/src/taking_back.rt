// A change of the book is taken back.
ghost use Rattle.std.specs.Prelude.{◌≡◌};
ghost use Rattle.history.specs.Taking.{is_free, take_back};
ghost use Rattle.plant_books.specs.Answers.{freed};
ghost use Rattle.plant_books.specs.Sane.{model_of, Sane};

use crate::contents::Contents;
use change::names::Name;
use change::refusal::Refusal;

impl<'a> Contents<'a> {
    // Takes the change of this name back; refused as needed, and nothing is altered, where it isn't in the book or another there needs it.
    pub fn take_back(&mut self, name: Name) -> Result<(), Refusal>
        requires { Sane self.old }
        ensures sane { Sane self.new }
        ensures answer { result ≡ freed (is_free (model_of self.old) name.0) }
        ensures rest { model_of self.new ≡ take_back (model_of self.old) name.0 }
    {
        if self.shelf.take_back(name) {
            Ok(())
        } else {
            Err(Refusal::Needed)
        }
    }
}
